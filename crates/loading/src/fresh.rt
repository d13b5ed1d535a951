// The record that loading hands back: a fresh machine, or a record of zeros.
ghost use Rattle.std.specs.Prelude.{◌≡◌, ◌/◌, ◌≤◌};
ghost use Rattle.model.specs.Image as image;
ghost use Rattle.loading.specs.Fresh as fresh;

use model::{FrameBook, Handed, Machine, Pcs, Refusal, Shape, VirtualPage, Written};

// "A zero in the image's frames field shall mean 4."
pub(crate) fn meant(frames: u32) -> u32
    ensures { result ≡ image.meant frames }
{
    if frames == 0 {
        return 4;
    }
    frames
}

// "Swap must be 4096·ptl bytes; main memory 3 to 64 whole pages, at least 1+frames."
#[tactic(auto, using(crate::proofs::Roomy::rules_broken))]
pub(crate) fn room(frames: u32, ptl: u32, main: usize, swap: usize) -> bool
    ensures { result ≡ image.room frames ptl main swap }
{
    let pages = main / 4096;
    if main % 4096 != 0 {
        return false;
    }
    if pages < 3 {
        return false;
    }
    if pages > 64 {
        return false;
    }
    if 1 + (meant(frames) as usize) > pages {
        return false;
    }
    if swap != 4096 * (ptl as usize) {
        return false;
    }
    true
}

// All but shape and program counters is 0.
fn blank(shape: Shape, pcs: Pcs) -> Machine
    ensures { result ≡ fresh.blank shape pcs }
{
    Machine {
        shape,
        book: FrameBook {
            used: 0,
            hand: 0,
            held: [VirtualPage(0); 32],
            marks: 0,
        },
        gpr: [0; 32],
        pcs,
    }
}

// "P the lent main pages, a the frames, abase 1, pto 0, sbase 0", "DPC start, PC' start+4, all else 0"
pub(crate) fn machine(main: usize, written: Written) -> Machine
    requires { main / 4096 ≤ 64 }
    ensures { fresh.IsFresh main written.frames written.ptl written.start result }
{
    let shape = Shape {
        pages: (main / 4096) as u32,
        frames: meant(written.frames),
        abase: 1,
        ptl: written.ptl,
        pto: 0,
        sbase: 0,
    };
    let pcs = Pcs {
        dpc: written.start,
        next: written.start.wrapping_add(4),
    };
    blank(shape, pcs)
}

// "from loading, a record of zeros"
pub fn refused(refusal: Refusal) -> Handed
    ensures { result ≡ fresh.refused_by refusal }
{
    let shape = Shape {
        pages: 0,
        frames: 0,
        abase: 0,
        ptl: 0,
        pto: 0,
        sbase: 0,
    };
    let pcs = Pcs { dpc: 0, next: 0 };
    Handed {
        machine: blank(shape, pcs),
        verdict: Err(refusal),
    }
}
