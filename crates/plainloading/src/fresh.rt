// The record that loading hands back: a fresh machine, or a record of zeros.
ghost use Rattle.std.specs.Prelude.{◌≡◌};
ghost use Rattle.plainmodel.specs.Load as load;
ghost use Rattle.plainloading.specs.Fresh as fresh;

use model::{Pcs, Refusal, Written};
use plainmodel::{Plain, PlainHanded};

// "7 for a lent length": a memory of ptl pages, and a rights byte for each. In 64 bits the product does not go round.
#[tactic(auto, unfolding(plainmodel::specs::Load::room))]
pub(crate) fn room(ptl: u32, memory: usize, rights: usize) -> bool
    ensures { result ≡ load.room ptl memory rights }
{
    let pages = ptl as usize;
    memory == 4096 * pages && rights == pages
}

// "DPC start, PC' start+4, all else 0"
pub(crate) fn plain(written: Written) -> Plain
    ensures { result ≡ fresh.fresh_plain written.ptl written.start }
{
    Plain {
        ptl: written.ptl,
        gpr: [0; 32],
        pcs: Pcs {
            dpc: written.start,
            next: written.start.wrapping_add(4),
        },
    }
}

// "from loading, a record of zeros"
pub fn refused(refusal: Refusal) -> PlainHanded
    ensures { result ≡ fresh.refused_by refusal }
{
    PlainHanded {
        plain: Plain {
            ptl: 0,
            gpr: [0; 32],
            pcs: Pcs { dpc: 0, next: 0 },
        },
        verdict: Err(refusal),
    }
}
