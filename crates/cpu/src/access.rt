// One access: what it comes to before anything is read or written, and the outcome of a load and of a store by it.
ghost use Rattle.std.specs.Prelude.{◌≡◌, Bool, List, ℕ, ◌<◌, length};
ghost use Rattle.model.specs.declared.Access.{Access};
ghost use Rattle.model.specs.Attempt.{Width, size};
ghost use Rattle.model.specs.Instruction.{onward};
ghost use Rattle.model.specs.Translate.{translate};
ghost use Rattle.laws.specs.Good.{Fit, Safe};
ghost use Rattle.cpu.specs.Reach as rule;

use dlx::decode;
use model::{Access, Outcome, Pcs, Shape, Stop};
use paging::table;

// The address is no multiple of the width, the access is illegal, the page is not resident, or the bytes are at this place. No Result:
// each use tells the four apart at once, and none hands an error on.
#[derive(Clone, Copy)]
pub enum Reached {
    Misaligned,
    Illegal,
    Fault,
    At(usize),
}

// A memory, as "One attempt" sees it: how an access to it goes, by what is lent beside its bytes. The paged machine goes by its shape
// (and the table in the bytes), the flat one by its rights.
pub trait Reaching: Copy {
    // What the memory with these bytes says of an access, as `translate` of the model does.
    ghost access: { Self → List ℕ → Bool → ℕ → Access };

    // What is known of the bytes.
    ghost ready: { Self → List ℕ → Type 0 };

    // A place ends within the bytes.
    fn reach(self, m: &[u8], va: u32, width: u32, writing: bool) -> Reached
        requires { ready self m.now × (0 < width) }
        ensures value { result ≡ rule.reach width va (access self m.now writing va) }
        ensures inside { (w : Width) → width ≡ size w → rule.Ends (size w) (length m.now) result };
}

impl Reaching for Shape {
    ghost access = { translate };

    ghost ready = { Safe };

    fn reach(self, m: &[u8], va: u32, width: u32, writing: bool) -> Reached {
        reach(self, m, va, width, writing)
    }
}

// The access to va, of `width` bytes.
pub fn reach(s: Shape, m: &[u8], va: u32, width: u32, writing: bool) -> Reached
    requires { Fit s (length m.now) × (0 < width) }
    ensures { result ≡ rule.reach width va (translate s m.now writing va) }
{
    if va % width != 0 {
        return Reached::Misaligned;
    }
    let a = table::locate(s, m, va, writing);
    // Its one use: a From would say the same further off.
    match a {
        Access::Illegal => Reached::Illegal,
        Access::Fault => Reached::Fault,
        Access::At(i) => Reached::At(i),
    }
}

// "DPC becomes PC', PC' becomes the target or PC'+4."
pub fn pcs_onward(p: Pcs) -> Pcs
    ensures { result ≡ record { dpc = p.next; next = onward p.next } }
{
    Pcs {
        dpc: p.next,
        next: decode::onward(p.next),
    }
}

// The outcome of a load whose access to va came to r, and of a store: two, for they differ in what is done at the place, and a closure
// for it would be longer than its arm.
#[tactic(auto, unfolding(crate::specs::Reach::loaded))]
pub fn loaded(p: Pcs, va: u32, r: Reached) -> Outcome
    ensures { result ≡ rule.loaded p va r }
{
    match r {
        Reached::Misaligned => Outcome::Stopped(Stop::Misaligned(va)),
        Reached::Illegal => Outcome::Stopped(Stop::IllegalMemory(va)),
        Reached::Fault => Outcome::Missing(va),
        Reached::At(_) => Outcome::Done(pcs_onward(p)),
    }
}

#[tactic(auto, unfolding(crate::specs::Reach::stored))]
pub fn stored(p: Pcs, va: u32, r: Reached) -> Outcome
    ensures { result ≡ rule.stored p va r }
{
    match r {
        Reached::Misaligned => Outcome::Stopped(Stop::Misaligned(va)),
        Reached::Illegal => Outcome::Stopped(Stop::IllegalMemory(va)),
        Reached::Fault => Outcome::Missing(va),
        Reached::At(i) => Outcome::Wrote(pcs_onward(p), i),
    }
}
