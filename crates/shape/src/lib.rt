// Refusal 1, "a shape number or memory length breaks its bound": the tests that none does.
#![tactic(auto)]

ghost use Rattle.std.specs.Prelude.{◌≡◌};
ghost use Rattle.model.specs.Sound as soundness;
ghost use Rattle.model.specs.State.{memory};
ghost use Rattle.shape.specs.Lengths.{lengths_fit};

use model::Shape;

// "Main memory: exactly P pages", "Swap: .. length exactly 4096·(sbase+ptl)". In 64 bits no sum goes round.
#[tactic(auto, using(crate::proofs::Facts::lengths_broken))]
fn lengths_fit(s: Shape, main: usize, swap: usize) -> bool
    ensures { result ≡ lengths_fit s main swap }
{
    if main != 4096 * (s.pages as usize) {
        return false;
    }
    if swap != 4096 * ((s.sbase as usize) + (s.ptl as usize)) {
        return false;
    }
    true
}

// The tests in the document's order.
#[tactic(auto, using(crate::proofs::Facts::bounds_broken))]
pub fn fits(s: Shape, main: &[u8], swap: &[u8]) -> bool
    ensures { result ≡ soundness.fits s (memory main.now swap.now) }
{
    let pages = s.pages as usize;
    let frames = s.frames as usize;
    let abase = s.abase as usize;
    let ptl = s.ptl as usize;
    let pto = s.pto as usize;
    if pages < 3 {
        return false;
    }
    if pages > 64 {
        return false;
    }
    if frames < 2 {
        return false;
    }
    if frames > 32 {
        return false;
    }
    if abase < 1 {
        return false;
    }
    if abase + frames > pages {
        return false;
    }
    if ptl < 1 {
        return false;
    }
    if ptl > 1024 {
        return false;
    }
    if pto % 4 != 0 {
        return false;
    }
    if pto + 4 * ptl > 4096 * abase {
        return false;
    }
    if s.sbase > 16 {
        return false;
    }
    lengths_fit(s, main.len(), swap.len())
}
