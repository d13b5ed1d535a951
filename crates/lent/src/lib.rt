// The frame book lent by `&mut`: "One such step leaves the frame book advanced by exactly one load."
#![tactic(auto)]

ghost use Rattle.std.specs.Prelude.{◌<◌, ◌≤◌};
ghost use Rattle.model.specs.Frames as frames;
ghost use Rattle.model.specs.Promises.{AdvancePromise};

use model::{FrameBook, VirtualPage};

pub fn advance(b: &mut FrameBook, a: u32, y: VirtualPage)
    requires { (a ≤ 32) × (frames.frame a b.old < a) }
    ensures { AdvancePromise a b.old y b.new }
{
    *b = book::advanced(a, *b, y);
}

// The same by value: it lends a local, so that whoever calls it needs no walk.
pub fn advanced(b: FrameBook, a: u32, y: VirtualPage) -> FrameBook
    requires { (a ≤ 32) × (frames.frame a b < a) }
    ensures { AdvancePromise a b y result }
{
    let mut next = b;
    advance(&mut next, a, y);
    next
}
