// The frame book by value, apart from memory: the marks, which frame a load takes, and the book after it.
#![tactic(auto)]

pub mod check;
pub mod marks;

ghost use Rattle.std.specs.Prelude.{◌≡◌, ◌<◌, ◌≤◌};
ghost use Rattle.model.specs.Frames as frames;

use model::{FrameBook, VirtualPage};

// "frame f = b", "otherwise f = hand"
pub fn frame(a: u32, b: FrameBook) -> u32
    ensures { result ≡ frames.frame a b }
{
    if b.used < a {
        return b.used;
    }
    b.hand
}

// "An unmarked victim is not copied": whether the next load copies the page in its frame to swap.
pub fn copies(a: u32, b: FrameBook) -> bool
    requires { frames.frame a b < 32 }
    ensures { result ≡ frames.copies a b }
{
    if b.used < a {
        return false;
    }
    marks::marked(b.marks, frame(a, b))
}

// The book after page y is loaded: "B[f] = y", its mark is cleared, and b grows by 1, or "hand becomes (f+1) mod a".
pub fn advanced(a: u32, b: FrameBook, y: VirtualPage) -> FrameBook
    requires { (a ≤ 32) × (frames.frame a b < a) }
    ensures { result ≡ frames.advanced a b y }
{
    let f = frame(a, b);
    let i = f as usize;
    let mut next = b;
    next.held[i] = y;
    next.marks = marks::without_mark(b.marks, f);
    if b.used < a {
        next.used = b.used + 1;
        return next;
    }
    next.hand = (f + 1) % a;
    next
}
