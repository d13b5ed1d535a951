// The page handler: "The handler loads page y."
ghost use Rattle.std.specs.Prelude.{◌≡◌, ◌<◌, length};
ghost use Rattle.model.specs.State.{memory};
ghost use Rattle.model.specs.Handler as handler;
ghost use Rattle.laws.specs.Good.{Fit, SwapLong};
ghost use Rattle.paging.specs.Ready as ready;

use crate::{pages, table};
use book::marks;
use model::{FrameBook, Shape, VirtualPage};

// "the page x = B[f] is copied whole to swap, its entry gets ppx 0 and v 0"; but "An unmarked victim is not copied."
fn put_out(s: Shape, main: &mut [u8], swap: &mut [u8], copied: bool, f: u32, x: VirtualPage)
    requires { Fit s (length main.old) × SwapLong s (length swap.old) × (f < s.frames) × (x.0 < s.ptl) }
    ensures { memory main.new swap.new ≡ handler.out s (memory main.old swap.old) copied f x }
{
    if copied {
        let from = pages::frame_at(s, f);
        let to = pages::swap_of(s, x);
        pages::copy_out(main, from, swap, to);
    }
    table::put_out_entry(s, main, x);
}

// "the frame gets y's swap page, .. y's entry gets ppx abase+f and v 1"
fn bring_in(s: Shape, main: &mut [u8], swap: &[u8], f: u32, y: VirtualPage)
    requires { Fit s (length main.old) × SwapLong s (length swap.now) × (f < s.frames) × (y.0 < s.ptl) }
    ensures { memory main.new swap.now ≡ handler.into s (memory main.old swap.now) f y }
{
    let from = pages::swap_of(s, y);
    let to = pages::frame_at(s, f);
    pages::copy_in(swap, from, main, to);
    table::bring_entry(s, main, y, to);
}

// Where no frame is free the page in the frame that the load takes leaves.
fn vacate(s: Shape, b: FrameBook, main: &mut [u8], swap: &mut [u8], y: VirtualPage)
    requires { ready.Ready s b (length main.old) (length swap.old) y }
    ensures { memory main.new swap.new ≡ ready.vacated s b (memory main.old swap.old) }
{
    if b.used < s.frames {
        return;
    }
    let f = book::frame(s.frames, b);
    let i = f as usize;
    let x = b.held[i];
    put_out(s, main, swap, marks::marked(b.marks, f), f, x);
}

// One step: "One such step leaves the frame book advanced by exactly one load."
pub fn load(s: Shape, b: FrameBook, main: &mut [u8], swap: &mut [u8], y: VirtualPage) -> FrameBook
    requires { ready.Ready s b (length main.old) (length swap.old) y }
    ensures { record { book = result; memory = memory main.new swap.new } ≡ ready.after_load s b (memory main.old swap.old) y }
{
    let next = lent::advanced(b, s.frames, y);
    vacate(s, b, main, swap, y);
    bring_in(s, main, swap, book::frame(s.frames, b), y);
    next
}
