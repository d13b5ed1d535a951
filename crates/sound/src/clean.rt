// What soundness says of the pages: "an unmarked resident page equals its swap page".
ghost use Rattle.std.specs.Prelude.{◌≡◌, true, ◌||◌, ℕ, ◌<◌, ◌≤◌, length};
ghost use Rattle.laws.specs.Good.{Fit, SwapLong};
ghost use Rattle.model.specs.Bytes.{same};
ghost use Rattle.model.specs.Pages.{virtual, frame_at, swap_of, main_page, swap_page};
ghost use Rattle.model.specs.Frames as frames;
ghost use Rattle.model.specs.State.{memory};
ghost use Rattle.model.specs.Sound as tests;
ghost use Rattle.book.specs.Numbers.{book_of};

use book::marks;
use model::Shape;
use paging::pages;

// Frame f, which holds page x: it has its mark, or its page equals x's swap page.
fn clean(s: Shape, marks: u32, f: u32, x: u32, main: &[u8], swap: &[u8]) -> bool
    requires { Fit s (length main.now) × SwapLong s (length swap.now) × (f < s.frames) × (x < s.ptl) }
    ensures { result ≡ (frames.marked marks f || same (main_page main.now (frame_at s f)) (swap_page swap.now (swap_of s (virtual x)))) }
{
    if marks::marked(marks, f) {
        return true;
    }
    pages::same_pages(
        main,
        pages::frame_at(s, f),
        swap,
        pages::swap_of(s, pages::virtual_page(x)),
    )
}

pub(crate) fn frames_clean(
    s: Shape,
    used: u32,
    marks: u32,
    held: &[u32],
    main: &[u8],
    swap: &[u8],
) -> bool
    requires { Fit s (length main.now) × SwapLong s (length swap.now) × (used ≤ s.frames) × (length held.now ≡ 32)
        × ((hand marks : ℕ) → tests.held_in_table s.ptl (book_of used hand held.now marks) ≡ true) }
    ensures { (hand : ℕ) → result ≡ tests.frames_clean s (book_of used hand held.now marks) (memory main.now swap.now) }
{
    for f in 0..used {
        if !clean(s, marks, f, held[f as usize], main, swap) {
            return false;
        }
    }
    true
}
