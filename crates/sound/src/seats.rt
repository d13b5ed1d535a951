// What soundness says of the frame book and the table together: one pass over B, and one over the table.
ghost use Rattle.std.specs.Prelude.{◌≡◌, ◌&&◌, ℕ, ◌≤◌, length};
ghost use Rattle.laws.specs.Good.{Fit};
ghost use Rattle.model.specs.Sound as tests;
ghost use Rattle.book.specs.Numbers.{book_of};
ghost use Rattle.sound.specs.Count.{valid_below};

use model::Shape;
use paging::{pages, table};

// "B[0..b−1] are below ptl", "the entry of B[i] is valid with ppx abase+i"
#[tactic(auto, using(crate::proofs::Frame::unseated_ways))]
pub(crate) fn frames_seated(s: Shape, used: u32, held: &[u32], main: &[u8]) -> bool
    requires { Fit s (length main.now) × (used ≤ 32) × (length held.now ≡ 32) }
    ensures { (hand marks : ℕ) → result ≡ (tests.held_in_table s.ptl (book_of used hand held.now marks)
        && tests.frames_seated s (book_of used hand held.now marks) main.now) }
{
    for f in 0..used {
        let x = held[f as usize];
        if x >= s.ptl {
            return false;
        }
        let e = table::entry(s, main, pages::virtual_page(x));
        if e % 2 != 1 {
            return false;
        }
        if pages::ppx(e) != pages::frame_at(s, f) {
            return false;
        }
    }
    true
}

// The valid entries of the table.
pub(crate) fn valid_entries(s: Shape, main: &[u8]) -> u32
    requires { Fit s (length main.now) }
    ensures { result ≡ valid_below s main.now s.ptl }
{
    let mut n = 0;
    for x in 0..s.ptl {
        n += table::entry(s, main, pages::virtual_page(x)) % 2;
    }
    n
}
