// The marks that a host write sets: "a mark per frame, set by .. a host write of at least one byte".
ghost use Rattle.std.specs.Prelude.{◌≡◌, ◌<◌, ◌≤◌, length};
ghost use Rattle.model.specs.Pages.{page_of};
ghost use Rattle.model.specs.Calls as calls;
ghost use Rattle.laws.specs.Good.{Safe, InTable};

use model::Shape;
use paging::{pages, table};

// One byte at va: the mark of the frame where its page is, if it is in one.
fn mark_for(s: Shape, main: &[u8], va: u32, marks: u32) -> u32
    requires { Safe s main.now × ((page_of va).0 < s.ptl) }
    ensures { result ≡ calls.mark_for s main.now va marks }
{
    let e = table::entry(s, main, pages::page_of(va));
    if e % 2 != 1 {
        return marks;
    }
    book::marks::with_mark(marks, pages::frame_in(s, pages::ppx(e)))
}

// n bytes from va on lie in the pages of the first and of the last of them.
#[tactic(auto, using(crate::proofs::Where::mark_none))]
pub fn marks_for(s: Shape, main: &[u8], va: u32, n: usize, marks: u32) -> u32
    requires { Safe s main.now × InTable s va n × (n ≤ 256) }
    ensures { result ≡ calls.marks_for s main.now va n marks }
{
    if n == 0 {
        return marks;
    }
    let last = va + ((n - 1) as u32);
    mark_for(s, main, last, mark_for(s, main, va, marks))
}
