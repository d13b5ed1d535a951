// The right to a page: to those of the first and the last byte for a transfer, and to one for a view.
ghost use Rattle.std.specs.Prelude.{◌≡◌, ◌≤◌, length};
ghost use Rattle.model.specs.Translate as access;
ghost use Rattle.model.specs.Calls as calls;
ghost use Rattle.laws.specs.Good.{Fit};

use model::{Access, Shape, VirtualPage};
use paging::{pages, table};

fn legal(a: Access) -> bool
    ensures { result ≡ access.legal a }
{
    !matches!(a, Access::Illegal)
}

// "all pages need r, or w": n bytes lie in the pages of the first and of the last of them.
#[tactic(auto, using(crate::proofs::Rights::by_ends))]
pub(crate) fn permitted(s: Shape, main: &[u8], writing: bool, va: u32, n: usize) -> bool
    requires { Fit s (length main.now) × (n ≤ 256) }
    ensures { result ≡ calls.permitted writing s main.now va n }
{
    if n == 0 {
        return true;
    }
    if !legal(table::locate(s, main, va, writing)) {
        return false;
    }
    let last = va + ((n - 1) as u32);
    legal(table::locate(s, main, last, writing))
}

// "a readable page": in the table, and its entry grants reading.
pub(crate) fn viewable(s: Shape, main: &[u8], page: VirtualPage) -> bool
    requires { Fit s (length main.now) }
    ensures { result ≡ calls.viewable s main.now page }
{
    if page.0 >= s.ptl {
        return false;
    }
    legal(table::locate(s, main, pages::first_va(page), false))
}
