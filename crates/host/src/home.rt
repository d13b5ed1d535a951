// Where a byte of the flat memory is: "from main memory or from swap as its entry says".
ghost use Rattle.std.specs.Prelude.{◌≡◌, ◌<◌, length};
ghost use Rattle.model.specs.Pages.{page_of};
ghost use Rattle.laws.specs.Good.{Fit};
ghost use Rattle.host.specs.Home.{home_of};

use model::Shape;
use paging::{pages, table};

// In which memory, and at which byte of it.
#[derive(Clone, Copy)]
pub enum Home {
    Main(usize),
    Swap(usize),
}

#[tactic(auto, using(crate::proofs::Where::home_main))]
pub fn home_of(s: Shape, main: &[u8], va: u32) -> Home
    requires { Fit s (length main.now) × ((page_of va).0 < s.ptl) }
    ensures { result ≡ home_of s main.now va }
{
    let x = pages::page_of(va);
    let e = table::entry(s, main, x);
    if e % 2 == 1 {
        return Home::Main(pages::main_at(pages::ppx(e), va));
    }
    Home::Swap(pages::swap_at(pages::swap_of(s, x), va))
}
