// The part of a lent memory that a page view hands back.
ghost use Rattle.std.specs.Prelude.{◌<◌, length};
ghost use Rattle.model.specs.Parts.{PartOf, page_home, page_part};
ghost use Rattle.model.specs.State.{memory};
ghost use Rattle.host.specs.Home.{Reachable};

use crate::home;
use crate::home::Home;
use model::{Shape, VirtualPage};
use paging::pages;

// "from main memory or from swap as its entry says"
pub fn page_part<'a>(s: Shape, main: &'a [u8], swap: &'a [u8], page: VirtualPage) -> &'a [u8]
    requires { Reachable s main.now (length swap.now) × (page.0 < s.ptl) }
    ensures { PartOf (page_home s main.entry swap.entry page)
        (page_part s (memory main.now swap.now) page) result }
{
    match home::home_of(s, main, pages::first_va(page)) {
        Home::Main(start) => {
            let end = start + 4096;
            &main[start..end]
        }
        Home::Swap(start) => {
            let end = start + 4096;
            &swap[start..end]
        }
    }
}
