// The code page: where the page stands that is being executed, so that a fetch on it need not ask the table again.
ghost use Rattle.std.specs.Prelude.{◌≡◌, eqb, length};
ghost use Rattle.model.specs.Pages.{page_of};
ghost use Rattle.laws.specs.Good.{Fit};
ghost use Rattle.cpu.specs.Found.{Found, Finds};

use model::{Access, MainPage, Shape, VirtualPage};
use paging::{pages, table};

#[derive(Clone, Copy)]
pub struct CodePage {
    pub page: VirtualPage,
    pub frame: MainPage,
}

// va is on the code page.
pub fn covers(c: CodePage, va: u32) -> bool
    ensures { result ≡ eqb (page_of va).0 c.page.0 }
{
    pages::page_of(va) == c.page
}

// Where the page of va stands; nowhere, if it may not be read or is not resident.
pub fn find(s: Shape, m: &[u8], va: u32) -> CodePage
    requires { Fit s (length m.now) }
    ensures { Found s m.now result × Finds s m.now va result }
{
    let x = pages::page_of(va);
    let a = table::locate(s, m, va, false);
    match a {
        Access::At(_) => CodePage {
            page: x,
            frame: pages::ppx(table::entry(s, m, x)),
        },
        _ => CodePage {
            page: pages::NOWHERE,
            frame: pages::NO_FRAME,
        },
    }
}
