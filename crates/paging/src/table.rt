// The page table in main memory: an entry read, an access translated, and the two entries that the handler writes.
ghost use Rattle.std.specs.Prelude.{◌≡◌, ◌^◌, ◌<◌, length};
ghost use Rattle.model.specs.Table as entries;
ghost use Rattle.model.specs.Translate as access;
ghost use Rattle.laws.specs.Good.{Fit};

use crate::pages;
use model::{Access, MainPage, Shape, VirtualPage};

pub fn entry(s: Shape, main: &[u8], x: VirtualPage) -> u32
    requires { Fit s (length main.now) × (x.0 < s.ptl) }
    ensures { result ≡ entries.entry s main.now x }
{
    words::number_at::<4>(main, pages::entry_at(s, x))
}

// The right that an access asks for: bit 1 where it writes, bit 2 where it reads.
fn has(e: u32, writing: bool) -> bool
    ensures { result ≡ access.has writing e }
{
    if writing {
        return e / 2 % 2 == 1;
    }
    e / 4 % 2 == 1
}

// "An access .. is illegal if its page is ≥ ptl, or r (reading) or w (writing) is 0. It is a page fault if it is legal and v is 0."
pub fn locate(s: Shape, main: &[u8], va: u32, writing: bool) -> Access
    requires { Fit s (length main.now) }
    ensures { result ≡ access.translate s main.now writing va }
{
    let x = pages::page_of(va);
    if x.0 >= s.ptl {
        return Access::Illegal;
    }
    let e = entry(s, main, x);
    if !has(e, writing) {
        return Access::Illegal;
    }
    if e % 2 != 1 {
        return Access::Fault;
    }
    Access::At(pages::main_at(pages::ppx(e), va))
}

// What of an entry the handler keeps, bits 11–1: "r and w stay", and "bits 11–3 stay as the host put them".
fn kept(e: u32) -> u32
    ensures { result ≡ entries.kept e }
{
    2 * (e / 2 % 2048)
}

// "its entry gets ppx 0 and v 0 (r and w stay)"
pub(crate) fn put_out_entry(s: Shape, main: &mut [u8], x: VirtualPage)
    requires { Fit s (length main.old) × (x.0 < s.ptl) }
    ensures { main.new ≡ entries.with_entry s main.old x (entries.put_out (entries.entry s main.old x)) }
{
    let e = entry(s, main, x);
    words::put_number::<4>(main, pages::entry_at(s, x), kept(e));
}

// "y's entry gets ppx abase+f and v 1"
pub(crate) fn bring_entry(s: Shape, main: &mut [u8], y: VirtualPage, p: MainPage)
    requires { Fit s (length main.old) × (y.0 < s.ptl) × (p.0 < 2 ^ 20) }
    ensures { main.new ≡ entries.with_entry s main.old y (entries.brought_to p (entries.entry s main.old y)) }
{
    let e = entry(s, main, y);
    words::put_number::<4>(
        main,
        pages::entry_at(s, y),
        pages::ppx_part(p) + kept(e) + 1,
    );
}
