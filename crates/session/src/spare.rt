// Bits 11–3 of a table entry, which are the host's.
ghost use Rattle.std.specs.Prelude.{◌≡◌, ◌≤◌, length};
ghost use Rattle.session.specs.Desk.{set_spare_within};

use model::{Shape, VirtualPage};
use paging::pages;

// A word that does not lie in the lent bytes stays untouched.
pub(crate) fn set_spare(s: Shape, main: &mut [u8], lent: usize, x: VirtualPage, value: u32)
    requires { (lent ≤ length main.old) × (value ≤ 511) }
    ensures { main.new ≡ set_spare_within lent s main.old x value }
{
    let at = pages::entry_at(s, x);
    if lent < at + 4 {
        return;
    }
    let e = words::number_at::<4>(main, at);
    words::put_number::<4>(main, at, e / 4096 * 4096 + 8 * value + e % 8);
}
