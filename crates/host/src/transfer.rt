// Host transfers: the bytes of the flat memory from va on, a copy for each page that holds some of them. At most 256 bytes meet one
// page border at most, so a transfer is at most two copies.
ghost use Rattle.std.specs.Prelude.{◌≡◌, ◌+◌, ◌<◌, ◌≤◌, length};
ghost use Rattle.model.specs.Pages.{page_of, offset};
ghost use Rattle.model.specs.Calls as calls;
ghost use Rattle.laws.specs.Good.{InTable};
ghost use Rattle.model.specs.State.{memory};
ghost use Rattle.host.specs.Home.{Reachable};

use crate::home;
use crate::home::Home;
use model::Shape;

// As many of the n bytes from va on as lie in va's page.
fn within(va: u32, n: usize) -> usize
    requires { 0 < n }
    ensures { (0 < result) × (result ≤ n) × (offset va + result ≤ 4096) }
{
    let room = (4096 - va % 4096) as usize;
    if n < room {
        return n;
    }
    room
}

// Bytes of one page: those of the flat memory from va on come to `into`.
fn read_part(s: Shape, main: &[u8], swap: &[u8], va: u32, into: &mut [u8])
    requires { Reachable s main.now (length swap.now) × ((page_of va).0 < s.ptl) × (offset va + length into.old ≤ 4096) }
    ensures { into.new ≡ calls.bytes_from s (memory main.now swap.now) va (length into.old) }
{
    match home::home_of(s, main, va) {
        Home::Main(start) => {
            let end = start + into.len();
            words::copy(&main[start..end], into);
        }
        Home::Swap(start) => {
            let end = start + into.len();
            words::copy(&swap[start..end], into);
        }
    }
}

// And those of `from` go there.
fn write_part(s: Shape, main: &mut [u8], swap: &mut [u8], va: u32, from: &[u8])
    requires { Reachable s main.old (length swap.old) × ((page_of va).0 < s.ptl) × (offset va + length from.now ≤ 4096) }
    ensures { memory main.new swap.new ≡ calls.bytes_to s (memory main.old swap.old) va from.now }
{
    match home::home_of(s, main, va) {
        Home::Main(start) => {
            let end = start + from.len();
            words::copy(from, &mut main[start..end]);
        }
        Home::Swap(start) => {
            let end = start + from.len();
            words::copy(from, &mut swap[start..end]);
        }
    }
}

// "Host read fills a lent buffer". A turn takes as many bytes as lie in one page, which no `for` counts; and so does a write's.
pub fn read_bytes(s: Shape, main: &[u8], swap: &[u8], va: u32, into: &mut [u8])
    requires { Reachable s main.now (length swap.now) × InTable s va (length into.old) }
    ensures { into.new ≡ calls.bytes_from s (memory main.now swap.now) va (length into.old) }
{
    let mut i = 0;
    while i < into.len() {
        let at = va + (i as u32);
        let end = i + within(at, into.len() - i);
        read_part(s, main, swap, at, &mut into[i..end]);
        i = end;
    }
}

// "host write takes one".
pub fn write_bytes(s: Shape, main: &mut [u8], swap: &mut [u8], va: u32, from: &[u8])
    requires { Reachable s main.old (length swap.old) × InTable s va (length from.now) }
    ensures { memory main.new swap.new ≡ calls.bytes_to s (memory main.old swap.old) va from.now }
{
    let mut i = 0;
    while i < from.len() {
        let at = va + (i as u32);
        let end = i + within(at, from.len() - i);
        write_part(s, main, swap, at, &from[i..end]);
        i = end;
    }
}
