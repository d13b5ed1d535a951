// The translation rules: the only ways from one of the three page numbers to another, and from a page to its bytes.
ghost use Rattle.std.specs.Prelude.{◌≡◌, ◌+◌, ◌*◌, ◌^◌, ◌<◌, ◌≤◌, length};
ghost use Rattle.model.specs.Bytes.{same};
ghost use Rattle.model.specs.Pages as rule;
ghost use Rattle.model.specs.Table as entries;

use model::{MainPage, Shape, SwapPage, VirtualPage};

// A page number that no address has, since addresses end below page 2^20; and the main page of no page.
pub const NOWHERE: VirtualPage = VirtualPage(1048576);

pub const NO_FRAME: MainPage = MainPage(0);

// Virtual page number x.
pub fn virtual_page(x: u32) -> VirtualPage
    ensures { result ≡ rule.virtual x }
{
    VirtualPage(x)
}

// The page of a virtual address.
pub fn page_of(va: u32) -> VirtualPage
    ensures { result ≡ rule.page_of va }
{
    VirtualPage(va / 4096)
}

// The first address of a page.
pub fn first_va(x: VirtualPage) -> u32
    requires { x.0 < 2 ^ 20 }
    ensures { result ≡ rule.first_va x }
{
    4096 * x.0
}

// "The entry of page x is at pto + 4x".
pub fn entry_at(s: Shape, x: VirtualPage) -> usize
    ensures { result ≡ rule.entry_at s x }
{
    (s.pto as usize) + 4 * (x.0 as usize)
}

// Frame f is at main page abase + f.
pub fn frame_at(s: Shape, f: u32) -> MainPage
    requires { s.abase + f < 2 ^ 32 }
    ensures { result ≡ rule.frame_at s f }
{
    MainPage(s.abase + f)
}

// The frame at main page p.
pub fn frame_in(s: Shape, p: MainPage) -> u32
    requires { s.abase ≤ p.0 }
    ensures { result ≡ rule.frame_in s p }
{
    p.0 - s.abase
}

// "sbase counts pages".
pub fn swap_of(s: Shape, x: VirtualPage) -> SwapPage
    requires { s.sbase + x.0 < 2 ^ 32 }
    ensures { result ≡ rule.swap_of s x }
{
    SwapPage(s.sbase + x.0)
}

// "bits 31–12 ppx".
pub fn ppx(e: u32) -> MainPage
    ensures { result ≡ entries.ppx e }
{
    MainPage(e / 4096)
}

// The part of an entry that names main page p.
pub(crate) fn ppx_part(p: MainPage) -> u32
    requires { p.0 < 2 ^ 20 }
    ensures { result ≡ 4096 * p.0 }
{
    4096 * p.0
}

// The place of va's byte in a main page, and in a swap page.
pub fn main_at(p: MainPage, va: u32) -> usize
    ensures { result ≡ rule.main_at p (rule.offset va) }
{
    4096 * (p.0 as usize) + ((va % 4096) as usize)
}

pub fn swap_at(p: SwapPage, va: u32) -> usize
    ensures { result ≡ rule.swap_at p (rule.offset va) }
{
    4096 * (p.0 as usize) + ((va % 4096) as usize)
}

// A page copied whole, from main memory to swap and from swap to main memory.
pub(crate) fn copy_out(main: &[u8], from: MainPage, swap: &mut [u8], to: SwapPage)
    requires { (rule.main_at from 4096 ≤ length main.now) × (rule.swap_at to 4096 ≤ length swap.old) }
    ensures { swap.new ≡ rule.with_swap_page swap.old to (rule.main_page main.now from) }
{
    words::copy_page(main, from.0 as usize, swap, to.0 as usize);
}

pub(crate) fn copy_in(swap: &[u8], from: SwapPage, main: &mut [u8], to: MainPage)
    requires { (rule.swap_at from 4096 ≤ length swap.now) × (rule.main_at to 4096 ≤ length main.old) }
    ensures { main.new ≡ rule.with_main_page main.old to (rule.swap_page swap.now from) }
{
    words::copy_page(swap, from.0 as usize, main, to.0 as usize);
}

// Whether a page of main memory and a page of swap are equal.
pub fn same_pages(main: &[u8], p: MainPage, swap: &[u8], q: SwapPage) -> bool
    requires { (rule.main_at p 4096 ≤ length main.now) × (rule.swap_at q 4096 ≤ length swap.now) }
    ensures { result ≡ same (rule.main_page main.now p) (rule.swap_page swap.now q) }
{
    words::same_page(main, p.0 as usize, swap, q.0 as usize)
}
