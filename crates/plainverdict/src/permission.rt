// The right to a page of the flat memory: to those of the first and the last byte for a transfer, and to one for a view.
ghost use Rattle.std.specs.Prelude.{◌≡◌, ◌&&◌, ◌≤◌, ltb, length, get_or};
ghost use Rattle.model.specs.Flat as flat;
ghost use Rattle.plainmodel.specs.Calls as calls;

use model::VirtualPage;
use plaincpu::rights;

// The page has a rights byte, and that grants what is asked.
fn granted(rights: &[u8], page: u32, writing: bool) -> bool
    ensures { result ≡ (ltb page (length rights.now) && flat.grants writing (get_or rights.now page 0)) }
{
    let x = page as usize;
    if x >= rights.len() {
        return false;
    }
    rights::grants(rights[x], writing)
}

// "all pages need r, or w": n bytes lie in the pages of the first and of the last of them.
pub(crate) fn permitted(rights: &[u8], writing: bool, va: u32, n: usize) -> bool
    requires { (length rights.now ≤ 1024) × (n ≤ 256) }
    ensures { result ≡ calls.permitted writing rights.now va n }
{
    if n == 0 {
        return true;
    }
    if !granted(rights, va / 4096, writing) {
        return false;
    }
    let last = va + ((n - 1) as u32);
    granted(rights, last / 4096, writing)
}

// "a readable page"
pub(crate) fn viewable(rights: &[u8], page: VirtualPage) -> bool
    ensures { result ≡ calls.viewable rights.now page }
{
    granted(rights, page.0, false)
}
