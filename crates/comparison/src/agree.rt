// Whether both machines stand alike: the registers, DPC and PC', and every byte of the guest's memory.
ghost use Rattle.std.specs.Prelude.{◌≡◌, ◌<◌};
ghost use Rattle.model.specs.Bytes as bytes;
ghost use Rattle.model.specs.State as states;
ghost use Rattle.model.specs.Flat.{flat_bytes};
ghost use Rattle.comparison.specs.Both.{agreeing, Stands};

use host::view::page_part;
use model::{Machine, VirtualPage};
use plainmodel::Plain;

#[tactic(auto, using(text::proofs::Words::equal_same))]
fn same_registers(a: [u32; 32], b: [u32; 32]) -> bool
    ensures { result ≡ bytes.same a b }
{
    a == b
}

// A page of the guest, "from main memory or from swap as its entry says", beside that of the plain memory.
fn same_page<'a>(
    m: Machine,
    main: &'a [u8],
    swap: &'a [u8],
    memory: &[u8],
    page: VirtualPage,
) -> bool
    requires { Stands (states.state m main.now swap.now) memory.now × (page.0 < m.shape.ptl) }
    ensures { result ≡ bytes.same (bytes.page (flat_bytes m.shape (states.memory main.now swap.now)) page.0)
        (bytes.page memory.now page.0) }
{
    let s = m.shape;
    let part = page_part(s, main, swap, page);
    let start = 4096 * (page.0 as usize);
    let end = start + 4096;
    part == &memory[start..end]
}

// "any byte of the guest's memory": all its pages, whatever the rights.
fn same_memory<'a>(m: Machine, main: &'a [u8], swap: &'a [u8], memory: &[u8]) -> bool
    requires { Stands (states.state m main.now swap.now) memory.now }
    ensures { result ≡ bytes.same (flat_bytes m.shape (states.memory main.now swap.now)) memory.now }
{
    let mut equal = true;
    for x in 0..m.shape.ptl {
        equal = equal & same_page(m, main, swap, memory, VirtualPage(x));
    }
    equal
}

pub(crate) fn agree<'a>(
    m: Machine,
    plain: Plain,
    main: &'a [u8],
    swap: &'a [u8],
    memory: &[u8],
) -> bool
    requires { Stands (states.state m main.now swap.now) memory.now }
    ensures { result ≡ agreeing (states.state m main.now swap.now) plain memory.now }
{
    let of_machine = m.gpr;
    let of_plain = plain.gpr;
    if !same_registers(of_machine, of_plain) {
        return false;
    }
    if m.pcs.dpc != plain.pcs.dpc {
        return false;
    }
    if m.pcs.next != plain.pcs.next {
        return false;
    }
    same_memory(m, main, swap, memory)
}
