// An access by the rights bytes: what it comes to before anything is read or written. It never faults.
ghost use Rattle.std.specs.Prelude.{◌≡◌, ◌<◌};
ghost use Rattle.model.specs.Flat as flat;
ghost use Rattle.cpu.specs.Reach as rule;
ghost use Rattle.plaincpu.specs.Sized.{Sized};

use cpu::access::{Reached, Reaching};

// A rights byte, "1 read, 2 write, 3 both, 0 none", and the right that an access asks for.
pub fn grants(b: u8, writing: bool) -> bool
    ensures { result ≡ flat.grants writing b }
{
    if writing {
        return b / 2 % 2 == 1;
    }
    b % 2 == 1
}

// The flat memory, as an attempt sees it: the rights of its pages.
#[derive(Clone, Copy)]
pub struct Rights<'a> {
    pub of: &'a [u8],
}

impl<'a> Reaching for Rights<'a> {
    ghost access = { λ r bytes. flat.allow r.of.now };

    ghost ready = { λ r bytes. Sized r.of.now bytes };

    fn reach(self, _m: &[u8], va: u32, width: u32, writing: bool) -> Reached {
        reach(self.of, va, width, writing)
    }
}

// The access to va, of `width` bytes.
#[tactic(auto, using(crate::proofs::Ways::reached_beyond))]
pub fn reach(rights: &[u8], va: u32, width: u32, writing: bool) -> Reached
    requires { 0 < width }
    ensures { result ≡ rule.reach width va (flat.allow rights.now writing va) }
{
    if va % width != 0 {
        return Reached::Misaligned;
    }
    let x = (va / 4096) as usize;
    if x >= rights.len() {
        return Reached::Illegal;
    }
    if !grants(rights[x], writing) {
        return Reached::Illegal;
    }
    Reached::At(va as usize)
}
