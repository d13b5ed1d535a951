// One attempt at an instruction, on lent registers and one flat lent memory with a rights byte for each of its pages.
#![tactic(auto)]

pub mod rights;

ghost use Rattle.std.specs.Prelude.{◌≡◌, true, false, List, ℕ};
ghost use Rattle.model.specs.Attempt as one;
ghost use Rattle.model.specs.Flat.{allow};
ghost use Rattle.plaincpu.specs.Sized.{Sized};
ghost use Rattle.plaincpu.specs.Fetches.{fetches};

use crate::rights::{Rights, reach};
use cpu::access::Reached;
use cpu::{READING, access};
use model::{Outcome, Pcs};

// Steps 1 and 2: whether the fetch at va goes through.
pub fn fetched(rights: &[u8], va: u32) -> bool
    ensures { result ≡ fetches rights.now va }
{
    matches!(reach(rights, va, 4, READING), Reached::At(_))
}

// An attempt whose fetch goes through.
#[tactic(auto, using(crate::proofs::Ways::fetches_at, crate::proofs::Ways::fetch_inside))]
pub fn attempt(g: &mut [u32; 32], p: Pcs, rights: &[u8], m: &mut [u8]) -> Outcome
    requires { Sized rights.now m.old × (fetches rights.now p.dpc ≡ true) }
    ensures { one.tried result g.new m.new
        ≡ one.attempt (allow rights.now) g.old m.old p }
{
    cpu::attempt_at(g, p, Rights { of: rights }, m, p.dpc as usize)
}

// An attempt whose fetch does not. Unlike the paged machine's it asks nothing of the memory, so the two are not one.
pub fn unfetched(rights: &[u8], p: Pcs) -> Outcome
    requires { fetches rights.now p.dpc ≡ false }
    ensures { (gpr bytes : List ℕ) → one.tried result gpr bytes ≡ one.attempt (allow rights.now) gpr bytes p }
{
    access::loaded(p, p.dpc, reach(rights, p.dpc, 4, READING))
}
