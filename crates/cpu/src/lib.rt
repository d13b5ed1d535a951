// One attempt at an instruction, on lent registers and lent main memory.
#![tactic(auto)]

pub mod access;
pub mod code;
pub mod transfer;

ghost use Rattle.std.specs.Prelude.{◌≡◌, false, List, ℕ, ◌+◌, ◌≤◌, length};
ghost use Rattle.model.specs.Pages.{page_of};
ghost use Rattle.model.specs.declared.Access.TheVariants.{At};
ghost use Rattle.model.specs.Translate.{translate};
ghost use Rattle.model.specs.Attempt as one;
ghost use Rattle.laws.specs.Good.{Safe};
ghost use Rattle.cpu.specs.Numbered.{Numbered};
ghost use Rattle.cpu.specs.Found.{Found};
ghost use Rattle.cpu.specs.Reach as rule;
ghost use Rattle.cpu.specs.declared.access.Reached.TheVariants as reached;

use crate::access::Reaching;
use crate::code::CodePage;
use dlx::decode;
use model::{Outcome, Pcs, Plan, Shape, Stop};
use paging::pages;

// The right that an access asks for: "reading or writing". A bool, as `translate` and `allow` of the model take it.
pub const READING: bool = false;

pub const WRITING: bool = true;

// Steps 3 to 5: the word w, which asks for the plan t.
fn obey<A: Reaching>(g: &mut [u32; 32], p: Pcs, a: A, m: &mut [u8], w: u32, t: Plan) -> Outcome
    requires { A.ready a m.old × Numbered t }
    ensures { one.tried result g.new m.new ≡ one.obey (A.access a m.old) g.old m.old p w t }
{
    match t {
        Plan::Unknown => Outcome::Stopped(Stop::IllegalInstruction(w)),
        Plan::Set { rd, value, target } => {
            transfer::write(g, rd, value);
            Outcome::Done(Pcs {
                dpc: p.next,
                next: target,
            })
        }
        Plan::LoadByte { signed, rd, va } => {
            transfer::load::<1>(a.reach(m, va, 1, READING), g, p, m, signed, rd, va)
        }
        Plan::LoadHalf { signed, rd, va } => {
            transfer::load::<2>(a.reach(m, va, 2, READING), g, p, m, signed, rd, va)
        }
        Plan::LoadWord { rd, va } => {
            transfer::load::<4>(a.reach(m, va, 4, READING), g, p, m, false, rd, va)
        }
        Plan::StoreByte { va, value } => {
            transfer::store::<1>(a.reach(m, va, 1, WRITING), p, m, va, value)
        }
        Plan::StoreHalf { va, value } => {
            transfer::store::<2>(a.reach(m, va, 2, WRITING), p, m, va, value)
        }
        Plan::StoreWord { va, value } => {
            transfer::store::<4>(a.reach(m, va, 4, WRITING), p, m, va, value)
        }
        Plan::Trapping(n) => Outcome::Trapped(access::pcs_onward(p), n),
    }
}

// Steps 2 to 5, where the fetch goes to place i.
pub fn attempt_at<A: Reaching>(g: &mut [u32; 32], p: Pcs, a: A, m: &mut [u8], i: usize) -> Outcome
    requires { A.ready a m.old × (reached.At i ≡ rule.reach 4 p.dpc (A.access a m.old false p.dpc)) × (i + 4 ≤ length m.old) }
    ensures { one.tried result g.new m.new ≡ one.attempt (A.access a m.old) g.old m.old p }
{
    let w = words::number_at::<4>(m, i);
    let t = decode::plan(g, p.next, w);
    obey(g, p, a, m, w, t)
}

// Steps 1 and 2: DPC's alignment, the fetch. DPC is on the code page c, so that the fetch need not ask the table.
pub fn attempt(g: &mut [u32; 32], p: Pcs, s: Shape, m: &mut [u8], c: CodePage) -> Outcome
    requires { Safe s m.old × Found s m.old c × ((page_of p.dpc).0 ≡ c.page.0) }
    ensures { one.tried result g.new m.new
        ≡ one.attempt (translate s m.old) g.old m.old p }
{
    let dpc = p.dpc;
    if dpc % 4 != 0 {
        return Outcome::Stopped(Stop::Misaligned(dpc));
    }
    attempt_at(g, p, s, m, pages::main_at(c.frame, dpc))
}

// An attempt whose fetch goes to no place.
pub fn unfetched(s: Shape, m: &[u8], p: Pcs) -> Outcome
    requires { Safe s m.now × ((i : ℕ) → translate s m.now false p.dpc ≡ At i → ⊥) }
    ensures { (gpr : List ℕ) → one.tried result gpr m.now ≡ one.attempt (translate s m.now) gpr m.now p }
{
    access::loaded(p, p.dpc, access::reach(s, m, p.dpc, 4, READING))
}
