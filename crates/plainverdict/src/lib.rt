// What each call of the plain engine refuses: "3 and 4 as in document 01, 1 for ptl or a lent length, 2 only for GPR 0 not 0 or a
// rights byte above 3". "The first that applies in the order 1, 2, 4, 3 is given", "for reply only 4".
#![tactic(auto)]

mod permission;

ghost use Rattle.std.specs.Prelude.{◌≡◌, [], ◌≤◌, length, Ok};
ghost use Rattle.model.specs.Calls as base;
ghost use Rattle.plainmodel.specs.State.{plain_state};
ghost use Rattle.plainmodel.specs.Calls as calls;
ghost use Rattle.plainverdict.specs.Handed.{handed};

use image::format;
use model::{Refusal, Verdict, VirtualPage};
use plainmodel::Plain;

// "1 for ptl or a lent length". In 64 bits no product goes round.
#[tactic(auto, using(crate::proofs::Verdicts::many_pages))]
fn fits(ptl: u32, memory: &[u8], rights: &[u8]) -> bool
    ensures { result ≡ calls.fits (handed ptl 0 memory.now rights.now) }
{
    let pages = ptl as usize;
    if pages < 1 {
        return false;
    }
    if pages > 1024 {
        return false;
    }
    if memory.len() != 4096 * pages {
        return false;
    }
    if rights.len() != pages {
        return false;
    }
    true
}

// "2 only for GPR 0 not 0 or a rights byte above 3". The reader has the rule of a rights byte.
#[tactic(auto, using(crate::proofs::Verdicts::zero_wrong))]
fn sound(zero: u32, rights: &[u8]) -> bool
    ensures { result ≡ calls.sound (handed 0 zero [] rights.now) }
{
    if zero != 0 {
        return false;
    }
    format::rights_right(rights)
}

// Refusals 1 and 2, which every call but the reply tests first. The machine is handed in parts, since a call that is not inlined copies
// what it is handed by value.
#[tactic(auto, unfolding(plainmodel::specs::Calls::plain_verdict, plainmodel::specs::Calls::fits, plainmodel::specs::Calls::sound))]
fn plain_verdict(ptl: u32, zero: u32, memory: &[u8], rights: &[u8]) -> Verdict
    ensures { result ≡ calls.plain_verdict (handed ptl zero memory.now rights.now) (Ok tt) }
{
    if !fits(ptl, memory, rights) {
        return Err(Refusal::Bound);
    }
    if !sound(zero, rights) {
        return Err(Refusal::Unsound);
    }
    Ok(())
}

// Refusal 4 of a run: "0 to 1,000,000 instructions".
#[tactic(auto, using(crate::proofs::Verdicts::onward), unfolding(plainmodel::specs::Calls::run_verdict))]
pub fn run_verdict(m: Plain, memory: &[u8], rights: &[u8], limit: u32) -> Verdict
    ensures { result ≡ calls.run_verdict (plain_state m memory.now rights.now) limit }
{
    plain_verdict(m.ptl, m.gpr[0], memory, rights)?;
    if limit > 1000000 {
        return Err(Refusal::TooMuch);
    }
    Ok(())
}

// Refusals 4 and 3 of a transfer of n bytes: "0 to 256 bytes", "all pages need r, or w".
fn transfer_verdict(rights: &[u8], writing: bool, va: u32, n: usize) -> Verdict
    requires { length rights.now ≤ 1024 }
    ensures { result ≡ calls.transfer_verdict writing rights.now va n }
{
    if n > 256 {
        return Err(Refusal::TooMuch);
    }
    if !permission::permitted(rights, writing, va, n) {
        return Err(Refusal::Rights);
    }
    Ok(())
}

// The four refusals of host read and host write.
#[tactic(auto, using(crate::proofs::Verdicts::onward, crate::proofs::Verdicts::few_pages), unfolding(plainmodel::specs::Calls::host_verdict))]
pub fn host_verdict(
    m: Plain,
    memory: &[u8],
    rights: &[u8],
    writing: bool,
    va: u32,
    n: usize,
) -> Verdict
    ensures { result ≡ calls.host_verdict writing (plain_state m memory.now rights.now) va n }
{
    plain_verdict(m.ptl, m.gpr[0], memory, rights)?;
    transfer_verdict(rights, writing, va, n)
}

// Refusal 3 of the page view: "a readable page".
#[tactic(auto, using(crate::proofs::Verdicts::onward), unfolding(plainmodel::specs::Calls::view_verdict))]
pub fn view_verdict(m: Plain, memory: &[u8], rights: &[u8], page: VirtualPage) -> Verdict
    ensures { result ≡ calls.view_verdict (plain_state m memory.now rights.now) page }
{
    plain_verdict(m.ptl, m.gpr[0], memory, rights)?;
    if !permission::viewable(rights, page) {
        return Err(Refusal::Rights);
    }
    Ok(())
}

// Refusal 4 of a reply: "register not 1 to 31".
#[tactic(auto, using(std::proofs::lemmas::Bool::Decides::nat_tests), unfolding(model::specs::Calls::reply_verdict))]
pub fn reply_verdict(register: u32) -> Verdict
    ensures { result ≡ base.reply_verdict register }
{
    if !(1..=31).contains(&register) {
        return Err(Refusal::TooMuch);
    }
    Ok(())
}
