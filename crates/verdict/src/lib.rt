// What each call refuses: "The first that applies in the order 1, 2, 4, 3 is given", "for reply only 4".
#![tactic(auto)]

mod permission;

ghost use Rattle.std.specs.Prelude.{◌≡◌, length, Ok};
ghost use Rattle.model.specs.State.{state};
ghost use Rattle.model.specs.Calls as calls;
ghost use Rattle.laws.specs.Good.{Fit};
ghost use Rattle.sound.specs.Lean.{whole};

use model::{Machine, Refusal, Shape, Verdict, VirtualPage};
use sound::Lean;

// Refusals 1 and 2, which every call but the reply tests first. The machine is handed in parts, since a call that is not inlined copies
// what it is handed by value.
fn machine_verdict(l: Lean, held: &[u32], main: &[u8], swap: &[u8]) -> Verdict
    requires { length held.now ≡ 32 }
    ensures { result ≡ calls.machine_verdict (state (whole l held.now) main.now swap.now) (Ok tt) }
{
    if !shape::fits(l.shape, main, swap) {
        return Err(Refusal::Bound);
    }
    if !sound::sound(l, held, main, swap) {
        return Err(Refusal::Unsound);
    }
    Ok(())
}

// Refusal 4 of a run: "0 to 1,000,000 instructions".
#[tactic(auto, using(crate::proofs::Verdicts::runs))]
pub fn run_verdict(m: Machine, main: &[u8], swap: &[u8], limit: u32) -> Verdict
    ensures { result ≡ calls.run_verdict (state m main.now swap.now) limit }
{
    let held = record::numbers_of(m.book.held);
    machine_verdict(sound::lean_of(m), &held, main, swap)?;
    if limit > 1000000 {
        return Err(Refusal::TooMuch);
    }
    Ok(())
}

// Refusals 4 and 3 of a transfer of n bytes: "0 to 256 bytes", "all pages need r, or w".
#[tactic(auto, using(crate::proofs::Verdicts::transfers))]
fn transfer_verdict(s: Shape, main: &[u8], writing: bool, va: u32, n: usize) -> Verdict
    requires { Fit s (length main.now) }
    ensures { result ≡ calls.transfer_verdict writing s main.now va n }
{
    if n > 256 {
        return Err(Refusal::TooMuch);
    }
    if !permission::permitted(s, main, writing, va, n) {
        return Err(Refusal::Rights);
    }
    Ok(())
}

// The four refusals of host read and host write.
pub fn host_verdict(
    m: Machine,
    main: &[u8],
    swap: &[u8],
    writing: bool,
    va: u32,
    n: usize,
) -> Verdict
    ensures { result ≡ calls.host_verdict writing (state m main.now swap.now) va n }
{
    let held = record::numbers_of(m.book.held);
    machine_verdict(sound::lean_of(m), &held, main, swap)?;
    transfer_verdict(m.shape, main, writing, va, n)
}

// Refusal 3 of the page view: "a readable page".
pub fn view_verdict(m: Machine, main: &[u8], swap: &[u8], page: VirtualPage) -> Verdict
    ensures { result ≡ calls.view_verdict (state m main.now swap.now) page }
{
    let held = record::numbers_of(m.book.held);
    machine_verdict(sound::lean_of(m), &held, main, swap)?;
    if !permission::viewable(m.shape, main, page) {
        return Err(Refusal::Rights);
    }
    Ok(())
}

// Refusal 4 of a reply: "register not 1 to 31".
#[tactic(auto, using(crate::proofs::Verdicts::replies))]
pub fn reply_verdict(register: u32) -> Verdict
    ensures { result ≡ calls.reply_verdict register }
{
    if !(1..=31).contains(&register) {
        return Err(Refusal::TooMuch);
    }
    Ok(())
}
