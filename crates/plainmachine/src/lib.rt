// The calls that a host makes on the plain engine: run, host read, host write, page view and reply. They ask nothing of their caller:
// each takes the verdict on what it is handed, acts where nothing is refused, and names its complete outcome. `run_granted` is `run`
// behind its verdict, for a caller that took it.
#![tactic(auto)]

mod transfer;

ghost use Rattle.std.specs.Prelude.{◌≡◌, Ok};
ghost use Rattle.plainmodel.specs.State.{plain_state};
ghost use Rattle.plainmodel.specs.Calls as calls;
ghost use Rattle.plainmodel.specs.Promises as promises;

use model::{Verdict, VirtualPage};
use plainmodel::{Plain, PlainHanded, PlainRan, PlainResult};

// "the same refusals, stops, details, finished counts"; "Loads are not its business and it reports none."
#[tactic(auto, unfolding(plainmodel::specs::Calls::run_call))]
pub fn run(m: Plain, memory: &mut [u8], rights: &[u8], limit: u32) -> PlainResult
    ensures { promises.RunPromise (plain_state m memory.old rights.now) limit result memory.new }
{
    match plainverdict::run_verdict(m, memory, rights, limit) {
        Err(r) => PlainResult {
            plain: m,
            answer: Err(r),
        },
        Ok(()) => run_granted(m, memory, rights, limit),
    }
}

// The run of a machine that is not refused: a host that keeps the record in words writes it back only where it ran. The registers are
// lent to the engine from an array of their own.
#[tactic(auto, using(crate::proofs::Leans::run_leans), unfolding(plainmodel::specs::Calls::run_call))]
pub fn run_granted(m: Plain, memory: &mut [u8], rights: &[u8], limit: u32) -> PlainResult
    requires { calls.run_verdict (plain_state m memory.old rights.now) limit ≡ Ok tt }
    ensures { promises.RunPromise (plain_state m memory.old rights.now) limit result memory.new }
{
    let mut gpr = m.gpr;
    let e = plainengine::go(&mut gpr, m.pcs, rights, memory, limit);
    PlainResult {
        plain: Plain {
            ptl: m.ptl,
            gpr,
            pcs: e.pcs,
        },
        answer: Ok(PlainRan {
            stop: e.stop,
            finished: e.finished,
        }),
    }
}

// "Host read fills a lent buffer".
#[tactic(auto, using(crate::proofs::Leans::host_leans), unfolding(plainmodel::specs::Calls::read_call))]
pub fn host_read(m: Plain, memory: &[u8], rights: &[u8], va: u32, into: &mut [u8]) -> Verdict
    ensures { promises.ReadPromise (plain_state m memory.now rights.now) va into.old result
        into.new }
{
    plainverdict::host_verdict(m, memory, rights, false, va, into.len())?;
    transfer::read_bytes(memory, va, into);
    Ok(())
}

// "host write takes one".
#[tactic(auto, using(crate::proofs::Leans::host_leans), unfolding(plainmodel::specs::Calls::write_call))]
pub fn host_write(m: Plain, memory: &mut [u8], rights: &[u8], va: u32, from: &[u8]) -> Verdict
    ensures { promises.WritePromise (plain_state m memory.old rights.now) va from.now result
        memory.new }
{
    plainverdict::host_verdict(m, memory, rights, true, va, from.len())?;
    transfer::write_bytes(memory, va, from);
    Ok(())
}

// The page view in two calls: what it answers, and the part that it hands back.
#[tactic(auto, unfolding(plainmodel::specs::Calls::view_call))]
pub fn view_answer<'a>(m: Plain, memory: &'a [u8], rights: &'a [u8], page: VirtualPage) -> Verdict
    ensures { promises.ViewAnswerPromise (plain_state m memory.now rights.now) page result }
{
    plainverdict::view_verdict(m, memory, rights, page)
}

// "hands back the 4096 bytes of a readable page", "an empty part" where it is refused.
#[tactic(auto, using(crate::proofs::Leans::view_leans, laws::proofs::Parts::cut_none), unfolding(plainmodel::specs::Calls::view_call))]
pub fn page_view<'a>(m: Plain, memory: &'a [u8], rights: &'a [u8], page: VirtualPage) -> &'a [u8]
    ensures { promises.PageViewPromise m memory.entry rights.now page result }
{
    match plainverdict::view_verdict(m, memory, rights, page) {
        Err(_) => &memory[..0],
        Ok(()) => {
            let start = 4096 * (page.0 as usize);
            let end = start + 4096;
            &memory[start..end]
        }
    }
}

// "Reply sets one of GPR 1 to 31."
#[tactic(auto, using(laws::proofs::Granted::reply_leans), unfolding(plainmodel::specs::Calls::reply_call))]
pub fn reply(m: Plain, register: u32, value: u32) -> PlainHanded
    ensures { promises.ReplyPromise m register value result }
{
    match plainverdict::reply_verdict(register) {
        Err(r) => PlainHanded {
            plain: m,
            verdict: Err(r),
        },
        Ok(()) => {
            let mut replied = m;
            let i = register as usize;
            replied.gpr[i] = value;
            PlainHanded {
                plain: replied,
                verdict: Ok(()),
            }
        }
    }
}
