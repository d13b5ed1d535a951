// The calls that a host makes on a machine: run, host read, host write, page view and reply. They ask nothing of their caller: each
// takes the verdict on what it is handed, acts where nothing is refused, and names its complete outcome. `run_granted` is `run` behind
// its verdict, for a caller that took it.
#![tactic(auto)]

ghost use Rattle.std.specs.Prelude.{◌≡◌, Ok};
ghost use Rattle.model.specs.State.{state};
ghost use Rattle.model.specs.Calls as calls;
ghost use Rattle.model.specs.Promises as promises;

use host::{marks, transfer, view};
use model::{Handed, Machine, Ran, RunResult, Verdict, VirtualPage};

// "Run returns the stop, a detail, instructions finished, pages loaded."; "A run also reports pages copied back".
pub fn run(m: Machine, main: &mut [u8], swap: &mut [u8], limit: u32) -> RunResult
    ensures { promises.RunPromise (state m main.old swap.old) limit result main.new swap.new }
{
    match verdict::run_verdict(m, main, swap, limit) {
        Err(r) => RunResult {
            machine: m,
            answer: Err(r),
        },
        Ok(()) => run_granted(m, main, swap, limit),
    }
}

// The run of a machine that is not refused: a host that keeps the record in words writes it back only where it ran. The registers are
// lent to the engine from an array of their own.
pub fn run_granted(m: Machine, main: &mut [u8], swap: &mut [u8], limit: u32) -> RunResult
    requires { calls.run_verdict (state m main.old swap.old) limit ≡ Ok tt }
    ensures { promises.RunPromise (state m main.old swap.old) limit result main.new swap.new }
{
    let mut g = m.gpr;
    let p = m.pcs;
    let e = engine::go(m.shape, m.book, &mut g, p, main, swap, limit);
    RunResult {
        machine: Machine {
            shape: m.shape,
            book: e.book,
            gpr: g,
            pcs: e.pcs,
        },
        answer: Ok(Ran {
            stop: e.stop,
            finished: e.finished,
            loads: e.loads,
            copied: e.copied,
        }),
    }
}

// "Host read fills a lent buffer".
pub fn host_read(m: Machine, main: &[u8], swap: &[u8], va: u32, into: &mut [u8]) -> Verdict
    ensures { promises.ReadPromise (state m main.now swap.now) va into.old result into.new }
{
    verdict::host_verdict(m, main, swap, false, va, into.len())?;
    transfer::read_bytes(m.shape, main, swap, va, into);
    Ok(())
}

// "host write takes one".
pub fn host_write(m: Machine, main: &mut [u8], swap: &mut [u8], va: u32, from: &[u8]) -> Handed
    ensures { promises.WritePromise (state m main.old swap.old) va from.now result
        main.new swap.new }
{
    match verdict::host_verdict(m, main, swap, true, va, from.len()) {
        Err(r) => Handed {
            machine: m,
            verdict: Err(r),
        },
        Ok(()) => {
            let mut machine = m;
            machine.book.marks = marks::marks_for(m.shape, main, va, from.len(), m.book.marks);
            transfer::write_bytes(m.shape, main, swap, va, from);
            Handed {
                machine,
                verdict: Ok(()),
            }
        }
    }
}

// The page view in two calls: what it answers, and the part that it hands back.
pub fn view_answer(m: Machine, main: &[u8], swap: &[u8], page: VirtualPage) -> Verdict
    ensures { promises.ViewAnswerPromise (state m main.now swap.now) page result }
{
    verdict::view_verdict(m, main, swap, page)
}

// "hands back the 4096 bytes of a readable page", "an empty part" where it is refused.
pub fn page_view<'a>(m: Machine, main: &'a [u8], swap: &'a [u8], page: VirtualPage) -> &'a [u8]
    ensures { promises.PageViewPromise m main.entry swap.entry page result }
{
    match verdict::view_verdict(m, main, swap, page) {
        Err(_) => &main[..0],
        Ok(()) => view::page_part(m.shape, main, swap, page),
    }
}

// "Reply sets one of GPR 1 to 31."
pub fn reply(m: Machine, register: u32, value: u32) -> Handed
    ensures { promises.ReplyPromise m register value result }
{
    match verdict::reply_verdict(register) {
        Err(r) => Handed {
            machine: m,
            verdict: Err(r),
        },
        Ok(()) => {
            let mut machine = m;
            let i = register as usize;
            machine.gpr[i] = value;
            Handed {
                machine,
                verdict: Ok(()),
            }
        }
    }
}
