// The calls of a script: each does its work on the lent bytes and puts its line into the buffer, from a place on.
ghost use Rattle.std.specs.Prelude.{◌≡◌, ◌+◌, ◌*◌, ◌/◌, ◌≤◌, length, replicate};
ghost use Rattle.model.specs.State.{state};
ghost use Rattle.model.specs.Pages.{virtual};
ghost use Rattle.model.specs.Calls as calls;
ghost use Rattle.text.specs.Text.{Appended};
ghost use Rattle.text.specs.Reading.{bytes_of};
ghost use Rattle.script.specs.Table.{call_row};
ghost use Rattle.script.specs.Keeping.{Keeps};
ghost use Rattle.session.specs.Answers as answers;

use answerlines::{numbers_line, registers_line, verdict_line};
use answers::refusal_number;
use model::{Machine, VirtualPage};
use script::Call;
use script::parts::Numbers;
use text::lines::refused_line;
use text::reading;

// The record afterwards, and the place behind the line.
#[derive(Clone, Copy)]
pub struct Done {
    pub machine: Machine,
    pub filled: usize,
}

// `run N`
fn run(m: Machine, main: &mut [u8], swap: &mut [u8], limit: u32, out: &mut [u8], at: usize) -> Done
    requires { at + 128 ≤ length out.old }
    ensures { answers.Says out.old at out.new result.filled (state result.machine main.new swap.new)
        (answers.ran (calls.run_call (state m main.old swap.old) limit)) }
{
    let result = machine::run(m, main, swap, limit);
    match result.answer {
        Err(refusal) => left(
            result.machine,
            refused_line(out, at, refusal_number(refusal)),
        ),
        Ok(ran) => {
            let number = answers::stop_number(ran.stop);
            let why = [number, answers::stop_detail(ran.stop)];
            let counts = [ran.finished, ran.loads, ran.copied];
            left(result.machine, numbers_line(out, at, b"run", &why, &counts))
        }
    }
}

// `read VA LEN`
pub fn read(m: Machine, main: &[u8], swap: &[u8], n: Numbers, out: &mut [u8], at: usize) -> Done
    requires { (at + 8900 ≤ length out.old) × (n.second ≤ 512) }
    ensures { (result.machine ≡ m) × Appended out.old at out.new result.filled
        (answers.read_text (calls.read_call (state m main.now swap.now) n.first (replicate n.second 0))) }
{
    let mut space = [0; 512];
    let k = n.second as usize;
    let verdict = machine::host_read(m, main, swap, n.first, &mut space[..k]);
    left(m, verdict_line(out, at, verdict, b"read ", &space[..k]))
}

// `write VA HEX`
pub fn write(
    m: Machine,
    main: &mut [u8],
    swap: &mut [u8],
    va: u32,
    digits: &[u8],
    out: &mut [u8],
    at: usize,
) -> Done
    requires { (at + 128 ≤ length out.old) × (length digits.now ≤ 65536) }
    ensures { answers.Says out.old at out.new result.filled (state result.machine main.new swap.new)
        (answers.wrote (calls.write_call (state m main.old swap.old) va (bytes_of digits.now))) }
{
    let mut space = [0; 32768];
    let k = digits.len() / 2;
    reading::put_bytes(digits, &mut space, 0);
    let handed = machine::host_write(m, main, swap, va, &space[..k]);
    left(
        handed.machine,
        verdict_line(out, at, handed.verdict, b"write", b""),
    )
}

// `view PAGE`
pub fn view<'a>(
    m: Machine,
    main: &'a [u8],
    swap: &'a [u8],
    p: u32,
    out: &mut [u8],
    at: usize,
) -> Done
    requires { at + 8900 ≤ length out.old }
    ensures { (result.machine ≡ m) × Appended out.old at out.new result.filled
        (answers.view_text (calls.view_call (state m main.now swap.now) (virtual p))) }
{
    let verdict = machine::view_answer(m, main, swap, VirtualPage(p));
    let part = machine::page_view(m, main, swap, VirtualPage(p));
    left(m, verdict_line(out, at, verdict, b"view ", part))
}

// `reply I V`
pub fn reply(m: Machine, n: Numbers, out: &mut [u8], at: usize) -> Done
    requires { at + 128 ≤ length out.old }
    ensures { (result.machine ≡ (calls.reply_call m n.first n.second).machine)
        × Appended out.old at out.new result.filled (answers.reply_text (calls.reply_call m n.first n.second)) }
{
    let handed = machine::reply(m, n.first, n.second);
    left(
        handed.machine,
        verdict_line(out, at, handed.verdict, b"reply", b""),
    )
}

// `registers`
pub fn registers(m: Machine, out: &mut [u8], at: usize) -> Done
    requires { at + 512 ≤ length out.old }
    ensures { (result.machine ≡ m) × Appended out.old at out.new result.filled (answers.registers_text m) }
{
    left(m, registers_line(out, at, m.pcs, m.gpr))
}

pub fn left(m: Machine, filled: usize) -> Done
    ensures { (result.machine ≡ m) × (result.filled ≡ filled) }
{
    Done { machine: m, filled }
}

pub(crate) fn answer(
    call: Call,
    n: Numbers,
    m: Machine,
    main: &mut [u8],
    swap: &mut [u8],
    digits: &[u8],
    out: &mut [u8],
    at: usize,
) -> Done
    requires { (at + 8900 ≤ length out.old) × (length digits.now ≤ 65536) × Keeps (call_row call) n (length digits.now / 2) }
    ensures { answers.Says out.old at out.new result.filled (state result.machine main.new swap.new)
        (answers.answered call n (bytes_of digits.now) (state m main.old swap.old)) }
{
    match call {
        Call::Run => run(m, main, swap, n.first, out, at),
        Call::Read => read(m, main, swap, n, out, at),
        Call::Write => write(m, main, swap, n.first, digits, out, at),
        Call::View => view(m, main, swap, n.first, out, at),
        Call::Reply => reply(m, n, out, at),
        Call::Registers => registers(m, out, at),
    }
}
