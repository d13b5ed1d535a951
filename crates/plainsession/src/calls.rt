// The calls of a script: each does its work on the lent bytes and puts its line into the buffer, from a place on.
ghost use Rattle.std.specs.Prelude.{◌≡◌, ◌+◌, ◌/◌, ◌≤◌, length, replicate};
ghost use Rattle.model.specs.Pages.{virtual};
ghost use Rattle.text.specs.Text.{Appended};
ghost use Rattle.text.specs.Reading.{bytes_of};
ghost use Rattle.script.specs.Table.{call_row};
ghost use Rattle.script.specs.Keeping.{Keeps};
ghost use Rattle.plainmodel.specs.State.{plain_state};
ghost use Rattle.plainmodel.specs.Calls as calls;
ghost use Rattle.plainsession.specs.Answers as answers;

use answerlines::{numbers_line, registers_line, verdict_line};
use answers::refusal_number;
use model::VirtualPage;
use plainmodel::Plain;
use script::Call;
use script::parts::Numbers;
use text::lines::refused_line;
use text::reading;

// The record afterwards, and the place behind the line.
#[derive(Clone, Copy)]
pub struct Done {
    pub plain: Plain,
    pub filled: usize,
}

// `run N`
fn run(m: Plain, memory: &mut [u8], rights: &[u8], limit: u32, out: &mut [u8], at: usize) -> Done
    requires { at + 128 ≤ length out.old }
    ensures { answers.Says out.old at out.new result.filled (plain_state result.plain memory.new rights.now)
        (answers.ran (calls.run_call (plain_state m memory.old rights.now) limit)) }
{
    let result = plainmachine::run(m, memory, rights, limit);
    match result.answer {
        Err(refusal) => left(result.plain, refused_line(out, at, refusal_number(refusal))),
        Ok(ran) => {
            let number = answers::stop_number(ran.stop);
            let why = [number, answers::stop_detail(ran.stop)];
            left(
                result.plain,
                numbers_line(out, at, b"run", &why, &[ran.finished]),
            )
        }
    }
}

// `read VA LEN`
fn read(m: Plain, memory: &[u8], rights: &[u8], n: Numbers, out: &mut [u8], at: usize) -> Done
    requires { (at + 8900 ≤ length out.old) × (n.second ≤ 512) }
    ensures { (result.plain ≡ m) × Appended out.old at out.new result.filled
        (answers.read_text (calls.read_call (plain_state m memory.now rights.now) n.first (replicate n.second 0))) }
{
    let mut space = [0; 512];
    let k = n.second as usize;
    let verdict = plainmachine::host_read(m, memory, rights, n.first, &mut space[..k]);
    left(m, verdict_line(out, at, verdict, b"read ", &space[..k]))
}

// `write VA HEX`
fn write(
    m: Plain,
    memory: &mut [u8],
    rights: &[u8],
    va: u32,
    digits: &[u8],
    out: &mut [u8],
    at: usize,
) -> Done
    requires { (at + 128 ≤ length out.old) × (length digits.now ≤ 65536) }
    ensures { answers.Says out.old at out.new result.filled (plain_state result.plain memory.new rights.now)
        (answers.wrote (calls.write_call (plain_state m memory.old rights.now) va (bytes_of digits.now))
        (plain_state m memory.old rights.now)) }
{
    let mut space = [0; 32768];
    let k = digits.len() / 2;
    reading::put_bytes(digits, &mut space, 0);
    let verdict = plainmachine::host_write(m, memory, rights, va, &space[..k]);
    left(m, verdict_line(out, at, verdict, b"write", b""))
}

// `view PAGE`
fn view<'a>(m: Plain, memory: &'a [u8], rights: &'a [u8], p: u32, out: &mut [u8], at: usize) -> Done
    requires { at + 8900 ≤ length out.old }
    ensures { (result.plain ≡ m) × Appended out.old at out.new result.filled
        (answers.view_text (calls.view_call (plain_state m memory.now rights.now) (virtual p))) }
{
    let verdict = plainmachine::view_answer(m, memory, rights, VirtualPage(p));
    let part = plainmachine::page_view(m, memory, rights, VirtualPage(p));
    left(m, verdict_line(out, at, verdict, b"view ", part))
}

// `reply I V`
fn reply(m: Plain, n: Numbers, out: &mut [u8], at: usize) -> Done
    requires { at + 128 ≤ length out.old }
    ensures { (result.plain ≡ (calls.reply_call m n.first n.second).plain)
        × Appended out.old at out.new result.filled (answers.reply_text (calls.reply_call m n.first n.second)) }
{
    let handed = plainmachine::reply(m, n.first, n.second);
    left(
        handed.plain,
        verdict_line(out, at, handed.verdict, b"reply", b""),
    )
}

// `registers`
fn registers(m: Plain, out: &mut [u8], at: usize) -> Done
    requires { at + 512 ≤ length out.old }
    ensures { (result.plain ≡ m) × Appended out.old at out.new result.filled (answers.registers_text m) }
{
    left(m, registers_line(out, at, m.pcs, m.gpr))
}

fn left(m: Plain, filled: usize) -> Done
    ensures { (result.plain ≡ m) × (result.filled ≡ filled) }
{
    Done { plain: m, filled }
}

pub fn answer(
    call: Call,
    n: Numbers,
    m: Plain,
    memory: &mut [u8],
    rights: &[u8],
    digits: &[u8],
    out: &mut [u8],
    at: usize,
) -> Done
    requires { (at + 8900 ≤ length out.old) × (length digits.now ≤ 65536) × Keeps (call_row call) n (length digits.now / 2) }
    ensures { answers.Says out.old at out.new result.filled (plain_state result.plain memory.new rights.now)
        (answers.answered call n (bytes_of digits.now) (plain_state m memory.old rights.now)) }
{
    match call {
        Call::Run => run(m, memory, rights, n.first, out, at),
        Call::Read => read(m, memory, rights, n, out, at),
        Call::Write => write(m, memory, rights, n.first, digits, out, at),
        Call::View => view(m, memory, rights, n.first, out, at),
        Call::Reply => reply(m, n, out, at),
        Call::Registers => registers(m, out, at),
    }
}
