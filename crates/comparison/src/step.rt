// One line of a script: the call is made on both machines, and they are compared.
ghost use Rattle.std.specs.Prelude.{◌≡◌, [], ◌+◌, ◌/◌, ◌≤◌, length, if◌then◌else◌};
ghost use Rattle.model.specs.State.{state};
ghost use Rattle.text.specs.Text.{Appended};
ghost use Rattle.text.specs.Reading.{bytes_of};
ghost use Rattle.script.specs.Table.{call_row};
ghost use Rattle.script.specs.Keeping.{Keeps};
ghost use Rattle.comparison.specs.Words.{differ_text};
ghost use Rattle.comparison.specs.Both.{both, Stands};
ghost use Rattle.comparison.specs.Desk.{desk, told_of, Tells};
ghost use Rattle.comparison.specs.Line.{called, spoken};

use crate::agree::agree;
use crate::{Standing, Told, asked, paged};
use answerlines::numbers_line;
use model::Machine;
use plainmodel::Plain;
use script::Call;
use script::parts::Numbers;
use text::put;

// What a line leaves.
pub(crate) fn told(machine: Machine, plain: Plain, lines: u32, goes_on: bool, filled: usize) -> Told
    ensures { result ≡ told_of machine plain lines goes_on filled }
{
    Told {
        standing: Standing {
            machine,
            plain,
            lines,
            goes_on,
        },
        filled,
    }
}

// "`differ LINE` behind the answer", where the machines are not alike.
fn judged(
    machine: Machine,
    plain: Plain,
    alike: bool,
    number: u32,
    out: &mut [u8],
    at: usize,
) -> Told
    requires { at + 18 ≤ length out.old }
    ensures { (result ≡ told_of machine plain number alike result.filled)
        × Appended out.old at out.new result.filled (if alike then [] else differ_text number) }
{
    if alike {
        return told(machine, plain, number, true, at);
    }
    let filled = numbers_line(out, at, b"differ", &[number], &[]);
    told(machine, plain, number, false, filled)
}

// The call is made on both machines. Said is the plain engine's answer.
fn call(
    c: Call,
    n: Numbers,
    at: Standing,
    main: &mut [u8],
    swap: &mut [u8],
    memory: &mut [u8],
    rights: &[u8],
    digits: &[u8],
    number: u32,
    out: &mut [u8],
    filled: usize,
) -> Told
    requires { Stands (state at.machine main.old swap.old) memory.old × (filled + 9000 ≤ length out.old)
        × (length digits.now ≤ 65536) × Keeps (call_row c) n (length digits.now / 2) }
    ensures tells { Tells out.old filled out.new result
        (desk result.standing main.new swap.new memory.new rights.now)
        (called c n (bytes_of digits.now) number
        (both at.machine main.old swap.old at.plain memory.old rights.now)) }
    ensures stands { Stands (state result.standing.machine main.new swap.new) memory.new × (result.standing.lines ≡ number) }
{
    let mut mine = [0; 8900];
    let mut other = [0; 8900];
    let m = at.machine;
    let p = at.plain;
    let theirs = paged::answer(c, n, m, main, swap, digits, &mut other, 0);
    let ours = plainsession::calls::answer(c, n, p, memory, rights, digits, &mut mine, 0);
    let machine = theirs.machine;
    let plain = ours.plain;
    let to = theirs.filled;
    let end = ours.filled;
    let answer = mine[..end] == other[..to];
    let alike = answer & agree(machine, plain, main, swap, memory);
    let behind = put(out, filled, &mine[..end]);
    judged(machine, plain, alike, number, out, behind)
}

// `bad LINE COLUMN` ends it too.
pub(crate) fn step(
    at: Standing,
    main: &mut [u8],
    swap: &mut [u8],
    memory: &mut [u8],
    rights: &[u8],
    line: &[u8],
    number: u32,
    out: &mut [u8],
    filled: usize,
) -> Told
    requires { Stands (state at.machine main.old swap.old) memory.old × (filled + 9000 ≤ length out.old) × (length line.now ≤ 65536) }
    ensures tells { Tells out.old filled out.new result
        (desk result.standing main.new swap.new memory.new rights.now)
        (spoken number line.now (desk at main.old swap.old memory.old rights.now)) }
    ensures stands { Stands (state result.standing.machine main.new swap.new) memory.new × (result.standing.lines ≡ number) }
{
    match asked::read(line) {
        Ok(asked) => {
            let c = asked.call;
            let n = asked.numbers;
            let digits = &line[n.hex..];
            call(
                c, n, at, main, swap, memory, rights, digits, number, out, filled,
            )
        }
        Err(column) => {
            let bad = [number, column as u32];
            let last = numbers_line(out, filled, b"bad", &bad, &[]);
            told(at.machine, at.plain, number, false, last)
        }
    }
}
