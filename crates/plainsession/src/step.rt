// One line of a script: what it asks for, done.
ghost use Rattle.std.specs.Prelude.{◌≡◌, ◌/◌, ◌≤◌, length};
ghost use Rattle.text.specs.Reading.{bytes_of};
ghost use Rattle.script.specs.Keeping.{Keeps};
ghost use Rattle.plainsession.specs.Table.{change_row};
ghost use Rattle.plainsession.specs.Desk as desk;
ghost use Rattle.plainsession.specs.Ready.{Lent, Ready};

use crate::table::{Change, Line};
use crate::{Standing, Told, calls, table};
use answerlines::{hex_line, numbers_line, sums_line};
use plainmodel::Plain;
use script::parts::Numbers;
use text::reading;

// What a line leaves.
pub(crate) fn told(plain: Plain, memory: usize, rights: usize, filled: usize, goes_on: bool) -> Told
    ensures { result ≡ desk.told_of plain memory rights filled goes_on }
{
    Told {
        standing: Standing {
            plain: plain,
            memory: memory,
            rights: rights,
        },
        filled: filled,
        goes_on: goes_on,
    }
}

// A change meets the buffers, the record, or how much is lent.
fn change(
    at: Standing,
    memory: &mut [u8],
    rights: &mut [u8],
    c: Change,
    n: Numbers,
    digits: &[u8],
) -> Standing
    requires { Lent at × (length memory.old ≡ 327680) × (length rights.old ≡ 80) × Keeps (change_row c) n (length digits.now / 2) }
    ensures { (desk.desk result memory.new rights.new
        ≡ desk.changed c n (bytes_of digits.now) (desk.desk at memory.old rights.old)) × Lent result }
{
    let k = n.first as usize;
    let mut next = at;
    match c {
        Change::Memory => {
            reading::put_bytes(digits, memory, k);
            at
        }
        Change::Rights => {
            reading::put_bytes(digits, rights, k);
            at
        }
        Change::Record => {
            let m = at.plain;
            next.plain = plainrecord::set_word(m, n.first, n.second);
            next
        }
        Change::Lend => {
            next.memory = k;
            next.rights = n.second as usize;
            next
        }
    }
}

// A call and the sums meet the lent bytes; a change answers with its word, which the line begins with; `bad LINE COLUMN`, "and the
// program ends".
pub(crate) fn step(
    at: Standing,
    memory: &mut [u8],
    rights: &mut [u8],
    line: &[u8],
    number: u32,
    out: &mut [u8],
    filled: usize,
) -> Told
    requires { Ready at memory.old rights.old out.old filled × (length line.now ≤ 65536) }
    ensures { desk.Tells out.old filled out.new result memory.new rights.new
        (desk.spoken number line.now (desk.desk at memory.old rights.old)) × Lent result.standing }
{
    let m = at.plain;
    let a = at.memory;
    let r = at.rights;
    match table::parse(line) {
        Ok(Line::Calls(c, n)) => {
            let hex = n.hex;
            let digits = &line[hex..];
            let done = calls::answer(c, n, m, &mut memory[..a], &rights[..r], digits, out, filled);
            let after = done.plain;
            told(after, a, r, done.filled, true)
        }
        Ok(Line::Sum) => {
            let to = sums_line(out, filled, b"sum", &memory[..a], &rights[..r]);
            told(m, a, r, to, true)
        }
        Ok(Line::Changes(c, n)) => {
            let hex = n.hex;
            let next = change(at, memory, rights, c, n, &line[hex..]);
            let word = text::scan::find(line, 0, line.len(), 32);
            Told {
                standing: next,
                filled: hex_line(out, filled, &line[..word], b""),
                goes_on: true,
            }
        }
        Err(column) => {
            let bad = [number, column as u32];
            told(m, a, r, numbers_line(out, filled, b"bad", &bad, &[]), false)
        }
    }
}
