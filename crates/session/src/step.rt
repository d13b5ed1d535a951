// One line of a script: what it asks for, done.
ghost use Rattle.std.specs.Prelude.{◌≡◌, ◌/◌, ◌≤◌, length};
ghost use Rattle.text.specs.Reading.{bytes_of};
ghost use Rattle.script.specs.Table.{change_row};
ghost use Rattle.script.specs.Keeping.{Keeps};
ghost use Rattle.session.specs.Desk as desk;
ghost use Rattle.session.specs.Ready.{Lent, Ready};

use crate::spare::set_spare;
use crate::{Standing, Told, calls, shows};
use answerlines::{hex_line, numbers_line};
use model::{Machine, VirtualPage};
use script::parts::Numbers;
use script::{Change, Line};
use text::reading;

// What a line leaves.
pub(crate) fn told(machine: Machine, main: usize, swap: usize, filled: usize, goes_on: bool) -> Told
    ensures { result ≡ desk.told_of machine main swap filled goes_on }
{
    Told {
        standing: Standing {
            machine: machine,
            main: main,
            swap: swap,
        },
        filled: filled,
        goes_on: goes_on,
    }
}

// A change meets the buffers, the record, how much is lent, or an entry's spare bits.
fn change(
    at: Standing,
    main: &mut [u8],
    swap: &mut [u8],
    c: Change,
    n: Numbers,
    digits: &[u8],
) -> Standing
    requires { Lent at × (length main.old ≡ 262144) × (length swap.old ≡ 327680) × Keeps (change_row c) n (length digits.now / 2) }
    ensures { (desk.desk result main.new swap.new
        ≡ desk.changed c n (bytes_of digits.now) (desk.desk at main.old swap.old)) × Lent result }
{
    let k = n.first as usize;
    let mut next = at;
    match c {
        Change::Main => {
            reading::put_bytes(digits, main, k);
            at
        }
        Change::Swap => {
            reading::put_bytes(digits, swap, k);
            at
        }
        Change::Record => {
            let m = at.machine;
            next.machine = record::set_word(m, n.first, n.second);
            next
        }
        Change::Lend => {
            next.main = k;
            next.swap = n.second as usize;
            next
        }
        Change::Spare => {
            let s = at.machine.shape;
            set_spare(s, main, at.main, VirtualPage(n.first), n.second);
            at
        }
    }
}

// A call and what is shown meet the lent bytes; a change answers with its word, which the line begins with; `bad LINE COLUMN`, "and the program ends".
pub(crate) fn step(
    at: Standing,
    main: &mut [u8],
    swap: &mut [u8],
    line: &[u8],
    number: u32,
    out: &mut [u8],
    filled: usize,
) -> Told
    requires { Ready at main.old swap.old out.old filled × (length line.now ≤ 65536) }
    ensures { desk.Tells out.old filled out.new result main.new swap.new
        (desk.spoken number line.now (desk.desk at main.old swap.old)) × Lent result.standing }
{
    let m = at.machine;
    let a = at.main;
    let s = at.swap;
    match script::parse(line) {
        Ok(Line::Calls(c, n)) => {
            let hex = n.hex;
            let digits = &line[hex..];
            let done = calls::answer(c, n, m, &mut main[..a], &mut swap[..s], digits, out, filled);
            let after = done.machine;
            told(after, a, s, done.filled, true)
        }
        Ok(Line::Shows(x)) => {
            let to = shows::show(x, m, &main[..a], &swap[..s], out, filled);
            told(m, a, s, to, true)
        }
        Ok(Line::Changes(c, n)) => {
            let hex = n.hex;
            let next = change(at, main, swap, c, n, &line[hex..]);
            let word = text::scan::find(line, 0, line.len(), 32);
            Told {
                standing: next,
                filled: hex_line(out, filled, &line[..word], b""),
                goes_on: true,
            }
        }
        Err(column) => {
            let bad = [number, column as u32];
            told(m, a, s, numbers_line(out, filled, b"bad", &bad, &[]), false)
        }
    }
}
