// What the small program prints: the one line of a refusal, the four lines of a run.
ghost use Rattle.std.specs.Prelude.{◌++◌, ◌+◌, ◌≤◌, length};
ghost use Rattle.model.specs.Console as console;
ghost use Rattle.text.specs.Text as text;

use crate::{put, put_number};

// A space and a number.
pub fn put_spaced(out: &mut [u8], at: usize, n: u32) -> usize
    requires { at + 11 ≤ length out.old }
    ensures { text.Appended out.old at out.new result (console.spaced n) × (result ≤ at + 11) }
{
    let to = put(out, at, b" ");
    put_number(out, to, n)
}

// A word and its number, to the end of the line.
fn put_line(out: &mut [u8], at: usize, word: &[u8], n: u32) -> usize
    requires { at + length word.now + 12 ≤ length out.old }
    ensures { text.Appended out.old at out.new result (word.now ++ (console.spaced n ++ console.newline))
        × (result ≤ at + length word.now + 12) }
{
    let to = put(out, at, word);
    let end = put_spaced(out, to, n);
    put(out, end, b"\n")
}

// "the one line `refused` with the number"
pub fn refused_line(out: &mut [u8], at: usize, number: u32) -> usize
    requires { at + 19 ≤ length out.old }
    ensures { text.Appended out.old at out.new result (console.refused_line number) × (result ≤ at + 19) }
{
    put_line(out, at, b"refused", number)
}

// "`stop` with number and detail, `finished`, `loads`, `dpc`"
pub fn four_lines(
    out: &mut [u8],
    at: usize,
    stop: u32,
    detail: u32,
    finished: u32,
    loads: u32,
    dpc: u32,
) -> usize
    requires { at + 79 ≤ length out.old }
    ensures { text.Appended out.old at out.new result (console.four_lines (text.numbers_of stop detail finished loads) dpc)
        × (result ≤ at + 79) }
{
    let first = put(out, at, b"stop");
    let second = put_spaced(out, first, stop);
    let third = put_line(out, second, b"", detail);
    let fourth = put_line(out, third, b"finished", finished);
    let fifth = put_line(out, fourth, b"loads", loads);
    put_line(out, fifth, b"dpc", dpc)
}
