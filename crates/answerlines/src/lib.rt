// The lines that answer the lines of a script, each put into a lent buffer from a place on.
#![tactic(auto)]

pub mod fnv;

ghost use Rattle.std.specs.Prelude.{◌+◌, ◌*◌, ◌≤◌, ◌++◌, length};
ghost use Rattle.model.specs.Answers.{verdict_numbers};
ghost use Rattle.model.specs.Console.{or_refused};
ghost use Rattle.text.specs.Text.{Appended};
ghost use Rattle.answerlines.specs.Calls as calls;
ghost use Rattle.answerlines.specs.Lines as lines;

use answers::refusal_number;
use fnv::fnv1a;
use model::{Pcs, Verdict};
use text::lines::{put_spaced, refused_line};
use text::{put, put_hex};

// A word, and bytes in hex behind its space: where there are none, the word alone.
pub fn hex_line(out: &mut [u8], at: usize, word: &[u8], bytes: &[u8]) -> usize
    requires { at + length word.now + 2 * length bytes.now + 1 ≤ length out.old }
    ensures { Appended out.old at out.new result (lines.hex_line word.now bytes.now) }
{
    let to = put(out, at, word);
    let end = put_hex(out, to, bytes);
    put(out, end, b"\n")
}

// Numbers, each behind a space.
pub fn put_numbers(out: &mut [u8], at: usize, numbers: &[u32]) -> usize
    requires { at + 11 * length numbers.now ≤ length out.old }
    ensures { Appended out.old at out.new result (lines.spaced_all numbers.now)
        × (result ≤ at + 11 * length numbers.now) }
{
    let mut to = at;
    for n in numbers {
        to = put_spaced(out, to, *n);
    }
    to
}

// A word, its first numbers and more of them.
pub fn numbers_line(out: &mut [u8], at: usize, word: &[u8], first: &[u32], more: &[u32]) -> usize
    requires { at + length word.now + 11 * length first.now + 11 * length more.now + 1 ≤ length out.old }
    ensures { Appended out.old at out.new result
        (lines.numbers_line word.now (first.now ++ more.now)) }
{
    let to = put(out, at, word);
    let next = put_numbers(out, to, first);
    let end = put_numbers(out, next, more);
    put(out, end, b"\n")
}

// What a call answers, or its refusal.
pub fn verdict_line(out: &mut [u8], at: usize, v: Verdict, word: &[u8], bytes: &[u8]) -> usize
    requires { (at + 128 + 2 * length bytes.now ≤ length out.old) × (length word.now ≤ 100) }
    ensures { Appended out.old at out.new result
        (or_refused (verdict_numbers v) (lines.hex_line word.now bytes.now)) }
{
    match v {
        Err(refusal) => refused_line(out, at, refusal_number(refusal)),
        Ok(()) => hex_line(out, at, word, bytes),
    }
}

// A word, and the sums of two slices.
pub fn sums_line(out: &mut [u8], at: usize, word: &[u8], first: &[u8], second: &[u8]) -> usize
    requires { at + length word.now + 23 ≤ length out.old }
    ensures { Appended out.old at out.new result
        (lines.sums_line word.now first.now second.now) }
{
    let one = [fnv1a(first)];
    let other = [fnv1a(second)];
    numbers_line(out, at, word, &one, &other)
}

// `registers`
pub fn registers_line(out: &mut [u8], at: usize, pcs: Pcs, gpr: [u32; 32]) -> usize
    requires { at + 512 ≤ length out.old }
    ensures { Appended out.old at out.new result (calls.registers_line pcs gpr) }
{
    let first = [pcs.dpc, pcs.next];
    numbers_line(out, at, b"registers", &first, &gpr)
}
