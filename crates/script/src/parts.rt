// The parts of a line, each behind one space, to the line's end. Places count from 0, columns from 1.
ghost use Rattle.std.specs.Prelude.{◌≡◌, ◌≤◌, length, IfOk};
ghost use Rattle.script.specs.Parts as parts;

use crate::table::Row;
use text::reading;
use text::reading::Number;

// The numbers of a line, 0 where it has none, and where the digits of its HEX begin: at its end where it has none.
#[derive(Clone, Copy)]
pub struct Numbers {
    pub first: u32,
    pub second: u32,
    pub hex: usize,
}

#[tactic(auto, using(text::proofs::Bounds::space_inside), unfolding(crate::specs::Parts::spaced_number))]
fn spaced_number(line: &[u8], at: usize, most: u32) -> Result<Number, usize>
    requires { at ≤ length line.now }
    ensures value { result ≡ parts.spaced_number line.now at most }
    ensures within { IfOk result (λ n. n.next ≤ length line.now) }
{
    if !reading::space_at(line, at) {
        return Err(at + 1);
    }
    reading::number_at(line, at + 1, most)
}

// Both numbers are read; the line ends.
#[tactic(auto, unfolding(crate::specs::Parts::ended))]
fn ended(line: &[u8], first: u32, second: u32, end: usize) -> Result<Numbers, usize>
    requires { end ≤ length line.now }
    ensures { result ≡ parts.ended line.now first second end }
{
    if end != line.len() {
        return Err(end + 1);
    }
    Ok(Numbers {
        first,
        second,
        hex: end,
    })
}

#[tactic(auto, unfolding(crate::specs::Parts::one_number))]
fn one_number(line: &[u8], at: usize, most: u32) -> Result<Numbers, usize>
    requires { at ≤ length line.now }
    ensures { result ≡ parts.one_number line.now at most }
{
    let n = spaced_number(line, at, most)?;
    ended(line, n.value, 0, n.next)
}

#[tactic(auto, unfolding(crate::specs::Parts::two_numbers))]
fn two_numbers(line: &[u8], at: usize, most: u32, second: u32) -> Result<Numbers, usize>
    requires { at ≤ length line.now }
    ensures { result ≡ parts.two_numbers line.now at most second }
{
    let first = spaced_number(line, at, most)?;
    let other = spaced_number(line, first.next, second)?;
    ended(line, first.value, other.value, other.next)
}

// The number is read already; HEX is "pairs of hex digits (possibly none)", to the line's end.
#[tactic(auto, using(text::proofs::Bounds::space_inside), unfolding(crate::specs::Parts::hex_behind, crate::specs::Parts::pairs))]
fn hex_behind(line: &[u8], first: u32, next: usize) -> Result<Numbers, usize>
    requires { next ≤ length line.now }
    ensures value { result ≡ parts.hex_behind line.now first next }
    ensures within { IfOk result (λ n. n.hex ≤ length line.now) }
{
    if !reading::space_at(line, next) {
        return Err(next + 1);
    }
    let start = next + 1;
    let end = reading::hex_end(line, start);
    if end != line.len() {
        return Err(end + 1);
    }
    if (end - start) % 2 != 0 {
        return Err(end + 1);
    }
    Ok(Numbers {
        first,
        second: 0,
        hex: start,
    })
}

#[tactic(auto, unfolding(crate::specs::Parts::number_and_hex))]
fn number_and_hex(line: &[u8], at: usize, most: u32) -> Result<Numbers, usize>
    requires { at ≤ length line.now }
    ensures value { result ≡ parts.number_and_hex line.now at most }
    ensures within { IfOk result (λ n. n.hex ≤ length line.now) }
{
    let n = spaced_number(line, at, most)?;
    hex_behind(line, n.value, n.next)
}

// The bytes lie within a buffer of that size, from the number on.
#[tactic(auto, unfolding(crate::specs::Parts::hex_within))]
fn hex_within(line: &[u8], at: usize, size: u32) -> Result<Numbers, usize>
    requires { at ≤ length line.now }
    ensures { result ≡ parts.hex_within line.now at size }
{
    let n = number_and_hex(line, at, size)?;
    if (size as usize) < (n.first as usize) + (line.len() - n.hex) / 2 {
        return Err(at + 2);
    }
    Ok(n)
}

#[tactic(auto, unfolding(crate::specs::Parts::parts_of))]
pub fn parts_of(line: &[u8], at: usize, row: Row) -> Result<Numbers, usize>
    requires { at ≤ length line.now }
    ensures { result ≡ parts.parts_of line.now at row }
{
    match row {
        Row::Alone => ended(line, 0, 0, at),
        Row::One(most) => one_number(line, at, most),
        Row::Two(most, second) => two_numbers(line, at, most, second),
        Row::Hex(most) => number_and_hex(line, at, most),
        Row::HexWithin(size) => hex_within(line, at, size),
    }
}
