// A sum in a line of a maker's text. Sum and operand call each other in a cycle, measured by the bytes left; the terms of a sum go by a
// loop, so that no line deepens the stack beyond its parentheses. A value v is kept as v + 2^31.
#![tactic(auto)]

ghost use Rattle.std.specs.Prelude.{◌≡◌, ◌<◌, ◌^◌, Ok, length, take_while};
ghost use Rattle.notation.specs.Sums as sums;

use model::Refusal;
use notation::{Parsed, Wrong};
use text::reading;

// How 0 is kept, and how many values there are.
const ZERO: u64 = 2147483648;

const SPAN: u64 = 4294967296;

// What stands at a place, 0 at the line's end.
pub fn byte_at(s: &[u8], at: usize) -> u8
    ensures { result ≡ sums.byte_at s.now at }
{
    s.get(at).copied().unwrap_or(0)
}

pub fn blank(c: u8) -> bool
    ensures { result ≡ sums.is_blank c }
{
    matches!(c, b' ' | b'\t' | b'\r')
}

// How many blanks a text begins with.
fn blanks(s: &[u8]) -> usize
    ensures { result ≡ length (take_while sums.is_blank s.now) }
{
    s.iter().take_while(|c| blank(**c)).count()
}

// The first place from `at` on that holds no blank, or the line's end.
pub fn skip(s: &[u8], at: usize) -> usize
    ensures { result ≡ sums.skipped s.now at }
{
    if s.len() <= at {
        return at;
    }
    at + blanks(&s[at..])
}

// A number of at least one digit; one above `most` does not fit, at its first digit.
pub fn number(s: &[u8], at: usize, most: u32) -> Parsed
    ensures { result ≡ sums.number_at s.now at most }
{
    if !reading::digit_at(s, at) {
        return Err(Wrong {
            refusal: Refusal::Operand,
            place: at,
        });
    }
    match reading::number_at(s, at, most) {
        Ok(n) => Ok((u64::from(n.value), n.next)),
        Err(_) => Err(Wrong {
            refusal: Refusal::Overflow,
            place: at,
        }),
    }
}

// "each value kept in 32 bits signed": v is 2^32 more than the value, and `at` where the value's text begins.
fn kept(at: usize, v: u64, next: usize) -> Parsed
    ensures { result ≡ sums.kept at v next }
{
    if !(ZERO..ZERO + SPAN).contains(&v) {
        return Err(Wrong {
            refusal: Refusal::Overflow,
            place: at,
        });
    }
    Ok((v - ZERO, next))
}

// The sum or the difference of two values.
fn join(at: usize, acc: u64, minus: bool, v: u64, next: usize) -> Parsed
    requires { (acc < 2 ^ 32) × (v < 2 ^ 32) }
    ensures { result ≡ sums.joined at acc minus v next }
{
    let sum = if minus { acc + SPAN - v } else { acc + v };
    kept(at, sum, next)
}

// Where the term begins that a minus stands before, or not.
fn start_of(s: &[u8], at: usize) -> usize
    ensures { result ≡ sums.start_of s.now at }
{
    if byte_at(s, at) == b'-' {
        return skip(s, at + 1);
    }
    at
}

// A term with its minus.
fn negate(at: usize, minus: bool, v: u64, next: usize) -> Parsed
    requires { v < 2 ^ 32 }
    ensures { result ≡ sums.negated at minus (Ok (v, next)) }
{
    if minus {
        return join(at, ZERO, true, v, next);
    }
    Ok((v, next))
}

// The parenthesis behind a sum.
fn close(s: &[u8], v: u64, next: usize) -> Parsed
    ensures { result ≡ sums.closed s.now (Ok (v, next)) }
{
    let at = skip(s, next);
    if byte_at(s, at) != b')' {
        return Err(Wrong {
            refusal: Refusal::Operand,
            place: at,
        });
    }
    Ok((v, at + 1))
}

// A term: a minus or none, then a number or a sum in parentheses, of which `depth` more may be open.
#[cycle(operand_sum)]
fn operand(s: &[u8], at: usize, depth: u32) -> Parsed
    ensures { result ≡ sums.term_at s.now at depth }
{
    let minus = byte_at(s, at) == b'-';
    let from = start_of(s, at);
    if byte_at(s, from) != b'(' {
        let (value, next) = number(s, from, 2147483647)?;
        return negate(at, minus, value + ZERO, next);
    }
    if depth == 0 {
        return Err(Wrong {
            refusal: Refusal::Operand,
            place: from,
        });
    }
    let (value, next) = sum(s, skip(s, from + 1), depth - 1)?;
    let (value, next) = close(s, value, next)?;
    negate(at, minus, value, next)
}

// A sum: terms with + and - between them.
#[cycle(operand_sum)]
pub fn sum(s: &[u8], at: usize, depth: u32) -> Parsed
    ensures { result ≡ sums.sum_at s.now at depth }
{
    let mut acc = ZERO;
    let mut minus = false;
    let mut from = at;
    loop {
        let (value, next) = operand(s, from, depth)?;
        let (total, end) = join(at, acc, minus, value, next)?;
        let sign = skip(s, end);
        let c = byte_at(s, sign);
        if (c != b'+') & (c != b'-') {
            return Ok((total, end));
        }
        acc = total;
        minus = c == b'-';
        from = skip(s, sign + 1);
    }
}
