// A line of a text, read from the left: a mnemonic with its operands, or one plain number.
#![tactic(auto)]

ghost use Rattle.std.specs.Prelude.{◌≡◌, ◌+◌, ◌≤◌, ◌<◌, ◌^◌, length};
ghost use Rattle.notation.specs.Line as line;
ghost use Rattle.mnemonics.specs.Rows as rows;

use mnemonics::Row;
use model::Refusal;
use notation::{Parsed, Piece, Wrong};
use text::reading;

// How 0 is kept in a sum.
const ZERO: u64 = 2147483648;

// How far below zero a field's numbers begin: "Fields extended by sign take signed values, all others .. unsigned".
fn below(size: u64, signed: bool) -> u64
    ensures { (result ≡ line.below size signed) × (result ≤ size) }
{
    if signed { size / 2 } else { 0 }
}

// A value in its field.
fn fit(size: u64, signed: bool, at: usize, v: u64, next: usize) -> Parsed
    requires { (size ≤ 67108864) × (v < 2 ^ 32) }
    ensures { result ≡ line.fitted size signed at v next }
{
    let up = v + below(size, signed);
    if !(ZERO..ZERO + size).contains(&up) {
        return Err(Wrong {
            refusal: Refusal::Overflow,
            place: at,
        });
    }
    let value = if ZERO <= v { v - ZERO } else { v + size - ZERO };
    Ok((value, next))
}

// "nested at most eight deep"
fn operand(s: &[u8], at: usize, size: u64, signed: bool) -> Parsed
    requires { size ≤ 67108864 }
    ensures { result ≡ line.operand_at s.now at size signed }
{
    let (value, next) = sums::sum(s, at, 8)?;
    fit(size, signed, at, value, next)
}

// A piece from place n on; w is the word so far.
fn read_piece(s: &[u8], p: Piece, w: u64, n: usize) -> Parsed
    requires { rows.Fine p × (w < 68719476736) }
    ensures { result ≡ line.read_piece s.now p w n }
{
    let at = sums::skip(s, n);
    match p {
        Piece::Mark(b) => {
            if sums::byte_at(s, at) != b {
                return Err(Wrong {
                    refusal: Refusal::Operand,
                    place: at,
                });
            }
            Ok((w, at + 1))
        }
        Piece::Field {
            scale,
            size,
            signed,
        } => {
            let (value, next) = operand(s, at, size, signed)?;
            Ok((w + value * scale, next))
        }
    }
}

// Nothing but blanks.
fn ended(s: &[u8], w: u64, n: usize) -> Parsed
    ensures { result ≡ line.ended s.now w n }
{
    let at = sums::skip(s, n);
    if at != s.len() {
        return Err(Wrong {
            refusal: Refusal::Operand,
            place: at,
        });
    }
    Ok((w, n))
}

// What stands behind the mnemonic of a row, from a place on.
fn read_pieces(s: &[u8], row: &Row, from: usize) -> Parsed
    requires { rows.Formed row.now }
    ensures { result ≡ line.read_pieces s.now (rows.pieces_of row.now) row.now.base from }
{
    let mut w = row.base as u64;
    let mut n = from;
    for piece in row.pieces() {
        let (value, next) = read_piece(s, *piece, w, n)?;
        w = value;
        n = next;
    }
    ended(s, w, n)
}

// The place behind the mnemonic that begins at a place.
fn name_end(s: &[u8], at: usize) -> usize
    requires { at ≤ length s.now }
    ensures { (result ≡ at + length (line.name_at s.now at)) × (result ≤ length s.now) }
{
    match s[at..].iter().position(|c| sums::blank(*c)) {
        Some(n) => at + n,
        None => s.len(),
    }
}

fn instruction(s: &[u8], at: usize) -> Parsed
    requires { at ≤ length s.now }
    ensures { result ≡ line.instruction_at s.now at }
{
    let end = name_end(s, at);
    let Some(row) = mnemonics::named(&s[at..end]) else {
        return Err(Wrong {
            refusal: Refusal::Mnemonic,
            place: at,
        });
    };
    read_pieces(s, row, end)
}

// "one plain unsigned number up to 4294967295"
fn plain(s: &[u8], at: usize) -> Parsed
    ensures { result ≡ line.plain_at s.now at }
{
    let (value, next) = sums::number(s, at, 4294967295)?;
    ended(s, value, next)
}

pub fn read(s: &[u8]) -> Parsed
    ensures { result ≡ line.line_of s.now }
{
    let at = sums::skip(s, 0);
    if reading::digit_at(s, at) {
        return plain(s, at);
    }
    instruction(s, at)
}
