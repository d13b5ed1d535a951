// The table of mnemonics in code, and its two look-ups: by name and by word.
#![tactic(auto)]

ghost use Rattle.std.specs.Prelude.{◌≡◌, ◌<◌, true, option_map, map, IfSome};
ghost use Rattle.notation.specs.Line.{is_named};
ghost use Rattle.notation.specs.Listing.{key_of, is_keyed};
ghost use Rattle.mnemonics.specs.Rows as rows;
ghost use Rattle.notation.specs.Table as Table;

mod table;

use notation::Piece;
use table::{BEGINS, Operands, PIECES, PLACES, ROWS};

// A mnemonic of so many letters, zeros behind them, the word with every field zero, and what stands behind the mnemonic. It holds no
// reference: with those of a static the archive for C would have data.
#[derive(Clone, Copy)]
pub struct Row {
    letters: [u8; 4],
    pub base: u32,
    long: u8,
    operands: Operands,
}

impl Row {
    pub fn name(&self) -> &[u8]
        ensures { result.now ≡ rows.name_of self.now }
    {
        &self.letters[..(self.long as usize).min(4)]
    }

    pub fn pieces(&self) -> &'static [Piece]
        ensures { result.now ≡ rows.pieces_of self.now }
    {
        let operands = self.operands as usize;
        &PIECES[BEGINS[operands] as usize..BEGINS[operands + 1] as usize]
    }
}

// The rows.
fn all_rows() -> &'static [Row]
    ensures rows { map rows.row_of result.now ≡ Table.rows }
    ensures placed { rows.placed result.now ≡ true }
{
    &ROWS
}

// A name's first four bytes, with zeros behind a shorter one.
fn padded(name: &[u8]) -> [u8; 4]
    ensures { result ≡ rows.padded name.now }
{
    match name {
        [a, b, c, d, ..] => [*a, *b, *c, *d],
        [a, b, c] => [*a, *b, *c, 0],
        [a, b] => [*a, *b, 0, 0],
        [a] => [*a, 0, 0, 0],
        [] => [0; 4],
    }
}

// The place of the one row that may have a name of these letters.
fn place(letters: [u8; 4]) -> usize
    ensures { (result ≡ rows.place_of letters) × (result < 49) }
{
    let hash = u32::from_le_bytes(letters).wrapping_mul(2753667) >> 25;
    PLACES[hash as usize] as usize
}

// The row of that name. Behind its first four bytes a longer one differs by its length.
pub fn named(name: &[u8]) -> Option<&'static Row>
    ensures same { option_map (λ r. rows.row_of r.now) result ≡ rows.row_where (is_named name.now) }
    ensures formed { IfSome result (λ r. rows.Formed r.now) }
{
    let letters = padded(name);
    let row = &all_rows()[place(letters)];
    if (row.letters == letters) & (row.name().len() == name.len()) {
        return Some(row);
    }
    None
}

// What the machine goes by: the function under opcode 0, or the opcode.
fn key(w: u32) -> u32
    ensures { result ≡ key_of w }
{
    if w < 1 << 26 {
        return w % 64;
    }
    w >> 26 << 26
}

// The row by which the machine goes for a word.
pub fn keyed(w: u32) -> Option<&'static Row>
    ensures same { option_map (λ r. rows.row_of r.now) result ≡ rows.row_where (is_keyed w) }
    ensures formed { IfSome result (λ r. rows.Formed r.now) }
{
    let key = key(w);
    all_rows().iter().rev().find(|row| row.base == key)
}
