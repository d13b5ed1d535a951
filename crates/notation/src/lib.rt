// The types of the makers' notation: mnemonics and sums in, words out, and back. What they mean stands in specs/.
#![tactic(auto)]

use model::Refusal;

// What stands behind a mnemonic: a byte, or an operand. An operand's field begins at the bit that counts `scale`, holds `size` numbers,
// and is extended by sign or not.
#[derive(Clone, Copy)]
pub enum Piece {
    Mark(u8),
    Field { scale: u64, size: u64, signed: bool },
}

// A refusal, and the place that earns it.
#[derive(Clone, Copy)]
pub struct Wrong {
    pub refusal: Refusal,
    pub place: usize,
}

// What is read at a place of a line: a value and the place behind it.
pub type Parsed = Result<(u64, usize), Wrong>;

// A refusal, and the line and the column that earn it (0 and 0 for want of room).
#[derive(Clone, Copy)]
pub struct NotAssembled {
    pub refusal: Refusal,
    pub line: usize,
    pub column: usize,
}

// The assembler's answer: how many bytes the words take.
pub type AssembleAnswer = Result<usize, NotAssembled>;

// The lister's answer: how many bytes the text takes.
pub type ListAnswer = Result<usize, Refusal>;
