// The table of mnemonics, row by row as in specs/Table of `notation`.
use crate::Row;
use notation::Piece;

// ---- the fields: a lowest bit and a width
macro_rules! field {
    ($low:expr, $bits:expr, $signed:expr) => {
        Piece::Field {
            scale: 1 << $low,
            size: 1 << $bits,
            signed: $signed,
        }
    };
}

const RS1: Piece = field!(21, 5, false);

const RD: Piece = field!(16, 5, false);

const IMM: Piece = field!(0, 16, true);

// Under opcode 0.
const RS2: Piece = field!(16, 5, false);

const RD0: Piece = field!(11, 5, false);

const SA: Piece = field!(6, 5, false);

// lhgi's number; that of j and jal; that of trap.
const HIGH: Piece = field!(0, 16, false);

const FAR: Piece = field!(0, 26, true);

const TRAPPED: Piece = field!(0, 26, false);

const COMMA: Piece = Piece::Mark(b',');

const OPEN: Piece = Piece::Mark(b'(');

const CLOSE: Piece = Piece::Mark(b')');

// ---- the operands
#[derive(Clone, Copy)]
pub enum Operands {
    Rd0Rs1Sa,
    Rd0Rs1Rs2,
    Rd0Rs2,
    Rd0,
    Far,
    Rs1Imm,
    RdRs1Imm,
    RdHigh,
    Rs1,
    Rd,
    Memory,
    Trapped,
}

// The pieces of each, in that order, and the place of the first of each.
pub(crate) static PIECES: [Piece; 35] = [
    // Rd0Rs1Sa
    RD0, COMMA, RS1, COMMA, SA,
    // Rd0Rs1Rs2
    RD0, COMMA, RS1, COMMA, RS2,
    // Rd0Rs2
    RD0, COMMA, RS2,
    // Rd0
    RD0,
    // Far
    FAR,
    // Rs1Imm
    RS1, COMMA, IMM,
    // RdRs1Imm
    RD, COMMA, RS1, COMMA, IMM,
    // RdHigh
    RD, COMMA, HIGH,
    // Rs1
    RS1,
    // Rd
    RD,
    // Memory
    RD, COMMA, IMM, OPEN, RS1, CLOSE,
    // Trapped
    TRAPPED,
];

pub(crate) static BEGINS: [u8; 13] = [0, 5, 10, 13, 14, 15, 18, 23, 26, 27, 28, 34, 35];

// ---- the rows: a function under opcode 0, or an opcode
macro_rules! letter {
    ($name:expr, $at:expr) => {
        if $at < $name.len() { $name[$at] } else { 0 }
    };
}

macro_rules! row {
    ($base:expr, $name:expr, $operands:ident) => {
        Row {
            letters: [
                letter!($name, 0),
                letter!($name, 1),
                letter!($name, 2),
                letter!($name, 3),
            ],
            base: $base,
            long: $name.len() as u8,
            operands: Operands::$operands,
        }
    };
}

macro_rules! function {
    ($number:expr, $name:expr, $operands:ident) => {
        row!($number, $name, $operands)
    };
}

macro_rules! opcode {
    ($number:expr, $name:expr, $operands:ident) => {
        row!($number << 26, $name, $operands)
    };
}

// Static: a constant array is put together anew wherever it stands.
pub(crate) static ROWS: [Row; 49] = [
    function!(0, b"slli", Rd0Rs1Sa),
    function!(2, b"srli", Rd0Rs1Sa),
    function!(3, b"srai", Rd0Rs1Sa),
    function!(4, b"sll", Rd0Rs1Rs2),
    function!(6, b"srl", Rd0Rs1Rs2),
    function!(7, b"sra", Rd0Rs1Rs2),
    function!(33, b"add", Rd0Rs1Rs2),
    function!(35, b"sub", Rd0Rs1Rs2),
    function!(36, b"and", Rd0Rs1Rs2),
    function!(37, b"or", Rd0Rs1Rs2),
    function!(38, b"xor", Rd0Rs1Rs2),
    function!(39, b"lhg", Rd0Rs2),
    function!(40, b"clr", Rd0),
    function!(41, b"sgr", Rd0Rs1Rs2),
    function!(42, b"seq", Rd0Rs1Rs2),
    function!(43, b"sge", Rd0Rs1Rs2),
    function!(44, b"sls", Rd0Rs1Rs2),
    function!(45, b"sne", Rd0Rs1Rs2),
    function!(46, b"sle", Rd0Rs1Rs2),
    function!(47, b"set", Rd0),
    opcode!(2, b"j", Far),
    opcode!(3, b"jal", Far),
    opcode!(4, b"beqz", Rs1Imm),
    opcode!(5, b"bnez", Rs1Imm),
    opcode!(9, b"addi", RdRs1Imm),
    opcode!(11, b"subi", RdRs1Imm),
    opcode!(12, b"andi", RdRs1Imm),
    opcode!(13, b"ori", RdRs1Imm),
    opcode!(14, b"xori", RdRs1Imm),
    opcode!(15, b"lhgi", RdHigh),
    opcode!(22, b"jr", Rs1),
    opcode!(23, b"jalr", Rs1),
    opcode!(24, b"clri", Rd),
    opcode!(25, b"sgri", RdRs1Imm),
    opcode!(26, b"seqi", RdRs1Imm),
    opcode!(27, b"sgei", RdRs1Imm),
    opcode!(28, b"slsi", RdRs1Imm),
    opcode!(29, b"snei", RdRs1Imm),
    opcode!(30, b"slei", RdRs1Imm),
    opcode!(31, b"seti", Rd),
    opcode!(32, b"lb", Memory),
    opcode!(33, b"lh", Memory),
    opcode!(35, b"lw", Memory),
    opcode!(36, b"lbu", Memory),
    opcode!(37, b"lhu", Memory),
    opcode!(40, b"sb", Memory),
    opcode!(41, b"sh", Memory),
    opcode!(43, b"sw", Memory),
    opcode!(62, b"trap", Trapped),
];

// ---- the place of each row, where `place` looks for its name
pub(crate) static PLACES: [u8; 128] = [
    7, 0, 0, 0, 28, 0, 0, 22, 20, 0, 0, 0, 0, 0, 0, 0, 0, 41, 46, 40, 45, 0, 0, 0, 0, 44, 0, 43, 2,
    31, 6, 0, 0, 0, 0, 0, 0, 0, 10, 38, 0, 23, 0, 0, 0, 0, 0, 34, 0, 0, 0, 0, 0, 1, 39, 0, 0, 0, 0,
    0, 0, 0, 35, 5, 0, 0, 0, 32, 0, 0, 0, 36, 0, 0, 18, 0, 42, 47, 26, 0, 27, 37, 14, 0, 0, 0, 0,
    29, 4, 19, 3, 0, 33, 0, 25, 0, 0, 15, 0, 30, 9, 0, 12, 48, 0, 16, 0, 0, 0, 0, 0, 0, 8, 0, 21,
    0, 17, 0, 0, 0, 0, 0, 11, 24, 0, 0, 13, 0,
];
