// The table of the words: what each names, and which parts stand behind it.
ghost use Rattle.std.specs.Prelude.{◌≡◌, map};
ghost use Rattle.script.specs.Table as table;

use crate::{Call, Change, Show};

// What a word of `series` names.
#[derive(Clone, Copy)]
pub enum Word {
    Calls(Call),
    Shows(Show),
    Changes(Change),
}

// The parts behind a word, with their bounds: none; a number; two; a number and HEX; the same, where the bytes of HEX lie within a
// buffer from the number on.
#[derive(Clone, Copy)]
pub enum Row {
    Alone,
    One(u32),
    Two(u32, u32),
    Hex(u32),
    HexWithin(u32),
}

pub const ANY: u32 = 4294967295;

const MAIN: u32 = 262144;

const SWAP: u32 = 327680;

// The last word of the record.
const WORD: u32 = record::LENGTH as u32 - 1;

pub fn call_row(call: Call) -> Row
    ensures { result ≡ table.call_row call }
{
    match call {
        Call::Run => Row::One(ANY),
        Call::Read => Row::Two(ANY, 512),
        Call::Write => Row::Hex(ANY),
        Call::View => Row::One(ANY),
        Call::Reply => Row::Two(ANY, ANY),
        Call::Registers => Row::Alone,
    }
}

pub(crate) fn change_row(change: Change) -> Row
    ensures { result ≡ table.change_row change }
{
    match change {
        Change::Main => Row::HexWithin(MAIN),
        Change::Swap => Row::HexWithin(SWAP),
        Change::Record => Row::Two(WORD, ANY),
        Change::Lend => Row::Two(MAIN, SWAP),
        Change::Spare => Row::Two(1023, 511),
    }
}

// What the first row with that word names.
pub fn named<A: Copy>(rows: &[(&[u8], A)], word: &[u8]) -> Option<A>
    ensures { result ≡ table.first_fit None word.now (map (λ r. table.named r.0.now (Some r.1)) rows.now) }
{
    rows.iter()
        .find(|(name, _)| word == *name)
        .map(|(_, meant)| *meant)
}

// The calls, which the programs have in common.
const CALLS: [(&[u8], Call); 6] = [
    (b"run", Call::Run),
    (b"read", Call::Read),
    (b"write", Call::Write),
    (b"view", Call::View),
    (b"reply", Call::Reply),
    (b"registers", Call::Registers),
];

#[tactic(auto, unfolding(crate::specs::Table::call_of))]
pub fn call_of(word: &[u8]) -> Option<Call>
    ensures { result ≡ table.call_of word.now }
{
    named(&CALLS, word)
}

// The words that `series` has behind them.
const OWN: [(&[u8], Word); 7] = [
    (b"frames", Word::Shows(Show::Frames)),
    (b"sum", Word::Shows(Show::Sum)),
    (b"main", Word::Changes(Change::Main)),
    (b"swap", Word::Changes(Change::Swap)),
    (b"record", Word::Changes(Change::Record)),
    (b"lend", Word::Changes(Change::Lend)),
    (b"spare", Word::Changes(Change::Spare)),
];

#[tactic(auto, unfolding(crate::specs::Table::word_of))]
pub(crate) fn word_of(word: &[u8]) -> Option<Word>
    ensures { result ≡ table.word_of word.now }
{
    match call_of(word) {
        Some(c) => Some(Word::Calls(c)),
        None => named(&OWN, word),
    }
}
