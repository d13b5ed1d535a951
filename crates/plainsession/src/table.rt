// The words of `plain`, behind the calls that the programs have in common: what each names, and which parts stand behind it. A line is
// read by them into what it asks for.
ghost use Rattle.std.specs.Prelude.{◌≡◌, ◌≤◌, length};
ghost use Rattle.plainsession.specs.Table as words;
ghost use Rattle.plainsession.specs.Grammar as grammar;
ghost use Rattle.plainsession.specs.Promises.{ParsePromise};

use script::parts::Numbers;
use script::table::Row;
use script::{Call, parts, table};

// The changes meet what stands there: the whole buffers, the record, how much is lent.
#[derive(Clone, Copy)]
pub enum Change {
    Memory,
    Rights,
    Record,
    Lend,
}

#[derive(Clone, Copy)]
pub enum Word {
    Calls(Call),
    Sum,
    Changes(Change),
}

// A call or a change with its numbers; the sums.
#[derive(Clone, Copy)]
pub enum Line {
    Calls(Call, Numbers),
    Sum,
    Changes(Change, Numbers),
}

const MEMORY: u32 = 327680;

const RIGHTS: u32 = 80;

// The last word of the record.
const WORD: u32 = plainrecord::LENGTH as u32 - 1;

fn change_row(change: Change) -> Row
    ensures { result ≡ words.change_row change }
{
    match change {
        Change::Memory => Row::HexWithin(MEMORY),
        Change::Rights => Row::HexWithin(RIGHTS),
        Change::Record => Row::Two(WORD, table::ANY),
        Change::Lend => Row::Two(MEMORY, RIGHTS),
    }
}

const OWN: [(&[u8], Word); 5] = [
    (b"sum", Word::Sum),
    (b"memory", Word::Changes(Change::Memory)),
    (b"rights", Word::Changes(Change::Rights)),
    (b"record", Word::Changes(Change::Record)),
    (b"lend", Word::Changes(Change::Lend)),
];

#[tactic(auto, unfolding(crate::specs::Table::word_of))]
fn word_of(word: &[u8]) -> Option<Word>
    ensures { result ≡ words.word_of word.now }
{
    match table::call_of(word) {
        Some(c) => Some(Word::Calls(c)),
        None => table::named(&OWN, word),
    }
}

// A line whose word ends at a place.
#[tactic(auto, unfolding(crate::specs::Grammar::by_word))]
fn by_word(word: Option<Word>, line: &[u8], at: usize) -> Result<Line, usize>
    requires { at ≤ length line.now }
    ensures { result ≡ grammar.by_word word line.now at }
{
    match word.ok_or(1usize)? {
        Word::Calls(c) => Ok(Line::Calls(c, parts::parts_of(line, at, table::call_row(c))?)),
        Word::Sum => {
            parts::parts_of(line, at, Row::Alone)?;
            Ok(Line::Sum)
        }
        Word::Changes(c) => Ok(Line::Changes(c, parts::parts_of(line, at, change_row(c))?)),
    }
}

// What a line asks for, or the column of the first byte that does not fit.
#[tactic(auto, using(crate::proofs::Reading::word_found))]
pub fn parse(line: &[u8]) -> Result<Line, usize>
    ensures { ParsePromise line.now result }
{
    let at = text::scan::find(line, 0, line.len(), b' ');
    by_word(word_of(&line[..at]), line, at)
}
