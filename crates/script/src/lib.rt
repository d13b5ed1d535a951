// A line of a script, read into what it asks for: a word and its parts, each behind one space. specs/Table has the words.
#![tactic(auto)]

ghost use Rattle.std.specs.Prelude.{◌≡◌, ◌≤◌, length};
ghost use Rattle.script.specs.Grammar as grammar;
ghost use Rattle.script.specs.Promises.{ParsePromise};

pub mod parts;
pub mod table;

use parts::Numbers;
use table::{Row, Word};

// The calls, which every program has, meet the lent bytes.
#[derive(Clone, Copy)]
pub enum Call {
    Run,
    Read,
    Write,
    View,
    Reply,
    Registers,
}

// What `series` shows beside them, of the frame book and of the lent bytes.
#[derive(Clone, Copy)]
pub enum Show {
    Frames,
    Sum,
}

// Its changes meet what stands there: the whole buffers, the record, how much is lent, an entry's spare bits.
#[derive(Clone, Copy)]
pub enum Change {
    Main,
    Swap,
    Record,
    Lend,
    Spare,
}

// A line of `series`: a call or a change with its numbers; what is shown.
#[derive(Clone, Copy)]
pub enum Line {
    Calls(Call, Numbers),
    Shows(Show),
    Changes(Change, Numbers),
}

// A line whose word ends at a place.
#[tactic(auto, unfolding(crate::specs::Grammar::by_word))]
fn by_word(word: Option<Word>, line: &[u8], at: usize) -> Result<Line, usize>
    requires { at ≤ length line.now }
    ensures { result ≡ grammar.by_word word line.now at }
{
    match word.ok_or(1usize)? {
        Word::Calls(c) => Ok(Line::Calls(c, parts::parts_of(line, at, table::call_row(c))?)),
        Word::Shows(t) => {
            parts::parts_of(line, at, Row::Alone)?;
            Ok(Line::Shows(t))
        }
        Word::Changes(c) => Ok(Line::Changes(c, parts::parts_of(line, at, table::change_row(c))?)),
    }
}

// What a line asks for, or the column of the first byte that does not fit.
#[tactic(auto, using(crate::proofs::Ways::word_found))]
pub fn parse(line: &[u8]) -> Result<Line, usize>
    ensures { ParsePromise line.now result }
{
    let at = text::scan::find(line, 0, line.len(), b' ');
    by_word(table::word_of(&line[..at]), line, at)
}
