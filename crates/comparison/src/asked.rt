// A line of a script, read into what it asks for: one of the calls that every program has.
ghost use Rattle.std.specs.Prelude.{◌≡◌, ◌≤◌, length};
ghost use Rattle.comparison.specs.Grammar as grammar;

use script::parts::Numbers;
use script::{Call, parts, table};

#[derive(Clone, Copy)]
pub struct Asked {
    pub call: Call,
    pub numbers: Numbers,
}

// A line whose word ends at a place.
#[tactic(auto, unfolding(crate::specs::Grammar::by_word))]
fn by_word(call: Option<Call>, line: &[u8], at: usize) -> Result<Asked, usize>
    requires { at ≤ length line.now }
    ensures { result ≡ grammar.by_word call line.now at }
{
    let call = call.ok_or(1usize)?;
    let numbers = parts::parts_of(line, at, table::call_row(call))?;
    Ok(Asked { call, numbers })
}

// A call with its numbers, or the column of the first byte that does not fit.
#[tactic(auto, using(crate::proofs::Asking::asked_by))]
pub(crate) fn read(line: &[u8]) -> Result<Asked, usize>
    ensures { result ≡ grammar.asked_of line.now }
{
    let at = text::scan::find(line, 0, line.len(), b' ');
    by_word(table::call_of(&line[..at]), line, at)
}
