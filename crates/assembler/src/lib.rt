// The assembler: a text of one instruction a line, to words. A pass reads every line and counts, a pass writes.
#![tactic(auto)]

ghost use Rattle.std.specs.Prelude.{◌≡◌, [], ◌∷◌, ◌+◌, ◌<◌, ◌≤◌, length, MatchOption, Ok};
ghost use Rattle.laws.specs.Over.{over};
ghost use Rattle.notation.specs.Calls.{bytes_of_word};
ghost use Rattle.notation.specs.Line.{line_of};
ghost use Rattle.notation.specs.Promises.{AssemblePromise};
ghost use Rattle.notation.specs.Text.{lines};
ghost use Rattle.assembler.specs.Passes as passes;

use model::Refusal;
use notation::{AssembleAnswer, NotAssembled};

// The first line, and what stands behind its newline; none of no text. The library's `split` has a last line more where a text ends in
// a newline, and `split_inclusive` keeps the newlines.
fn first_line(text: &[u8]) -> Option<(&[u8], &[u8])>
    ensures { MatchOption result (lines text.now ≡ [])
        (λ p. (lines text.now ≡ p.0.now ∷ lines p.1.now) × (length p.0.now + length p.1.now ≤ length text.now)
        × (length p.1.now < length text.now)) }
{
    if text.is_empty() {
        return None;
    }
    match text.iter().position(|b| *b == b'\n') {
        Some(n) => Some((&text[..n], &text[n + 1..])),
        None => Some((text, &[])),
    }
}

// How many lines there are, all of them good; or the first bad one.
fn check(text: &[u8]) -> Result<usize, NotAssembled>
    ensures { result ≡ passes.checked text.now }
{
    let mut n = 0;
    let mut left = text;
    while let Some((line, behind)) = first_line(left) {
        if let Err(wrong) = line::read(line) {
            return Err(NotAssembled {
                refusal: wrong.refusal,
                line: n + 1,
                column: wrong.place + 1,
            });
        }
        n += 1;
        left = behind;
    }
    Ok(n)
}

// The word of a good line.
fn word(s: &[u8]) -> u64
    ensures { result ≡ passes.word_of (line_of s.now) }
{
    line::read(s).map_or(0, |(word, _)| word)
}

// A word's bytes at a place.
fn put_word(out: &mut [u8], to: usize, w: u64)
    requires { to + 4 ≤ length out.old }
    ensures { out.new ≡ over to (bytes_of_word w []) out.old }
{
    out[to..to + 4].copy_from_slice(&w.to_le_bytes()[..4]);
}

// The words of good lines, where there is room.
fn write(text: &[u8], out: &mut [u8], lines: usize) -> AssembleAnswer
    requires { passes.checked text.now ≡ Ok lines }
    ensures { AssemblePromise text.now out.old result out.new }
{
    if out.len() / 4 < lines {
        return Err(NotAssembled {
            refusal: Refusal::Room,
            line: 0,
            column: 0,
        });
    }
    let mut n = 0;
    let mut left = text;
    while let Some((line, behind)) = first_line(left) {
        put_word(out, 4 * n, word(line));
        n += 1;
        left = behind;
    }
    Ok(4 * lines)
}

// "assemble(text, out)": a word for each line; or the refusal of the first bad line, and its place; or for want of room.
#[tactic(auto, using(crate::proofs::Passes::refused_line_lem))]
pub fn assemble(text: &[u8], out: &mut [u8]) -> AssembleAnswer
    ensures { AssemblePromise text.now out.old result out.new }
{
    let lines = check(text)?;
    write(text, out, lines)
}
