// The programs `asm` and `list`: what each writes, to standard output and to descriptor 2, for what it reads, as a function of bytes.
#![tactic(auto)]

ghost use Rattle.std.specs.Prelude.{◌≡◌, ◌^◌, ◌≤◌, ◌<◌, length};
ghost use Rattle.model.specs.Answers.{refusal_number};
ghost use Rattle.model.specs.Console.{refused_line};
ghost use Rattle.text.specs.Text.{Appended};
ghost use Rattle.workshop.specs.Programs as programs;

use model::Refusal;
use notation::NotAssembled;

// How many bytes of the output are to be written, and how many of what is to be said on descriptor 2.
#[derive(Clone, Copy)]
pub struct Made {
    pub written: usize,
    pub said: usize,
}

// `refused N LINE COLUMN`
fn refused_at(bad: NotAssembled, said: &mut [u8]) -> Made
    requires { (64 ≤ length said.old) × (bad.line < 2 ^ 32) × (bad.column < 2 ^ 32) }
    ensures { (result.written ≡ 0)
        × Appended said.old 0 said.new result.said (programs.refused_at (refusal_number bad.refusal) bad.line bad.column) }
{
    let word = text::put(said, 0, b"refused");
    let number = text::lines::put_spaced(said, word, answers::refusal_number(bad.refusal));
    let place = text::lines::put_spaced(said, number, bad.line as u32);
    let end = text::lines::put_spaced(said, place, bad.column as u32);
    Made {
        written: 0,
        said: text::put(said, end, b"\n"),
    }
}

// A text of at most 294,912 bytes, 18 for each of 16,384 words; "a longer input is refused 7 by its length alone".
#[tactic(auto, using(crate::proofs::Works::long_none, crate::proofs::Works::long_same, crate::proofs::Works::long_said))]
pub fn asm(input: &[u8], out: &mut [u8], said: &mut [u8]) -> Made
    requires { 64 ≤ length said.old }
    ensures { programs.AsmPromise input.now out.old said.old result out.new said.new }
{
    if input.len() > 294912 {
        let long = NotAssembled {
            refusal: Refusal::Room,
            line: 0,
            column: 0,
        };
        return refused_at(long, said);
    }
    match assembler::assemble(input, out) {
        Ok(length) => Made {
            written: length,
            said: 0,
        },
        Err(bad) => refused_at(bad, said),
    }
}

// `refused N`
fn refused(refusal: Refusal, said: &mut [u8]) -> Made
    requires { 64 ≤ length said.old }
    ensures { (result.written ≡ 0)
        × Appended said.old 0 said.new result.said (refused_line (refusal_number refusal)) }
{
    Made {
        written: 0,
        said: text::lines::refused_line(said, 0, answers::refusal_number(refusal)),
    }
}

// At most 65,536 bytes, 16 pages of words.
pub fn list(input: &[u8], out: &mut [u8], said: &mut [u8]) -> Made
    requires { 64 ≤ length said.old }
    ensures { programs.ListPromise input.now out.old said.old result out.new said.new }
{
    if input.len() > 65536 {
        return refused(Refusal::Room, said);
    }
    match lister::list(input, out) {
        Ok(length) => Made {
            written: length,
            said: 0,
        },
        Err(refusal) => refused(refusal, said),
    }
}
