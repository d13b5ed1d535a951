// What is shown of the frame book and of the lent bytes: each puts its line into the buffer, from a place on.
ghost use Rattle.std.specs.Prelude.{◌+◌, ◌*◌, ◌≤◌, [], ◌∷◌, ◌++◌, length};
ghost use Rattle.model.specs.State.{state};
ghost use Rattle.text.specs.Text.{Appended};
ghost use Rattle.answerlines.specs.Lines.{numbers_line};
ghost use Rattle.script.specs.Vocabulary.{frames_word};
ghost use Rattle.session.specs.Answers as answers;

use answerlines::put_numbers;
use model::{FrameBook, Machine};
use script::Show;
use text::lines::put_spaced;
use text::put;

// `frames`, its first numbers, more of them, and the marks.
fn frames_line(out: &mut [u8], at: usize, first: &[u32], held: &[u32], marks: u32) -> usize
    requires { at + 11 * length first.now + 11 * length held.now + 18 ≤ length out.old }
    ensures { Appended out.old at out.new result
        (numbers_line frames_word ((first.now ++ held.now) ++ (marks ∷ []))) }
{
    let to = put(out, at, b"frames");
    let next = put_numbers(out, to, first);
    let last = put_numbers(out, next, held);
    let end = put_spaced(out, last, marks);
    put(out, end, b"\n")
}

// `frames`
fn frames(book: FrameBook, out: &mut [u8], at: usize) -> usize
    requires { at + 512 ≤ length out.old }
    ensures { Appended out.old at out.new result (answers.frames_text book) }
{
    let first = [book.used, book.hand];
    let held = book.held;
    let numbers = record::numbers_of(held);
    frames_line(out, at, &first, &numbers, book.marks)
}

pub(crate) fn show(
    s: Show,
    m: Machine,
    main: &[u8],
    swap: &[u8],
    out: &mut [u8],
    at: usize,
) -> usize
    requires { at + 512 ≤ length out.old }
    ensures { Appended out.old at out.new result (answers.show_text s (state m main.now swap.now)) }
{
    let book = m.book;
    match s {
        Show::Frames => frames(book, out, at),
        Show::Sum => answerlines::sums_line(out, at, b"sum", main, swap),
    }
}
