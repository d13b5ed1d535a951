// "The reader keeps the image at hand": the file's bytes with the answer that was read from them.
ghost use Rattle.image.specs.Hand.{KeepPromise, AnswerPromise, HandPagesPromise, HandRightsPromise};

use crate::{format, sections};
use model::ImageAnswer;

// The answer has the trailer's numbers as written, or the refusal.
#[derive(Clone, Copy)]
pub struct Image<'a> {
    pub file: &'a [u8],
    pub answer: ImageAnswer,
}

pub fn keep<'a>(file: &'a [u8]) -> Image<'a>
    ensures { KeepPromise file.entry result }
{
    Image {
        file,
        answer: format::answer(file),
    }
}

pub fn answer<'a>(i: Image<'a>) -> ImageAnswer
    ensures { AnswerPromise i.entry result }
{
    i.answer
}

// The sections, each a part of the file's own bytes, by the answer at hand: nothing is read or tested again.
pub fn pages<'a>(i: Image<'a>) -> &'a [u8]
    ensures { HandPagesPromise i.entry result }
{
    sections::pages_by_answer(i.file, i.answer)
}

pub fn rights<'a>(i: Image<'a>) -> &'a [u8]
    ensures { HandRightsPromise i.entry result }
{
    sections::rights_by_answer(i.file, i.answer)
}
