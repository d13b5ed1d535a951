// Console images: the reader, which keeps the image at hand and hands out the sections as parts of the file's own bytes. Whoever calls
// these three functions of a file needs no walk.
#![tactic(auto)]

ghost use Rattle.model.specs.Promises.{ImagePromise, PagesPromise, RightsPromise};

use model::ImageAnswer;

pub mod at_hand;
pub mod format;
mod sections;
mod trailer;

// "ptl, start and frames as written"
pub fn read(file: &[u8]) -> ImageAnswer
    ensures { ImagePromise file.now result }
{
    at_hand::answer(at_hand::keep(file))
}

// The two sections, each a part of the file's own bytes; "an empty part for each part" where the image is refused.
pub fn pages(file: &[u8]) -> &[u8]
    ensures { PagesPromise file.entry result }
{
    at_hand::pages(at_hand::keep(file))
}

pub fn rights(file: &[u8]) -> &[u8]
    ensures { RightsPromise file.entry result }
{
    at_hand::rights(at_hand::keep(file))
}
