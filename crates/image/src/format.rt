// The format's tests: refusals 5 and 6, in this order.
ghost use Rattle.std.specs.Prelude.{◌≡◌};
ghost use Rattle.model.specs.Image.{frames_right, well_formed};
ghost use Rattle.image.specs.Trailer.{trailer_of};
ghost use Rattle.image.specs.Format as format;

use crate::trailer::Trailer;
use crate::{sections, trailer};
use model::{ImageAnswer, Refusal, Written};

// "With ptl 1 to 1024, the distances must be 24+ptl and 24+ptl+4096·ptl and lie within the file. At most 1024 bytes may stand
// before the pages." Nothing is multiplied before ptl is tested.
fn distances_right(t: Trailer, length: usize) -> bool
    ensures { result ≡ format.distances_right t length }
{
    if t.ptl < 1 {
        return false;
    }
    if 1024 < t.ptl {
        return false;
    }
    let pages = t.pages as usize;
    (t.rights == 24 + t.ptl)
        & (t.pages == 24 + t.ptl + 4096 * t.ptl)
        & (pages <= length)
        & (length <= pages + 1024)
}

// "Rights: one byte a page, 1 read, 2 write, 3 both, 0 none": of an image, and of the rights that a host lends the plain engine. No byte
// ends the loop early, so that it looks at many at once.
pub fn rights_right(rights: &[u8]) -> bool
    ensures { result ≡ format.rights_right rights.now }
{
    let mut right = true;
    for &byte in rights {
        right = right & (byte <= 3);
    }
    right
}

// "Frames is 2 to 32, or 0": of an image, and of the frames that a host asks loading about.
pub fn frames_right(frames: u32) -> bool
    ensures { result ≡ frames_right frames }
{
    if frames == 0 {
        return true;
    }
    (2 <= frames) & (frames <= 32)
}

fn well_formed(file: &[u8], t: Trailer) -> bool
    requires { t ≡ trailer_of file.now }
    ensures { result ≡ well_formed file.now }
{
    if !distances_right(t, file.len()) {
        return false;
    }
    if !rights_right(sections::rights_of(file, t.ptl)) {
        return false;
    }
    if t.start % 4 != 0 {
        return false;
    }
    frames_right(t.frames)
}

// The reader's answer. Nothing is read before the length is tested.
pub(crate) fn answer(file: &[u8]) -> ImageAnswer
    ensures { result ≡ format.answer_of file.now }
{
    if file.len() < 24 {
        return Err(Refusal::Edition);
    }
    let t = trailer::numbers(file);
    if t.edition != 1 {
        return Err(Refusal::Edition);
    }
    if !well_formed(file, t) {
        return Err(Refusal::Format);
    }
    Ok(Written {
        ptl: t.ptl,
        start: t.start,
        frames: t.frames,
    })
}
