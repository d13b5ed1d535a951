// The lister: words to a text that assembles to them again.
#![tactic(auto)]

ghost use Rattle.std.specs.Prelude.{◌≡◌, ◌≤◌, leb, length};
ghost use Rattle.text.specs.Text.{Appended};
ghost use Rattle.notation.specs.Listing.{listing};
ghost use Rattle.notation.specs.Promises.{ListPromise};
ghost use Rattle.lister.specs.Words.{numbers};

mod word;

use model::Refusal;
use notation::ListAnswer;

// Whether the listing takes at most `room` bytes. No line takes more than 18.
#[tactic(auto, using(crate::proofs::Listings::words_over))]
fn fits(words: &[[u8; 4]], room: usize) -> bool
    ensures { result ≡ leb (length (listing (numbers words.now))) room }
{
    if words.len() <= room / 18 {
        return true;
    }
    let mut line = [0; 80];
    let mut left = room;
    for bytes in words {
        let n = word::put(&mut line, 0, u32::from_le_bytes(*bytes));
        if left <= n {
            return false;
        }
        left -= n + 1;
    }
    true
}

// The listing, from the first byte of `out` on.
fn write(words: &[[u8; 4]], out: &mut [u8]) -> usize
    requires { length (listing (numbers words.now)) ≤ length out.old }
    ensures { Appended out.old 0 out.new result (listing (numbers words.now)) }
{
    let mut to = 0;
    for bytes in words {
        to = word::put_line(out, to, u32::from_le_bytes(*bytes));
    }
    to
}

// "a lister that turns a page back into such lines": any whole number of words.
pub fn list(bytes: &[u8], out: &mut [u8]) -> ListAnswer
    ensures { ListPromise bytes.now out.old result out.new }
{
    let (words, rest) = bytes.as_chunks::<4>();
    if !rest.is_empty() {
        return Err(Refusal::Bound);
    }
    if !fits(words, out.len()) {
        return Err(Refusal::Room);
    }
    Ok(write(words, out))
}
