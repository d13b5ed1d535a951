// The reader of console images for hosts in C and Rust: its answer as words in a lent slice. Both archives export it, each under a name
// of its own.
#![tactic(auto)]

ghost use Rattle.std.specs.Prelude.{◌≡◌, [], ◌∷◌, length};
ghost use Rattle.model.specs.Answers as numbers;
ghost use Rattle.imagewords.specs.Image.{image_words, ImagePromise};

use model::ImageAnswer;

// An answer of three numbers.
pub fn put_three<T: Copy>(answer: &mut [T], first: T, second: T, third: T)
    requires { length answer.old ≡ 3 }
    ensures { answer.new ≡ first ∷ second ∷ third ∷ [] }
{
    answer.copy_from_slice(&[first, second, third]);
}

fn put_image(answer: &mut [u32], a: ImageAnswer) -> u32
    requires { length answer.old ≡ 3 }
    ensures { (result ≡ (numbers.image_numbers a).verdict.refused) × (answer.new ≡ image_words (numbers.image_numbers a)) }
{
    match a {
        Ok(written) => {
            put_three(answer, written.ptl, written.start, written.frames);
            0
        }
        Err(r) => {
            put_three(answer, 0, 0, 0);
            answers::refusal_number(r)
        }
    }
}

// Reads a console image. The answer: "ptl, start and frames as written".
pub fn image_call(file: &[u8], answer: &mut [u32]) -> u32
    ensures { ImagePromise file.now answer.old (record { returned = result; answer = answer.new }) }
{
    if answer.len() != 3 {
        return 1;
    }
    put_image(answer, image::read(file))
}
