// Loading: a fresh machine of a console image, in lent memories; and how much of main memory it needs.
#![tactic(auto)]

ghost use Rattle.model.specs.State.{memory};
ghost use Rattle.model.specs.Promises.{LeastMainPagesPromise, LoadPromise};

use model::{Handed, Refusal};

pub mod fresh;
pub mod memory;

// How many main pages an image with these frames needs at least: the table's and the frames'. 0 where no image has them.
pub fn least_main_pages(frames: u32) -> u32
    ensures { LeastMainPagesPromise frames result }
{
    if !image::format::frames_right(frames) {
        return 0;
    }
    1 + fresh::meant(frames)
}

// Refused 5 and 6 by the image, then 7 by the lent memories; then both memories are filled.
pub fn load(file: &[u8], main: &mut [u8], swap: &mut [u8]) -> Handed
    ensures { LoadPromise file.now (memory main.old swap.old) result main.new swap.new }
{
    match image::read(file) {
        Err(refusal) => fresh::refused(refusal),
        Ok(written) => {
            if !fresh::room(written.frames, written.ptl, main.len(), swap.len()) {
                return fresh::refused(Refusal::Room);
            }
            let machine = fresh::machine(main.len(), written);
            memory::fill_main(image::rights(file), main);
            memory::fill_pages(image::pages(file), written.ptl, swap);
            Handed {
                machine,
                verdict: Ok(()),
            }
        }
    }
}
