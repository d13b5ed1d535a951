// Loading into the plain engine: a fresh machine of a console image, in a lent memory with a rights byte for each of its pages.
#![tactic(auto)]

ghost use Rattle.plainmodel.specs.Promises.{LoadPromise};

use model::Refusal;
use plainmodel::PlainHanded;

pub mod fresh;

// Refused 5 and 6 by the image, then 7 by a lent length; then memory and rights are filled. The frames have no say here.
pub fn load(file: &[u8], memory: &mut [u8], rights: &mut [u8]) -> PlainHanded
    ensures { LoadPromise file.now memory.old rights.old result memory.new rights.new }
{
    match image::read(file) {
        Err(refusal) => fresh::refused(refusal),
        Ok(written) => {
            if !fresh::room(written.ptl, memory.len(), rights.len()) {
                return fresh::refused(Refusal::Room);
            }
            loading::memory::fill_pages(image::pages(file), written.ptl, memory);
            words::copy(image::rights(file), rights);
            PlainHanded {
                plain: fresh::plain(written),
                verdict: Ok(()),
            }
        }
    }
}
