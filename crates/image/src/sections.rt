// The sections, each a part of the file's own bytes: both are found from the file's end, by ptl alone.
ghost use Rattle.model.specs.Parts.{PartOf};
ghost use Rattle.image.specs.Sections as sections;

use model::ImageAnswer;

// The n bytes that begin `back` bytes before the end; none where the file has no such part.
fn section(file: &[u8], back: usize, n: usize) -> &[u8]
    ensures { PartOf file.entry (sections.section file.now back n) result }
{
    if back < n {
        return &file[..0];
    }
    if file.len() < back {
        return &file[..0];
    }
    let start = file.len() - back;
    let stop = start + n;
    &file[start..stop]
}

// In 64 bits no sum goes round, whatever ptl is.
pub(crate) fn rights_of(file: &[u8], ptl: u32) -> &[u8]
    ensures { PartOf file.entry (sections.rights_by file.now ptl) result }
{
    let n = ptl as usize;
    section(file, 24 + n, n)
}

pub(crate) fn pages_of(file: &[u8], ptl: u32) -> &[u8]
    ensures { PartOf file.entry (sections.pages_by file.now ptl) result }
{
    let n = ptl as usize;
    section(file, 24 + n + 4096 * n, 4096 * n)
}

// The sections of an image that is accepted; "an empty part for each part" of one that is refused.
pub(crate) fn rights_by_answer(file: &[u8], answer: ImageAnswer) -> &[u8]
    ensures { PartOf file.entry (sections.rights_by_answer file.now answer) result }
{
    match answer {
        Ok(written) => rights_of(file, written.ptl),
        Err(_) => &file[..0],
    }
}

pub(crate) fn pages_by_answer(file: &[u8], answer: ImageAnswer) -> &[u8]
    ensures { PartOf file.entry (sections.pages_by_answer file.now answer) result }
{
    match answer {
        Ok(written) => pages_of(file, written.ptl),
        Err(_) => &file[..0],
    }
}
