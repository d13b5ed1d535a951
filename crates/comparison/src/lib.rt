// A session of `compare`: the image is loaded into both machines, then every line of the script is done on both, and they are compared.
// What is said goes into a lent buffer, a stretch at a time; the program writes it out.
#![tactic(auto)]

mod agree;
mod asked;
mod paged;
mod step;

ghost use Rattle.std.specs.Prelude.{◌≡◌, true, ◌*◌, ◌≤◌, length};
ghost use Rattle.model.specs.State as states;
ghost use Rattle.model.specs.Answers.{refusal_number, image_numbers};
ghost use Rattle.model.specs.Console.{refused_line};
ghost use Rattle.text.specs.Text.{Appended};
ghost use Rattle.session.specs.Series.{Read};
ghost use Rattle.comparison.specs.Both.{Stands};
ghost use Rattle.comparison.specs.Desk.{desk};
ghost use Rattle.comparison.specs.Begun.{admitted};
ghost use Rattle.comparison.specs.Script.{reached, Goes};
ghost use Rattle.comparison.specs.Compare.{closing};
ghost use Rattle.comparison.specs.Promises.{BeginPromise};

use answers::refusal_number;
use model::{ImageAnswer, Machine, Refusal, Written};
use plainmodel::Plain;
use text::lines::refused_line;

// What stands between two lines: the two records, how many lines are done, and whether the script goes on.
#[derive(Clone, Copy)]
pub struct Standing {
    pub machine: Machine,
    pub plain: Plain,
    pub lines: u32,
    pub goes_on: bool,
}

// What a line leaves: what stands after it, and the place behind its answer.
#[derive(Clone, Copy)]
pub struct Told {
    pub standing: Standing,
    pub filled: usize,
}

// What a stretch of the script leaves: what stands after it, where the next line begins, and the bytes said.
#[derive(Clone, Copy)]
pub struct Stretch {
    pub standing: Standing,
    pub place: usize,
    pub filled: usize,
}

// "A file longer than 263,256 bytes: `refused 7` by its length alone; MAIN_PAGES above 64: `refused 7` after 5 and 6".
pub fn admit(file: &[u8], pages: u32) -> ImageAnswer
    ensures { image_numbers result ≡ admitted file.now pages }
{
    if 263256 < file.len() {
        return Err(Refusal::Room);
    }
    let written = image::read(file)?;
    if 64 < pages {
        return Err(Refusal::Room);
    }
    Ok(written)
}

// `refused N`, and no line of the script is done.
pub fn turned_away(refusal: Refusal, out: &mut [u8]) -> usize
    requires { 19 ≤ length out.old }
    ensures { Appended out.old 0 out.new result (refused_line (refusal_number refusal)) }
{
    refused_line(out, 0, refusal_number(refusal))
}

// The image is loaded into both machines. Only paged loading may refuse it, by its main pages.
pub fn begin(
    file: &[u8],
    written: Written,
    main: &mut [u8],
    swap: &mut [u8],
    memory: &mut [u8],
    rights: &mut [u8],
    out: &mut [u8],
) -> Told
    requires { Read file.now written × (length memory.old ≡ 4096 * written.ptl) × (9000 ≤ length out.old) }
    ensures begin_promise { BeginPromise file.now main.old swap.old memory.old rights.old
        out.old result main.new swap.new memory.new rights.new out.new }
    ensures stands { (result.standing.goes_on ≡ true → Stands (states.state result.standing.machine main.new swap.new) memory.new)
        × (result.standing.lines ≡ 0) }
{
    let handed = loading::load(file, main, swap);
    let loaded = plainloading::load(file, memory, rights);
    match handed.verdict {
        Err(refusal) => {
            let filled = turned_away(refusal, out);
            step::told(handed.machine, loaded.plain, 0, false, filled)
        }
        Ok(()) => {
            let numbers = [written.start, written.frames];
            let filled = answerlines::numbers_line(out, 0, b"loaded", &[written.ptl], &numbers);
            step::told(handed.machine, loaded.plain, 0, true, filled)
        }
    }
}

// The lines from a place on, while there is room for an answer: to the script's end or to the first that ends it. The last line may lack
// its newline.
pub fn speak(
    from: Stretch,
    main: &mut [u8],
    swap: &mut [u8],
    memory: &mut [u8],
    rights: &[u8],
    script: &[u8],
    out: &mut [u8],
) -> Stretch
    requires { Stands (states.state from.standing.machine main.old swap.old) memory.old × (9000 ≤ length out.old)
        × (length script.now ≤ 65536) × (from.standing.lines ≤ from.place) }
    ensures stands { Stands (states.state result.standing.machine main.new swap.new) memory.new
        × (result.standing.lines ≤ result.place) }
    ensures goes { Goes script.now out.old
        (reached (desk from.standing main.old swap.old memory.old rights.now) from.place) out.new
        (reached (desk result.standing main.new swap.new memory.new rights.now) result.place) result.filled }
{
    let mut at = from.standing;
    let mut place = from.place;
    let mut filled = 0;
    while (place < script.len()) & (9000 <= out.len() - filled) {
        let end = text::scan::find(script, place, script.len(), 10);
        let number = at.lines + 1;
        let told = step::step(
            at,
            main,
            swap,
            memory,
            rights,
            &script[place..end],
            number,
            out,
            filled,
        );
        at = told.standing;
        filled = told.filled;
        place = if at.goes_on { end + 1 } else { script.len() };
    }
    Stretch {
        standing: at,
        place,
        filled,
    }
}

// At the script's end `same LINES`, where no line has ended it.
pub fn close(at: Standing, out: &mut [u8]) -> usize
    requires { 9000 ≤ length out.old }
    ensures { Appended out.old 0 out.new result (closing at.goes_on at.lines) }
{
    if !at.goes_on {
        return 0;
    }
    answerlines::numbers_line(out, 0, b"same", &[at.lines], &[])
}
