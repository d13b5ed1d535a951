// A session of `plain`: the image is loaded into the plain engine, then every line of the script is done in turn. What is said goes into a
// lent buffer, a stretch at a time; the program writes it out.
#![tactic(auto)]

pub mod calls;
mod step;
pub mod table;

ghost use Rattle.std.specs.Prelude.{◌≤◌, length};
ghost use Rattle.model.specs.Answers.{refusal_number};
ghost use Rattle.plainsession.specs.Desk.{Tells};
ghost use Rattle.plainsession.specs.Ready.{Lent, Room};
ghost use Rattle.plainsession.specs.Script.{Goes};
ghost use Rattle.plainsession.specs.Series as series;
ghost use Rattle.plainsession.specs.Promises.{BeginPromise};

use answerlines::numbers_line;
use answers::refusal_number;
use model::{Refusal, Written};
use plainmodel::Plain;
use text::lines::refused_line;

// What stands between two lines: the record, and how many bytes of each buffer are lent.
#[derive(Clone, Copy)]
pub struct Standing {
    pub plain: Plain,
    pub memory: usize,
    pub rights: usize,
}

// What a line leaves: what stands after it, the place behind its answer, and whether the script goes on.
#[derive(Clone, Copy)]
pub struct Told {
    pub standing: Standing,
    pub filled: usize,
    pub goes_on: bool,
}

// What a stretch of the script leaves: how many lines are done, where the next one begins, the bytes said.
#[derive(Clone, Copy)]
pub struct Stretch {
    pub standing: Standing,
    pub number: u32,
    pub place: usize,
    pub filled: usize,
}

// `refused N`, and no line of the script is done.
fn turned_away(refusal: Refusal, out: &mut [u8]) -> Told
    requires { 9000 ≤ length out.old }
    ensures { series.TurnedAway (refusal_number refusal) out.old out.new result }
{
    let handed = plainloading::fresh::refused(refusal);
    let filled = refused_line(out, 0, refusal_number(refusal));
    step::told(handed.plain, 0, 0, filled, false)
}

// The image is well formed and small: it is loaded into as many pages as it has.
fn load(file: &[u8], written: Written, memory: &mut [u8], rights: &mut [u8], out: &mut [u8]) -> Told
    requires { series.Read file.now written × Room memory.old rights.old out.old × (written.ptl ≤ 80) }
    ensures { Tells out.old 0 out.new result memory.new rights.new
        (series.loaded (series.lent_for file.now memory.old rights.old) file.now) }
{
    let n = written.ptl as usize;
    let a = 4096 * n;
    let handed = plainloading::load(file, &mut memory[..a], &mut rights[..n]);
    match handed.verdict {
        Err(refusal) => turned_away(refusal, out),
        Ok(()) => {
            let numbers = [written.start, written.frames];
            let filled = numbers_line(out, 0, b"loaded", &[written.ptl], &numbers);
            step::told(handed.plain, a, n, filled, true)
        }
    }
}

// "A file longer than 263,256 bytes: `refused 7` by its length alone".
pub fn begin(file: &[u8], memory: &mut [u8], rights: &mut [u8], out: &mut [u8]) -> Told
    requires { Room memory.old rights.old out.old }
    ensures begin_promise { BeginPromise file.now memory.old rights.old out.old result
        memory.new rights.new out.new }
    ensures lent { Lent result.standing }
{
    if 263256 < file.len() {
        return turned_away(Refusal::Room, out);
    }
    match image::read(file) {
        Err(refusal) => turned_away(refusal, out),
        Ok(written) => load(file, written, memory, rights, out),
    }
}

// The lines from a place on, while there is room for an answer: to the script's end or to the first that is bad. The last line may lack
// its newline.
pub fn speak(
    from: Stretch,
    memory: &mut [u8],
    rights: &mut [u8],
    script: &[u8],
    out: &mut [u8],
) -> Stretch
    requires { Room memory.old rights.old out.old × Lent from.standing × (length script.now ≤ 65536) × (from.number ≤ from.place) }
    ensures lent { Lent result.standing × (result.number ≤ result.place) }
    ensures goes { Goes out.old from memory.old rights.old script.now out.new result memory.new rights.new }
{
    let mut at = from.standing;
    let mut number = from.number;
    let mut place = from.place;
    let mut filled = 0;
    while (place < script.len()) & (9000 <= out.len() - filled) {
        let end = text::scan::find(script, place, script.len(), 10);
        number += 1;
        let told = step::step(at, memory, rights, &script[place..end], number, out, filled);
        at = told.standing;
        filled = told.filled;
        place = if told.goes_on { end + 1 } else { script.len() };
    }
    Stretch {
        standing: at,
        number,
        place,
        filled,
    }
}
