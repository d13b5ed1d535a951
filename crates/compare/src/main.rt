// `compare IMAGE_FILE MAIN_PAGES`: a script of calls on standard input, done on both engines, which are compared after each.
#![tactic(auto)]

ghost use Rattle.std.specs.Prelude.{◌≡◌, ◌*◌, ◌≤◌, length, IfOk, OnOk, IfSome};
ghost use Rattle.std.specs.Io.KnownBytes.{Appends};
ghost use Rattle.model.specs.State.{memory as both_memories, state};
ghost use Rattle.talk.specs.Script.{lines_of, talk, talk_after};
ghost use Rattle.session.specs.Series.{Read};
ghost use Rattle.comparison.specs.Both.{Stands};
ghost use Rattle.comparison.specs.Desk.{desk};
ghost use Rattle.comparison.specs.Line.{spoken};
ghost use Rattle.comparison.specs.Begun.{begun as begins};
ghost use Rattle.comparison.specs.Compare.{closed, compare_text};

use comparison::{Standing, Stretch};
use model::Written;
use std::io;
use std::io::{Read, Write};
use text::reading;

fn fail<E: Write>(errors: &mut E, message: &[u8]) -> io::Result<()>
    ensures { OnOk result (Appends (E.contents errors.old) (E.contents errors.new) message.now) }
{
    errors.write_all(message)
}

// Each stretch is written out before the next one is done, to the script's end. What stands then is promised, and what is written.
fn go<W: Write>(
    first: Standing,
    main: &mut [u8],
    swap: &mut [u8],
    memory: &mut [u8],
    rights: &[u8],
    script: &[u8],
    out: &mut [u8],
    to: &mut W,
) -> io::Result<Standing>
    requires { Stands (state first.machine main.old swap.old) memory.old × (first.lines ≡ 0)
        × (9000 ≤ length out.old) × (length script.now ≤ 65536) }
    ensures stands { IfOk result (λ last. desk last main.new swap.new memory.new rights.now
        ≡ (talk spoken 0 (desk first main.old swap.old memory.old rights.now) (lines_of script.now)).desk) }
    ensures written { OnOk result (Appends (W.contents to.old) (W.contents to.new)
        (talk spoken 0 (desk first main.old swap.old memory.old rights.now) (lines_of script.now)).text) }
{
    let mut at = Stretch {
        standing: first,
        place: 0,
        filled: 0,
    };
    while at.place < script.len() {
        let next = comparison::speak(at, main, swap, memory, rights, script, out);
        to.write_all(&out[..next.filled])?;
        at = next;
    }
    Ok(at.standing)
}

// The slices lent are as long as the image and MAIN_PAGES ask for. What is written is what the beginning says, the answer to each line
// and `same LINES`, where no line has ended it.
fn compare<W: Write>(
    file: &[u8],
    written: Written,
    main: &mut [u8],
    swap: &mut [u8],
    memory: &mut [u8],
    rights: &mut [u8],
    script: &[u8],
    out: &mut [u8],
    to: &mut W,
) -> io::Result<()>
    requires { Read file.now written × (length memory.old ≡ 4096 * written.ptl) × (9000 ≤ length out.old) × (length script.now ≤ 65536) }
    ensures { OnOk result (Appends (W.contents to.old) (W.contents to.new)
        (closed (talk_after spoken (begins file.now (both_memories main.old swap.old) memory.old rights.old) script.now))) }
{
    let begun = comparison::begin(file, written, main, swap, memory, rights, out);
    to.write_all(&out[..begun.filled])?;
    if begun.standing.goes_on {
        let last = go(begun.standing, main, swap, memory, rights, script, out, to)?;
        let end = comparison::close(last, out);
        to.write_all(&out[..end])?;
    }
    Ok(())
}

// The script is read whole before anything is written; a byte more than it may have tells that it is too long.
fn with_file<R: Read, W: Write, E: Write>(
    file: &[u8],
    pages: u32,
    from: &mut R,
    to: &mut W,
    errors: &mut E,
) -> io::Result<()>
    ensures { OnOk result (IfSome (R.remaining from.old) (λ script. length script ≤ 65536
        → Appends (W.contents to.old) (W.contents to.new) (compare_text file.now pages script))) }
{
    let mut script = [0; 65537];
    let count = files::read_full(from, &mut script)?;
    if 65536 < count {
        return fail(errors, b"compare: the script is longer than 65536 bytes\n");
    }
    let mut out = [0; 65536];
    match comparison::admit(file, pages) {
        Err(refusal) => {
            let filled = comparison::turned_away(refusal, &mut out);
            to.write_all(&out[..filled])
        }
        Ok(written) => {
            let mut main = [0; 262144];
            let mut swap = [0; 262144];
            let mut memory = [0; 262144];
            let mut rights = [0; 64];
            let a = 4096 * (pages as usize);
            let n = written.ptl as usize;
            let s = 4096 * n;
            compare(
                file,
                written,
                &mut main[..a],
                &mut swap[..s],
                &mut memory[..s],
                &mut rights[..n],
                &script[..count],
                &mut out,
                to,
            )
        }
    }
}

// A byte more than an image may have is read, so that a longer file is known.
fn with_descriptor<F: Read, R: Read, W: Write, E: Write>(
    file: &mut F,
    pages: u32,
    from: &mut R,
    to: &mut W,
    errors: &mut E,
) -> io::Result<()> {
    let mut bytes = [0; 263257];
    let first = match file.read(&mut bytes) {
        Ok(first) => first,
        Err(error) => return files::fail(errors, b"compare: the image", error),
    };
    let count = files::read_on(file, &mut bytes, first)?;
    with_file(&bytes[..count], pages, from, to, errors)
}

fn main(rt: HostRuntime) -> io::Result<()> {
    let mut errors = rt.stderr();
    let mut name = [0; 4096];
    let mut word = [0; 4096];
    if !files::has_argument(&rt, 2) || files::has_argument(&rt, 3) {
        return fail(
            &mut errors,
            b"usage: compare IMAGE_FILE MAIN_PAGES < SCRIPT\n",
        );
    }
    let digits = files::argument(&rt, 2, &mut word);
    let pages = match reading::number_at(&word[..digits], 0, u32::MAX) {
        Ok(n) if n.next == digits => n.value,
        _ => {
            return fail(
                &mut errors,
                b"compare: MAIN_PAGES is a decimal number below 2^32\n",
            );
        }
    };
    let length = files::argument(&rt, 1, &mut name);
    match files::open_read(&rt, &name[..length]) {
        Ok(mut file) => with_descriptor(
            &mut file,
            pages,
            &mut rt.stdin(),
            &mut rt.stdout(),
            &mut errors,
        ),
        Err(error) => files::fail(&mut errors, b"compare: the image", error),
    }
}
