// `series IMAGE_FILE MAIN_PAGES`: a script of calls on standard input, done on a machine that the image is loaded into.
#![tactic(auto)]

ghost use Rattle.std.specs.Prelude.{◌≡◌, ◌≤◌, length, IfOk, IfSome, OnOk};
ghost use Rattle.std.specs.Io.KnownBytes.{Appends};
ghost use Rattle.talk.specs.Script.{lines_of, talk};
ghost use Rattle.session.specs.Desk.{desk, spoken};
ghost use Rattle.session.specs.Ready.{Lent, Room};
ghost use Rattle.session.specs.Series.{series_talk};

use session::{Standing, Stretch};
use std::io;
use std::io::{Read, Write};
use text::reading;

fn fail<E: Write>(errors: &mut E, message: &[u8]) -> io::Result<()>
    ensures { OnOk result (Appends (E.contents errors.old) (E.contents errors.new) message.now) }
{
    errors.write_all(message)
}

// Each stretch is written out before the next one is done, to the script's end. What stands then is promised, and what is written.
fn go<W: Write>(
    first: Standing,
    main: &mut [u8],
    swap: &mut [u8],
    script: &[u8],
    out: &mut [u8],
    to: &mut W,
) -> io::Result<Standing>
    requires { Room main.old swap.old out.old × Lent first × (length script.now ≤ 65536) }
    ensures stands { IfOk result (λ last. desk last main.new swap.new
        ≡ (talk spoken 0 (desk first main.old swap.old) (lines_of script.now)).desk) }
    ensures written { OnOk result (Appends (W.contents to.old) (W.contents to.new)
        (talk spoken 0 (desk first main.old swap.old) (lines_of script.now)).text) }
{
    let mut at = Stretch {
        standing: first,
        number: 0,
        place: 0,
        filled: 0,
    };
    while at.place < script.len() {
        let next = session::speak(at, main, swap, script, out);
        to.write_all(&out[..next.filled])?;
        at = next;
    }
    Ok(at.standing)
}

// The script is read whole before anything is written; a byte more than it may have tells that it is too long.
fn with_file<R: Read, W: Write, E: Write>(
    file: &[u8],
    pages: u32,
    from: &mut R,
    to: &mut W,
    errors: &mut E,
) -> io::Result<()>
    ensures { OnOk result (IfSome (R.remaining from.old) (λ script. length script ≤ 65536
        → Appends (W.contents to.old) (W.contents to.new) (series_talk file.now pages script).text)) }
{
    let mut script = [0; 65537];
    let count = files::read_full(from, &mut script)?;
    if 65536 < count {
        return fail(errors, b"series: the script is longer than 65536 bytes\n");
    }
    let mut main = [0; 262144];
    let mut swap = [0; 327680];
    let mut out = [0; 65536];
    let begun = session::begin(file, pages, &mut main, &mut swap, &mut out);
    to.write_all(&out[..begun.filled])?;
    if begun.goes_on {
        go(
            begun.standing,
            &mut main,
            &mut swap,
            &script[..count],
            &mut out,
            to,
        )?;
    }
    Ok(())
}

// A byte more than an image may have is read, so that a longer file is known.
fn with_descriptor<F: Read, R: Read, W: Write, E: Write>(
    file: &mut F,
    pages: u32,
    from: &mut R,
    to: &mut W,
    errors: &mut E,
) -> io::Result<()> {
    let mut bytes = [0; 263257];
    let first = match file.read(&mut bytes) {
        Ok(first) => first,
        Err(error) => return files::fail(errors, b"series: the image", error),
    };
    let count = files::read_on(file, &mut bytes, first)?;
    with_file(&bytes[..count], pages, from, to, errors)
}

fn main(rt: HostRuntime) -> io::Result<()> {
    let mut errors = rt.stderr();
    let mut name = [0; 4096];
    let mut word = [0; 4096];
    if !files::has_argument(&rt, 2) || files::has_argument(&rt, 3) {
        return fail(
            &mut errors,
            b"usage: series IMAGE_FILE MAIN_PAGES < SCRIPT\n",
        );
    }
    let digits = files::argument(&rt, 2, &mut word);
    let pages = match reading::number_at(&word[..digits], 0, u32::MAX) {
        Ok(n) if n.next == digits => n.value,
        _ => {
            return fail(
                &mut errors,
                b"series: MAIN_PAGES is a decimal number below 2^32\n",
            );
        }
    };
    let length = files::argument(&rt, 1, &mut name);
    match files::open_read(&rt, &name[..length]) {
        Ok(mut file) => with_descriptor(
            &mut file,
            pages,
            &mut rt.stdin(),
            &mut rt.stdout(),
            &mut errors,
        ),
        Err(error) => files::fail(&mut errors, b"series: the image", error),
    }
}
