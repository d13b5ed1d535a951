// `plain IMAGE_FILE`: a script of calls on standard input, done on the plain engine that the image is loaded into.
#![tactic(auto)]

ghost use Rattle.std.specs.Prelude.{◌≡◌, ◌≤◌, length, IfOk, OnOk, IfSome};
ghost use Rattle.std.specs.Io.KnownBytes.{Appends};
ghost use Rattle.talk.specs.Script.{lines_of, talk};
ghost use Rattle.plainsession.specs.Desk.{desk, spoken};
ghost use Rattle.plainsession.specs.Ready.{Lent, Room};
ghost use Rattle.plainsession.specs.Series.{plain_talk};

use plainsession::{Standing, Stretch};
use std::io;
use std::io::{Read, Write};

fn fail<E: Write>(errors: &mut E, message: &[u8]) -> io::Result<()>
    ensures { OnOk result (Appends (E.contents errors.old) (E.contents errors.new) message.now) }
{
    errors.write_all(message)
}

// Each stretch is written out before the next one is done, to the script's end. What stands then is promised, and what is written.
fn go<W: Write>(
    first: Standing,
    memory: &mut [u8],
    rights: &mut [u8],
    script: &[u8],
    out: &mut [u8],
    to: &mut W,
) -> io::Result<Standing>
    requires { Room memory.old rights.old out.old × Lent first × (length script.now ≤ 65536) }
    ensures stands { IfOk result (λ last. desk last memory.new rights.new
        ≡ (talk spoken 0 (desk first memory.old rights.old) (lines_of script.now)).desk) }
    ensures written { OnOk result (Appends (W.contents to.old) (W.contents to.new)
        (talk spoken 0 (desk first memory.old rights.old) (lines_of script.now)).text) }
{
    let mut at = Stretch {
        standing: first,
        number: 0,
        place: 0,
        filled: 0,
    };
    while at.place < script.len() {
        let next = plainsession::speak(at, memory, rights, script, out);
        to.write_all(&out[..next.filled])?;
        at = next;
    }
    Ok(at.standing)
}

// The script is read whole before anything is written; a byte more than it may have tells that it is too long.
fn with_file<R: Read, W: Write, E: Write>(
    file: &[u8],
    from: &mut R,
    to: &mut W,
    errors: &mut E,
) -> io::Result<()>
    ensures { OnOk result (IfSome (R.remaining from.old) (λ script. length script ≤ 65536
        → Appends (W.contents to.old) (W.contents to.new) (plain_talk file.now script).text)) }
{
    let mut script = [0; 65537];
    let count = files::read_full(from, &mut script)?;
    if 65536 < count {
        return fail(errors, b"plain: the script is longer than 65536 bytes\n");
    }
    let mut memory = [0; 327680];
    let mut rights = [0; 80];
    let mut out = [0; 65536];
    let begun = plainsession::begin(file, &mut memory, &mut rights, &mut out);
    to.write_all(&out[..begun.filled])?;
    if begun.goes_on {
        go(
            begun.standing,
            &mut memory,
            &mut rights,
            &script[..count],
            &mut out,
            to,
        )?;
    }
    Ok(())
}

// A byte more than an image may have is read, so that a longer file is known.
fn with_descriptor<F: Read, R: Read, W: Write, E: Write>(
    file: &mut F,
    from: &mut R,
    to: &mut W,
    errors: &mut E,
) -> io::Result<()> {
    let mut bytes = [0; 263257];
    let first = match file.read(&mut bytes) {
        Ok(first) => first,
        Err(error) => return files::fail(errors, b"plain: the image", error),
    };
    let count = files::read_on(file, &mut bytes, first)?;
    with_file(&bytes[..count], from, to, errors)
}

fn main(rt: HostRuntime) -> io::Result<()> {
    let mut errors = rt.stderr();
    let mut name = [0; 4096];
    if !files::has_argument(&rt, 1) || files::has_argument(&rt, 2) {
        return fail(&mut errors, b"usage: plain IMAGE_FILE < SCRIPT\n");
    }
    let length = files::argument(&rt, 1, &mut name);
    match files::open_read(&rt, &name[..length]) {
        Ok(mut file) => with_descriptor(&mut file, &mut rt.stdin(), &mut rt.stdout(), &mut errors),
        Err(error) => files::fail(&mut errors, b"plain: the image", error),
    }
}
