// What the programs share: a reader is read into a buffer, an argument names the file to open, and a failure is said with its reason.
#![tactic(auto)]

ghost use Rattle.std.specs.Prelude.{◌≡◌, ◌≤◌, ◌<◌, length, take, drop, IfOk, OnOk};
ghost use Rattle.std.specs.Io.{ReadsAtMost};
ghost use Rattle.std.specs.Io.KnownBytes.{Consumes, IsAtEnd};
ghost use Rattle.files.specs.Said.{SaysWhy};

use std::env::{Env, FillError};
use std::fs::{File, Files};
use std::io::{Cursor, ErrorKind, Read, Write};
use std::{io, str};

// Reads until the buffer is full or the input ends.
pub fn read_full<R: Read>(reader: &mut R, bytes: &mut [u8]) -> io::Result<usize>
    ensures in_bounds { ReadsAtMost result bytes.new }
    ensures read { IfOk result (λ n. Consumes (R.remaining reader.old) (R.remaining reader.new) (take n bytes.new)) }
    ensures ended { IfOk result (λ n. n < length bytes.new → IsAtEnd (R.remaining reader.new)) }
{
    read_on(reader, bytes, 0)
}

// The bytes behind the first ones, which are read already: all that are read now. A turn takes what the reader gives: no `for` counts it.
pub fn read_on<R: Read>(reader: &mut R, bytes: &mut [u8], first: usize) -> io::Result<usize>
    requires { first ≤ length bytes.old }
    ensures in_bounds { ReadsAtMost result bytes.new }
    ensures on { IfOk result (λ n. first ≤ n) }
    ensures kept { take first bytes.new ≡ take first bytes.old }
    ensures read { IfOk result (λ n. Consumes (R.remaining reader.old) (R.remaining reader.new) (drop first (take n bytes.new))) }
    ensures ended { IfOk result (λ n. n < length bytes.new → IsAtEnd (R.remaining reader.new)) }
{
    let mut done = first;
    while done < bytes.len() {
        let more = reader.read(&mut bytes[done..])?;
        if more == 0 {
            return Ok(done);
        }
        done += more;
    }
    Ok(done)
}

// Whether the program was started with an argument i; its own name is argument 0.
pub fn has_argument<E: Env>(env: &E, i: usize) -> bool {
    match env.arg(i, &mut []) {
        Err(FillError::NotPresent) => false,
        _ => true,
    }
}

// Puts argument i at the start of the buffer and gives its length, or 0 where it is missing or longer than the buffer.
pub fn argument<E: Env>(env: &E, i: usize, bytes: &mut [u8]) -> usize
    ensures { result ≤ length bytes.new }
{
    match env.arg(i, bytes) {
        Ok(length) => length,
        Err(_) => 0,
    }
}

// Opens the file of that name for reading. The names of std's files are text.
pub fn open_read<R: Files>(rt: &R, name: &[u8]) -> io::Result<R::File> {
    match str::from_utf8(name) {
        Ok(name) => File::open(rt, name),
        Err(_) => Err(io::Error::new(ErrorKind::InvalidInput, "its name is not text in UTF-8")),
    }
}

// Says on a line what failed, and the system's reason.
pub fn fail<W: Write>(to: &mut W, what: &[u8], error: io::Error) -> io::Result<()>
    ensures { OnOk result (SaysWhy (W.contents to.old) (W.contents to.new) what.now) }
{
    let mut text = Cursor::new([0u8; 320]);
    write!(text, "{error}")?;
    let end = text.position() as usize;
    let bytes = text.into_inner();
    to.write_all(what)?;
    to.write_all(b": ")?;
    to.write_all(reason(&bytes[..end.min(320)]))?;
    to.write_all(b"\n")
}

// An error of the system's, as std prints it, without its number.
fn reason(text: &[u8]) -> &[u8] {
    match str::from_utf8(text) {
        Ok(all) => match all.split_once(" (os error ") {
            Some((reason, _)) => reason.as_bytes(),
            None => text,
        },
        Err(_) => text,
    }
}
