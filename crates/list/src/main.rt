// The makers' lister: words on standard input, their text on standard output. One byte more than the words may have is read, so that a
// longer input is known. A refusal is said on standard error, by which the front door knows it: refused words are no failure of the program.
#![tactic(auto)]

ghost use Rattle.std.specs.Prelude.{IfSome, OnOk, replicate, take};
ghost use Rattle.std.specs.Io.KnownBytes.{Appends};
ghost use Rattle.workshop.specs.Programs.{list_work};

use std::io;
use std::io::{Read, Write};

fn list<R: Read, W: Write, E: Write>(from: &mut R, to: &mut W, errors: &mut E) -> io::Result<()>
    ensures written { OnOk result (IfSome (R.remaining from.old) (λ words. Appends (W.contents to.old) (W.contents to.new)
        (take (list_work words (replicate 294912 0)).length (list_work words (replicate 294912 0)).out))) }
    ensures said { OnOk result (IfSome (R.remaining from.old) (λ words. Appends (E.contents errors.old) (E.contents errors.new)
        (list_work words (replicate 294912 0)).line)) }
{
    let mut input = [0; 65537];
    let length = files::read_full(from, &mut input)?;
    let mut out = [0; 294912];
    let mut said = [0; 64];
    let made = workshop::list(&input[..length], &mut out, &mut said);
    let written = made.written;
    let spoken = made.said;
    to.write_all(&out[..written])?;
    errors.write_all(&said[..spoken])
}

fn main(rt: HostRuntime) -> io::Result<()> {
    list(&mut rt.stdin(), &mut rt.stdout(), &mut rt.stderr())
}
