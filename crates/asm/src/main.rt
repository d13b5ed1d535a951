// The makers' assembler: a text on standard input, its words on standard output. One byte more than a text may have is read, so that a
// longer one is known. A refusal is said on standard error, by which the front door knows it: a refused text is no failure of the program.
#![tactic(auto)]

ghost use Rattle.std.specs.Prelude.{IfSome, OnOk, replicate, take};
ghost use Rattle.std.specs.Io.KnownBytes.{Appends};
ghost use Rattle.workshop.specs.Programs.{asm_work};

use std::io;
use std::io::{Read, Write};

fn asm<R: Read, W: Write, E: Write>(from: &mut R, to: &mut W, errors: &mut E) -> io::Result<()>
    ensures written { OnOk result (IfSome (R.remaining from.old) (λ text. Appends (W.contents to.old) (W.contents to.new)
        (take (asm_work text (replicate 65536 0)).length (asm_work text (replicate 65536 0)).out))) }
    ensures said { OnOk result (IfSome (R.remaining from.old) (λ text. Appends (E.contents errors.old) (E.contents errors.new)
        (asm_work text (replicate 65536 0)).line)) }
{
    let mut input = [0; 294913];
    let length = files::read_full(from, &mut input)?;
    let mut out = [0; 65536];
    let mut said = [0; 64];
    let made = workshop::asm(&input[..length], &mut out, &mut said);
    let written = made.written;
    let spoken = made.said;
    to.write_all(&out[..written])?;
    errors.write_all(&said[..spoken])
}

fn main(rt: HostRuntime) -> io::Result<()> {
    asm(&mut rt.stdin(), &mut rt.stdout(), &mut rt.stderr())
}
