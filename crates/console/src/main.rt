// The small program: standard input to standard output. One byte more than an image may have is read, so that a longer input is known.
#![tactic(auto)]

ghost use Rattle.std.specs.Prelude.{◌<◌, length, IfSome, OnOk};
ghost use Rattle.std.specs.Io.KnownBytes.{Appends};
ghost use Rattle.model.specs.Console.{console_text};

use std::io;
use std::io::{Read, Write};

// What is written is the text for the image that the input has, or for its first 17,437 bytes, which are too many.
fn console<R: Read, W: Write>(from: &mut R, to: &mut W) -> io::Result<()>
    ensures { OnOk result (IfSome (R.remaining from.old) (λ image.
        Appends (W.contents to.old) (W.contents to.new) (console_text image))) }
{
    let mut input = [0; 17437];
    let length = files::read_full(from, &mut input)?;
    let mut main = [0; 20480];
    let mut swap = [0; 16384];
    let mut out = [0; 128];
    let written = program::console(&input[..length], &mut main, &mut swap, &mut out);
    to.write_all(&out[..written])
}

fn main(rt: HostRuntime) -> io::Result<()> {
    console(&mut rt.stdin(), &mut rt.stdout())
}
