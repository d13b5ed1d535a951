// Runs the worked values, compares each with what must come out, and prints a line for it.
#![tactic(auto)]

use model::{RunResult, Stop};
use std::io;
use std::io::Write;

fn say<W: Write>(to: &mut W, name: &[u8], right: bool) -> io::Result<()> {
    if right {
        to.write_all(b"right ")?;
    } else {
        to.write_all(b"WRONG ")?;
    }
    to.write_all(name)?;
    to.write_all(b"\n")
}

fn run_number(r: RunResult) -> u32 {
    answers::verdict_number(r.answer.map(|_| ()))
}

// The run stopped by this trap, with so many instructions finished and pages loaded.
fn trapped(r: RunResult, trap: u32, finished: u32, loads: u32) -> bool {
    match r.answer {
        Ok(ran) => {
            matches!(ran.stop, Stop::Trap(n) if n == trap)
                && ran.finished == finished
                && ran.loads == loads
        }
        Err(_) => false,
    }
}

// Puts the trailer of an image of n pages at the end of the file.
fn put_trailer(file: &mut [u8], pages: u32, start: u32, frames: u32) {
    if file.len() < 24 {
        return;
    }
    if pages > 1024 {
        return;
    }
    let at = file.len() - 24;
    words::put_number::<4>(file, at, 24 + pages);
    words::put_number::<4>(file, at + 4, 24 + pages + 4096 * pages);
    words::put_number::<4>(file, at + 8, pages);
    words::put_number::<4>(file, at + 12, start);
    words::put_number::<4>(file, at + 16, frames);
    words::put_number::<4>(file, at + 20, 1);
}

// "Image of one page, rights 3, start 0, frames 0, the three words above at 0, 4, 8."
fn small_image(frames: u32) -> [u8; 4121] {
    let mut file = [0u8; 4121];
    words::put_number::<4>(&mut file, 0, 0x24010007);
    words::put_number::<4>(&mut file, 4, 0xAC010040);
    words::put_number::<4>(&mut file, 8, 0xF8000005);
    file[4096] = 3;
    put_trailer(&mut file, 1, 0, frames);
    file
}

// A form on pages 0 and 1 with its code on page 2: it reads page 1 and traps, then page 3, then the bytes at 4095, 4096 and 4097.
fn form_image() -> [u8; 16412] {
    let mut file = [0u8; 16412];
    words::put_number::<4>(&mut file, 8192, 0x90041000);
    words::put_number::<4>(&mut file, 8196, 0xF8000001);
    words::put_number::<4>(&mut file, 8200, 0x90053000);
    words::put_number::<4>(&mut file, 8204, 0x90010FFF);
    words::put_number::<4>(&mut file, 8208, 0x90021000);
    words::put_number::<4>(&mut file, 8212, 0x90031001);
    words::put_number::<4>(&mut file, 8216, 0xF8000002);
    file[16384] = 3;
    file[16385] = 3;
    file[16386] = 1;
    file[16387] = 1;
    put_trailer(&mut file, 4, 8192, 2);
    file
}

// The small image: stop 1 5, finished 3, loads 1, dpc 12.
fn small<W: Write>(to: &mut W) -> io::Result<()> {
    let file = small_image(0);
    let mut main = [0u8; 20480];
    let mut swap = [0u8; 4096];
    let l = loading::load(&file, &mut main, &mut swap);
    say(
        to,
        b"the small image is loaded",
        answers::verdict_number(l.verdict) == 0,
    )?;
    let r = machine::run(l.machine, &mut main, &mut swap, 1000);
    let after = r.machine;
    say(
        to,
        b"the small image: stop 1 5, finished 3, loads 1, dpc 12",
        trapped(r, 5, 3, 1) && after.pcs.dpc == 12,
    )?;
    say(
        to,
        b"run 1000000 taken",
        run_number(machine::run(after, &mut main, &mut swap, 1000000)) == 0,
    )?;
    say(
        to,
        b"run 1000001 refused 4",
        run_number(machine::run(after, &mut main, &mut swap, 1000001)) == 4,
    )?;
    let mut most = [0u8; 256];
    say(
        to,
        b"transfer 256 taken",
        answers::verdict_number(machine::host_read(after, &main, &swap, 0, &mut most)) == 0,
    )?;
    let mut more = [0u8; 257];
    say(
        to,
        b"transfer 257 refused 4",
        answers::verdict_number(machine::host_read(after, &main, &swap, 0, &mut more)) == 4,
    )?;
    let z = machine::reply(after, 0, 7);
    say(
        to,
        b"register 0 refused 4",
        answers::verdict_number(z.verdict) == 4,
    )
}

// "frames 1 refused 6"
fn one_frame<W: Write>(to: &mut W) -> io::Result<()> {
    let file = small_image(1);
    let mut main = [0u8; 20480];
    let mut swap = [0u8; 4096];
    let l = loading::load(&file, &mut main, &mut swap);
    say(
        to,
        b"frames 1 refused 6",
        answers::verdict_number(l.verdict) == 6,
    )
}

// "Host write of 37 2C 35 (hex) at 4095, page 0 in swap, page 1 resident: the same bytes are read after both have moved."
fn border<W: Write>(to: &mut W) -> io::Result<()> {
    let file = form_image();
    let mut main = [0u8; 20480];
    let mut swap = [0u8; 16384];
    let l = loading::load(&file, &mut main, &mut swap);
    let first = machine::run(l.machine, &mut main, &mut swap, 1000);
    let shown = first.machine;
    let b = shown.book;
    say(
        to,
        b"page 0 in swap, page 1 resident",
        trapped(first, 1, 2, 2) && b.used == 2 && b.held[0].0 == 2 && b.held[1].0 == 1,
    )?;
    let text = [0x37u8, 0x2C, 0x35];
    let w = machine::host_write(shown, &mut main, &mut swap, 4095, &text);
    say(
        to,
        b"host write of 37 2c 35 at 4095",
        answers::verdict_number(w.verdict) == 0,
    )?;
    let second = machine::run(w.machine, &mut main, &mut swap, 1000);
    let moved = second.machine;
    let g = moved.gpr;
    say(
        to,
        b"the guest reads 37 2c 35 after both have moved",
        g[1] == 0x37 && g[2] == 0x2C && g[3] == 0x35,
    )?;
    let mut back = [0u8; 3];
    let v = machine::host_read(moved, &main, &swap, 4095, &mut back);
    say(
        to,
        b"the host reads 37 2c 35 back",
        answers::verdict_number(v) == 0 && back[0] == 0x37 && back[1] == 0x2C && back[2] == 0x35,
    )
}

fn main(rt: HostRuntime) -> io::Result<()> {
    let mut to = rt.stdout();
    small(&mut to)?;
    one_frame(&mut to)?;
    border(&mut to)
}
