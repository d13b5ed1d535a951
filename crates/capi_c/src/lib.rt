// The calls of the crate `capi` for hosts in C and Rust, as the archive exports them: brenwythal.h says what each does. An archive
// exports what its own crate defines under C's names, so each call stands here again, with its promise.
#![tactic(auto)]

ghost use Rattle.model.specs.Promises.{LeastMainPagesPromise};
ghost use Rattle.imagewords.specs.Image.{ImagePromise};
ghost use Rattle.capi.specs.Promises as promises;

// Loads a console image into lent memories and writes the record of a fresh machine.
#[unsafe(no_mangle)]
pub extern "C" fn brenwythal_load(
    file: &[u8],
    main: &mut [u8],
    swap: &mut [u8],
    words: &mut [u32],
) -> u32
    ensures { promises.LoadPromise file.now main.old swap.old words.old
        (record { returned = result; words = words.new; main = main.new; swap = swap.new }) }
{
    capi::brenwythal_load(file, main, swap, words)
}

// Runs at most `limit` instructions. The answer: stop, detail, finished, loads, copied.
#[unsafe(no_mangle)]
pub extern "C" fn brenwythal_run(
    words: &mut [u32],
    main: &mut [u8],
    swap: &mut [u8],
    limit: u32,
    answer: &mut [u32],
) -> u32
    ensures { promises.RunPromise words.old main.old swap.old limit answer.old
        (record { returned = result; words = words.new; main = main.new; swap = swap.new; answer = answer.new }) }
{
    capi::brenwythal_run(words, main, swap, limit, answer)
}

// "Host read fills a lent buffer".
#[unsafe(no_mangle)]
pub extern "C" fn brenwythal_read(
    words: &[u32],
    main: &[u8],
    swap: &[u8],
    va: u32,
    into: &mut [u8],
) -> u32
    ensures { promises.ReadPromise words.now main.now swap.now va into.old
        (record { returned = result; buffer = into.new }) }
{
    capi::brenwythal_read(words, main, swap, va, into)
}

// "host write takes one".
#[unsafe(no_mangle)]
pub extern "C" fn brenwythal_write(
    words: &mut [u32],
    main: &mut [u8],
    swap: &mut [u8],
    va: u32,
    from: &[u8],
) -> u32
    ensures { promises.WritePromise words.old main.old swap.old va from.now
        (record { returned = result; words = words.new; main = main.new; swap = swap.new }) }
{
    capi::brenwythal_write(words, main, swap, va, from)
}

// The page view, copied into a buffer of 4096 bytes. The verdict is asked for by name only where the part is empty.
#[unsafe(no_mangle)]
pub extern "C" fn brenwythal_view<'a>(
    words: &[u32],
    main: &'a [u8],
    swap: &'a [u8],
    page: u32,
    into: &mut [u8],
) -> u32
    ensures { promises.ViewPromise words.now main.now swap.now page into.old
        (record { returned = result; buffer = into.new }) }
{
    capi::brenwythal_view(words, main, swap, page, into)
}

// "Reply sets one of GPR 1 to 31."
#[unsafe(no_mangle)]
pub extern "C" fn brenwythal_reply(words: &mut [u32], register: u32, value: u32) -> u32
    ensures { promises.ReplyPromise words.old register value (record { returned = result; words = words.new }) }
{
    capi::brenwythal_reply(words, register, value)
}

// Reads a console image. The answer: "ptl, start and frames as written".
#[unsafe(no_mangle)]
pub extern "C" fn brenwythal_image(file: &[u8], answer: &mut [u32]) -> u32
    ensures { ImagePromise file.now answer.old (record { returned = result; answer = answer.new }) }
{
    capi::brenwythal_image(file, answer)
}

// How many main pages an image with these frames needs at least; 0 where no image has them. It returns that number itself: nothing is
// lent, and nothing can be refused.
#[unsafe(no_mangle)]
pub extern "C" fn brenwythal_least_main_pages(frames: u32) -> u32
    ensures { LeastMainPagesPromise frames result }
{
    capi::brenwythal_least_main_pages(frames)
}

// Assembles a maker's text into `out`. The answer: the bytes that the words take, and the line and the column of a bad line.
#[unsafe(no_mangle)]
pub extern "C" fn brenwythal_assemble(text: &[u8], out: &mut [u8], answer: &mut [usize]) -> u32
    ensures { promises.AssemblePromise text.now out.old answer.old
        (record { returned = result; out = out.new; answer = answer.new }) }
{
    capi::brenwythal_assemble(text, out, answer)
}

// Lists words into `out`. The answer: the bytes that the text takes.
#[unsafe(no_mangle)]
pub extern "C" fn brenwythal_list(bytes: &[u8], out: &mut [u8], answer: &mut [usize]) -> u32
    ensures { promises.ListPromise bytes.now out.old answer.old
        (record { returned = result; out = out.new; answer = answer.new }) }
{
    capi::brenwythal_list(bytes, out, answer)
}
