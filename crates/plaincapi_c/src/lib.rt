// The calls of the crate `plaincapi` for hosts in C and Rust, as the archive exports them: brenwythal_plain.h says what each does.
// An archive exports what its own crate defines under C's names, so each call stands here again, with its promise.
#![tactic(auto)]

ghost use Rattle.imagewords.specs.Image.{ImagePromise};
ghost use Rattle.plaincapi.specs.Promises as promises;

// Loads a console image into a lent memory and lent rights, and writes the record.
#[unsafe(no_mangle)]
pub extern "C" fn brenwythal_plain_load(
    file: &[u8],
    memory: &mut [u8],
    rights: &mut [u8],
    words: &mut [u32],
) -> u32
    ensures { promises.LoadPromise file.now memory.old rights.old words.old
        (record { returned = result; words = words.new; memory = memory.new; rights = rights.new }) }
{
    plaincapi::brenwythal_plain_load(file, memory, rights, words)
}

// Runs at most `limit` instructions. The answer: stop, detail, finished.
#[unsafe(no_mangle)]
pub extern "C" fn brenwythal_plain_run(
    words: &mut [u32],
    memory: &mut [u8],
    rights: &[u8],
    limit: u32,
    answer: &mut [u32],
) -> u32
    ensures { promises.RunPromise words.old memory.old rights.now limit answer.old
        (record { returned = result; words = words.new; memory = memory.new; answer = answer.new }) }
{
    plaincapi::brenwythal_plain_run(words, memory, rights, limit, answer)
}

// "Host read fills a lent buffer".
#[unsafe(no_mangle)]
pub extern "C" fn brenwythal_plain_read(
    words: &[u32],
    memory: &[u8],
    rights: &[u8],
    va: u32,
    into: &mut [u8],
) -> u32
    ensures { promises.ReadPromise words.now memory.now rights.now va into.old
        (record { returned = result; buffer = into.new }) }
{
    plaincapi::brenwythal_plain_read(words, memory, rights, va, into)
}

// "host write takes one".
#[unsafe(no_mangle)]
pub extern "C" fn brenwythal_plain_write(
    words: &[u32],
    memory: &mut [u8],
    rights: &[u8],
    va: u32,
    from: &[u8],
) -> u32
    ensures { promises.WritePromise words.now memory.old rights.now va from.now
        (record { returned = result; memory = memory.new }) }
{
    plaincapi::brenwythal_plain_write(words, memory, rights, va, from)
}

// The page view, copied into a buffer of 4096 bytes. The verdict is asked for by name only where the part is empty.
#[unsafe(no_mangle)]
pub extern "C" fn brenwythal_plain_view<'a>(
    words: &[u32],
    memory: &'a [u8],
    rights: &'a [u8],
    page: u32,
    into: &mut [u8],
) -> u32
    ensures { promises.ViewPromise words.now memory.now rights.now page into.old
        (record { returned = result; buffer = into.new }) }
{
    plaincapi::brenwythal_plain_view(words, memory, rights, page, into)
}

// "Reply sets one of GPR 1 to 31."
#[unsafe(no_mangle)]
pub extern "C" fn brenwythal_plain_reply(words: &mut [u32], register: u32, value: u32) -> u32
    ensures { promises.ReplyPromise words.old register value (record { returned = result; words = words.new }) }
{
    plaincapi::brenwythal_plain_reply(words, register, value)
}

// Reads a console image. The answer: "ptl, start and frames as written".
#[unsafe(no_mangle)]
pub extern "C" fn brenwythal_plain_image(file: &[u8], answer: &mut [u32]) -> u32
    ensures { ImagePromise file.now answer.old (record { returned = result; answer = answer.new }) }
{
    plaincapi::brenwythal_plain_image(file, answer)
}
