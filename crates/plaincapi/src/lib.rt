// The plain engine's calls for hosts in C and Rust, on numbers and lent slices only: brenwythal_plain.h says what each does, and the
// crate `plaincapi_c` exports them. None asks anything of its caller, and each names its complete outcome. The crate `plainrecord` says
// what the words of a record are; they are written back only where they may differ.
#![tactic(auto)]

mod answer_words;

ghost use Rattle.imagewords.specs.Image.{ImagePromise};
ghost use Rattle.plaincapi.specs.Promises as promises;

use model::VirtualPage;

// The words of a record, and the bytes of a page.
const RECORD: usize = plainrecord::LENGTH;

const PAGE: usize = 4096;

// Loads a console image into a lent memory and lent rights, and writes the record.
pub fn brenwythal_plain_load(
    file: &[u8],
    memory: &mut [u8],
    rights: &mut [u8],
    words: &mut [u32],
) -> u32
    ensures { promises.LoadPromise file.now memory.old rights.old words.old
        (record { returned = result; words = words.new; memory = memory.new; rights = rights.new }) }
{
    if words.len() != RECORD {
        return 1;
    }
    let h = plainloading::load(file, memory, rights);
    plainrecord::put_plain(words, h.plain);
    answers::verdict_number(h.verdict)
}

// Runs at most `limit` instructions. The answer: stop, detail, finished.
pub fn brenwythal_plain_run(
    words: &mut [u32],
    memory: &mut [u8],
    rights: &[u8],
    limit: u32,
    answer: &mut [u32],
) -> u32
    ensures { promises.RunPromise words.old memory.old rights.now limit answer.old
        (record { returned = result; words = words.new; memory = memory.new; answer = answer.new }) }
{
    if words.len() != RECORD {
        return 1;
    }
    if answer.len() != 3 {
        return 1;
    }
    match plainverdict::run_verdict(plainrecord::plain_of(words), memory, rights, limit) {
        Ok(()) => {
            let r = plainmachine::run_granted(plainrecord::plain_of(words), memory, rights, limit);
            plainrecord::put_plain(words, r.plain);
            answer_words::put_run(answer, r.answer)
        }
        Err(r) => answer_words::put_run(answer, Err(r)),
    }
}

// "Host read fills a lent buffer".
pub fn brenwythal_plain_read(
    words: &[u32],
    memory: &[u8],
    rights: &[u8],
    va: u32,
    into: &mut [u8],
) -> u32
    ensures { promises.ReadPromise words.now memory.now rights.now va into.old
        (record { returned = result; buffer = into.new }) }
{
    if words.len() != RECORD {
        return 1;
    }
    answers::verdict_number(plainmachine::host_read(
        plainrecord::plain_of(words),
        memory,
        rights,
        va,
        into,
    ))
}

// "host write takes one".
pub fn brenwythal_plain_write(
    words: &[u32],
    memory: &mut [u8],
    rights: &[u8],
    va: u32,
    from: &[u8],
) -> u32
    ensures { promises.WritePromise words.now memory.old rights.now va from.now
        (record { returned = result; memory = memory.new }) }
{
    if words.len() != RECORD {
        return 1;
    }
    answers::verdict_number(plainmachine::host_write(
        plainrecord::plain_of(words),
        memory,
        rights,
        va,
        from,
    ))
}

// The page view, copied into a buffer of 4096 bytes. The verdict is asked for by name only where the part is empty.
pub fn brenwythal_plain_view<'a>(
    words: &[u32],
    memory: &'a [u8],
    rights: &'a [u8],
    page: u32,
    into: &mut [u8],
) -> u32
    ensures { promises.ViewPromise words.now memory.now rights.now page into.old
        (record { returned = result; buffer = into.new }) }
{
    if words.len() != RECORD {
        return 1;
    }
    if into.len() != PAGE {
        return 1;
    }
    let m = plainrecord::plain_of(words);
    let part = plainmachine::page_view(m, memory, rights, VirtualPage(page));
    if part.len() != PAGE {
        return answers::verdict_number(plainmachine::view_answer(
            m,
            memory,
            rights,
            VirtualPage(page),
        ));
    }
    words::copy(part, into);
    0
}

// "Reply sets one of GPR 1 to 31."
pub fn brenwythal_plain_reply(words: &mut [u32], register: u32, value: u32) -> u32
    ensures { promises.ReplyPromise words.old register value (record { returned = result; words = words.new }) }
{
    if words.len() != RECORD {
        return 1;
    }
    match plainverdict::reply_verdict(register) {
        Ok(()) => {
            plainrecord::set_register(words, register, value);
            0
        }
        Err(r) => answers::refusal_number(r),
    }
}

// Reads a console image. The answer: "ptl, start and frames as written".
pub fn brenwythal_plain_image(file: &[u8], answer: &mut [u32]) -> u32
    ensures { ImagePromise file.now answer.old (record { returned = result; answer = answer.new }) }
{
    imagewords::image_call(file, answer)
}
