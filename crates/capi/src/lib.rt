// The calls for hosts in C and Rust, on numbers and lent slices only: brenwythal.h says what each does, and the crate `capi_c` exports
// them. None asks anything of its caller, and each names its complete outcome. The crate `record` says what the words of a record are;
// they are written back only where they may differ.
#![tactic(auto)]

mod answer_sizes;
mod answer_words;

ghost use Rattle.model.specs.Promises.{LeastMainPagesPromise};
ghost use Rattle.imagewords.specs.Image.{ImagePromise};
ghost use Rattle.capi.specs.Promises as promises;

use model::VirtualPage;

// The words of a record, and the bytes of a page.
const RECORD: usize = record::LENGTH;

const PAGE: usize = 4096;

// Loads a console image into lent memories and writes the record of a fresh machine.
pub fn brenwythal_load(file: &[u8], main: &mut [u8], swap: &mut [u8], words: &mut [u32]) -> u32
    ensures { promises.LoadPromise file.now main.old swap.old words.old
        (record { returned = result; words = words.new; main = main.new; swap = swap.new }) }
{
    if words.len() != RECORD {
        return 1;
    }
    let h = loading::load(file, main, swap);
    record::put_machine(words, h.machine);
    answers::verdict_number(h.verdict)
}

// Runs at most `limit` instructions. The answer: stop, detail, finished, loads, copied.
pub fn brenwythal_run(
    words: &mut [u32],
    main: &mut [u8],
    swap: &mut [u8],
    limit: u32,
    answer: &mut [u32],
) -> u32
    ensures { promises.RunPromise words.old main.old swap.old limit answer.old
        (record { returned = result; words = words.new; main = main.new; swap = swap.new; answer = answer.new }) }
{
    if words.len() != RECORD {
        return 1;
    }
    if answer.len() != 5 {
        return 1;
    }
    match verdict::run_verdict(record::machine_of(words), main, swap, limit) {
        Ok(()) => {
            let r = machine::run_granted(record::machine_of(words), main, swap, limit);
            record::put_machine(words, r.machine);
            answer_words::put_run(answer, r.answer)
        }
        Err(r) => answer_words::put_run(answer, Err(r)),
    }
}

// "Host read fills a lent buffer".
pub fn brenwythal_read(words: &[u32], main: &[u8], swap: &[u8], va: u32, into: &mut [u8]) -> u32
    ensures { promises.ReadPromise words.now main.now swap.now va into.old
        (record { returned = result; buffer = into.new }) }
{
    if words.len() != RECORD {
        return 1;
    }
    answers::verdict_number(machine::host_read(record::machine_of(words), main, swap, va, into))
}

// "host write takes one".
pub fn brenwythal_write(
    words: &mut [u32],
    main: &mut [u8],
    swap: &mut [u8],
    va: u32,
    from: &[u8],
) -> u32
    ensures { promises.WritePromise words.old main.old swap.old va from.now
        (record { returned = result; words = words.new; main = main.new; swap = swap.new }) }
{
    if words.len() != RECORD {
        return 1;
    }
    let h = machine::host_write(record::machine_of(words), main, swap, va, from);
    record::put_machine(words, h.machine);
    answers::verdict_number(h.verdict)
}

// The page view, copied into a buffer of 4096 bytes. The verdict is asked for by name only where the part is empty.
pub fn brenwythal_view<'a>(
    words: &[u32],
    main: &'a [u8],
    swap: &'a [u8],
    page: u32,
    into: &mut [u8],
) -> u32
    ensures { promises.ViewPromise words.now main.now swap.now page into.old
        (record { returned = result; buffer = into.new }) }
{
    if words.len() != RECORD {
        return 1;
    }
    if into.len() != PAGE {
        return 1;
    }
    let m = record::machine_of(words);
    let part = machine::page_view(m, main, swap, VirtualPage(page));
    if part.len() < PAGE {
        return answers::verdict_number(machine::view_answer(m, main, swap, VirtualPage(page)));
    }
    words::copy_page(part, 0, into, 0);
    0
}

// "Reply sets one of GPR 1 to 31."
pub fn brenwythal_reply(words: &mut [u32], register: u32, value: u32) -> u32
    ensures { promises.ReplyPromise words.old register value (record { returned = result; words = words.new }) }
{
    if words.len() != RECORD {
        return 1;
    }
    match verdict::reply_verdict(register) {
        Ok(()) => {
            record::set_register(words, register, value);
            0
        }
        Err(r) => answers::refusal_number(r),
    }
}

// Reads a console image. The answer: "ptl, start and frames as written".
pub fn brenwythal_image(file: &[u8], answer: &mut [u32]) -> u32
    ensures { ImagePromise file.now answer.old (record { returned = result; answer = answer.new }) }
{
    imagewords::image_call(file, answer)
}

// How many main pages an image with these frames needs at least; 0 where no image has them. It returns that number itself: nothing is
// lent, and nothing can be refused.
pub fn brenwythal_least_main_pages(frames: u32) -> u32
    ensures { LeastMainPagesPromise frames result }
{
    loading::least_main_pages(frames)
}

// Assembles a maker's text into `out`. The answer: the bytes that the words take, and the line and the column of a bad line.
pub fn brenwythal_assemble(text: &[u8], out: &mut [u8], answer: &mut [usize]) -> u32
    ensures { promises.AssemblePromise text.now out.old answer.old
        (record { returned = result; out = out.new; answer = answer.new }) }
{
    if answer.len() != 3 {
        return 1;
    }
    answer_sizes::put_assembled(answer, assembler::assemble(text, out))
}

// Lists words into `out`. The answer: the bytes that the text takes.
pub fn brenwythal_list(bytes: &[u8], out: &mut [u8], answer: &mut [usize]) -> u32
    ensures { promises.ListPromise bytes.now out.old answer.old
        (record { returned = result; out = out.new; answer = answer.new }) }
{
    if answer.len() != 1 {
        return 1;
    }
    answer_sizes::put_listed(answer, lister::list(bytes, out))
}
