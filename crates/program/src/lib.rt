// The small program: what it writes for what it reads, as a function of bytes.
#![tactic(auto)]

ghost use Rattle.std.specs.Prelude.{◌≡◌, ◌≤◌, length};
ghost use Rattle.model.specs.State.{memory, state};
ghost use Rattle.model.specs.Answers.{refusal_number};
ghost use Rattle.model.specs.Calls.{run_call};
ghost use Rattle.model.specs.Image.{load_call};
ghost use Rattle.model.specs.Console.{refused_line, run_lines, loaded_lines, loaded_memory};
ghost use Rattle.text.specs.Text.{Appended};
ghost use Rattle.program.specs.Promises.{ConsolePromise};

use model::{Machine, Refusal};
use text::lines;

// "the one line `refused` with the number"
fn refuse(refusal: Refusal, out: &mut [u8]) -> usize
    requires { 128 ≤ length out.old }
    ensures { Appended out.old 0 out.new result (refused_line (refusal_number refusal)) }
{
    lines::refused_line(out, 0, answers::refusal_number(refusal))
}

// "runs at most 1000 instructions"
fn run_and_print(m: Machine, main: &mut [u8], swap: &mut [u8], out: &mut [u8]) -> usize
    requires { 128 ≤ length out.old }
    ensures { Appended out.old 0 out.new result (run_lines (run_call (state m main.old swap.old) 1000))
        × (memory main.new swap.new ≡ (run_call (state m main.old swap.old) 1000).state.memory) }
{
    let result = machine::run(m, main, swap, 1000);
    match result.answer {
        Err(refusal) => refuse(refusal, out),
        Ok(ran) => lines::four_lines(
            out,
            0,
            answers::stop_number(ran.stop),
            answers::stop_detail(ran.stop),
            ran.finished,
            ran.loads,
            result.machine.pcs.dpc,
        ),
    }
}

fn load_and_run(input: &[u8], main: &mut [u8], swap: &mut [u8], out: &mut [u8]) -> usize
    requires { 128 ≤ length out.old }
    ensures { Appended out.old 0 out.new result
        (loaded_lines (load_call input.now (memory main.old swap.old)))
        × (memory main.new swap.new
        ≡ loaded_memory (load_call input.now (memory main.old swap.old))) }
{
    let handed = loading::load(input, main, swap);
    match handed.verdict {
        Err(refusal) => refuse(refusal, out),
        Ok(()) => run_and_print(handed.machine, main, swap, out),
    }
}

// "The program reads an image of at most 4 pages and 17,436 bytes from standard input, uses five main pages". "A longer input prints
// `refused 7` by its length alone. Otherwise a ptl above 4 prints `refused 7`, unless 5 or 6 applies."
#[tactic(auto, using(crate::proofs::Printed::long_text, crate::proofs::Printed::long_memory))]
pub fn console(input: &[u8], main: &mut [u8], swap: &mut [u8], out: &mut [u8]) -> usize
    requires { (length main.old ≡ 20480) × (length swap.old ≡ 16384) × (128 ≤ length out.old) }
    ensures { ConsolePromise input.now (memory main.old swap.old) out.old
        result out.new (memory main.new swap.new) }
{
    if input.len() > 17436 {
        return refuse(Refusal::Room, out);
    }
    match image::read(input) {
        Err(refusal) => refuse(refusal, out),
        Ok(written) => {
            if written.ptl > 4 {
                return refuse(Refusal::Room, out);
            }
            let n = 4096 * (written.ptl as usize);
            load_and_run(input, main, &mut swap[..n], out)
        }
    }
}
