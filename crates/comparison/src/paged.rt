// The paged machine's side of a call: as `series` does it, but for the line of a run.
ghost use Rattle.std.specs.Prelude.{◌+◌, ◌/◌, ◌≤◌, length};
ghost use Rattle.model.specs.State.{state};
ghost use Rattle.model.specs.Calls.{run_call};
ghost use Rattle.text.specs.Reading.{bytes_of};
ghost use Rattle.script.specs.Table.{call_row};
ghost use Rattle.script.specs.Keeping.{Keeps};
ghost use Rattle.session.specs.Answers.{Says};
ghost use Rattle.comparison.specs.Answers as answers;

use answers::refusal_number;
use model::Machine;
use script::Call;
use script::parts::Numbers;
use session::calls;
use session::calls::Done;
use text::lines::refused_line;

// `run N`
fn run(m: Machine, main: &mut [u8], swap: &mut [u8], limit: u32, out: &mut [u8], at: usize) -> Done
    requires { at + 128 ≤ length out.old }
    ensures { Says out.old at out.new result.filled (state result.machine main.new swap.new)
        (answers.ran (run_call (state m main.old swap.old) limit)) }
{
    let result = machine::run(m, main, swap, limit);
    match result.answer {
        Err(refusal) => calls::left(
            result.machine,
            refused_line(out, at, refusal_number(refusal)),
        ),
        Ok(ran) => {
            let number = answers::stop_number(ran.stop);
            let why = [number, answers::stop_detail(ran.stop)];
            calls::left(
                result.machine,
                answerlines::numbers_line(out, at, b"run", &why, &[ran.finished]),
            )
        }
    }
}

pub(crate) fn answer(
    call: Call,
    n: Numbers,
    m: Machine,
    main: &mut [u8],
    swap: &mut [u8],
    digits: &[u8],
    out: &mut [u8],
    at: usize,
) -> Done
    requires { (at + 8900 ≤ length out.old) × (length digits.now ≤ 65536) × Keeps (call_row call) n (length digits.now / 2) }
    ensures { Says out.old at out.new result.filled (state result.machine main.new swap.new)
        (answers.paged_answered call n (bytes_of digits.now) (state m main.old swap.old)) }
{
    match call {
        Call::Run => run(m, main, swap, n.first, out, at),
        Call::Read => calls::read(m, main, swap, n, out, at),
        Call::Write => calls::write(m, main, swap, n.first, digits, out, at),
        Call::View => calls::view(m, main, swap, n.first, out, at),
        Call::Reply => calls::reply(m, n, out, at),
        Call::Registers => calls::registers(m, out, at),
    }
}
