// A run's answer as words in a lent slice, by this paper's numbers.
ghost use Rattle.std.specs.Prelude.{◌≡◌, length};
ghost use Rattle.plainmodel.specs.Calls as numbers;
ghost use Rattle.plaincapi.specs.Calls.{run_words};

use plainmodel::PlainAnswer;

pub(crate) fn put_run(answer: &mut [u32], a: PlainAnswer) -> u32
    requires { length answer.old ≡ 3 }
    ensures { (result ≡ (numbers.plain_numbers a).verdict.refused) × (answer.new ≡ run_words (numbers.plain_numbers a)) }
{
    match a {
        Ok(ran) => {
            let number = answers::stop_number(ran.stop);
            imagewords::put_three(answer, number, answers::stop_detail(ran.stop), ran.finished);
            0
        }
        Err(r) => {
            imagewords::put_three(answer, 0, 0, 0);
            answers::refusal_number(r)
        }
    }
}
