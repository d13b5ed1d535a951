// A run's answer as words in a lent slice, by this paper's numbers.
ghost use Rattle.std.specs.Prelude.{◌≡◌, [], ◌∷◌, length};
ghost use Rattle.model.specs.Answers as numbers;
ghost use Rattle.capi.specs.Calls.{run_words};

use model::RunAnswer;

fn put_five(answer: &mut [u32], stop: u32, detail: u32, finished: u32, loads: u32, copied: u32)
    requires { length answer.old ≡ 5 }
    ensures { answer.new ≡ stop ∷ detail ∷ finished ∷ loads ∷ copied ∷ [] }
{
    answer.copy_from_slice(&[stop, detail, finished, loads, copied]);
}

pub(crate) fn put_run(answer: &mut [u32], a: RunAnswer) -> u32
    requires { length answer.old ≡ 5 }
    ensures { (result ≡ (numbers.run_numbers a).verdict.refused) × (answer.new ≡ run_words (numbers.run_numbers a)) }
{
    match a {
        Ok(ran) => {
            put_five(
                answer,
                answers::stop_number(ran.stop),
                answers::stop_detail(ran.stop),
                ran.finished,
                ran.loads,
                ran.copied,
            );
            0
        }
        Err(r) => {
            put_five(answer, 0, 0, 0, 0, 0);
            answers::refusal_number(r)
        }
    }
}
