// An answer about a text as sizes in a lent slice.
ghost use Rattle.std.specs.Prelude.{◌≡◌, length};
ghost use Rattle.notation.specs.Calls as numbers;
ghost use Rattle.capi.specs.Calls.{assemble_sizes, list_sizes};

use imagewords::put_three;
use notation::{AssembleAnswer, ListAnswer};

pub(crate) fn put_assembled(answer: &mut [usize], a: AssembleAnswer) -> u32
    requires { length answer.old ≡ 3 }
    ensures { (result ≡ (numbers.assemble_numbers a).verdict.refused) × (answer.new ≡ assemble_sizes (numbers.assemble_numbers a)) }
{
    match a {
        Ok(length) => {
            put_three(answer, length, 0, 0);
            0
        }
        Err(bad) => {
            put_three(answer, 0, bad.line, bad.column);
            answers::refusal_number(bad.refusal)
        }
    }
}

pub(crate) fn put_listed(answer: &mut [usize], a: ListAnswer) -> u32
    requires { length answer.old ≡ 1 }
    ensures { (result ≡ (numbers.list_numbers a).verdict.refused) × (answer.new ≡ list_sizes (numbers.list_numbers a)) }
{
    match a {
        Ok(length) => {
            answer.copy_from_slice(&[length]);
            0
        }
        Err(r) => {
            answer.copy_from_slice(&[0]);
            answers::refusal_number(r)
        }
    }
}
