// "Where an answer is an enum, a definition gives this paper's number and values for each of the enum's cases": those numbers.
#![tactic(auto)]

ghost use Rattle.std.specs.Prelude.{◌≡◌};
ghost use Rattle.model.specs.Answers as numbers;

use model::{Refusal, Stop, Verdict};

pub fn refusal_number(r: Refusal) -> u32
    ensures { result ≡ numbers.refusal_number r }
{
    r as u32
}

// 0, or the refusal's number.
pub fn verdict_number(v: Verdict) -> u32
    ensures { result ≡ (numbers.verdict_numbers v).refused }
{
    match v {
        Ok(()) => 0,
        Err(r) => refusal_number(r),
    }
}

// A stop has two numbers, and its cases hold values: neither `as` nor one `From` would give both.
pub fn stop_number(s: Stop) -> u32
    ensures { result ≡ numbers.stop_number s }
{
    match s {
        Stop::Limit => 0,
        Stop::Trap(_) => 1,
        Stop::IllegalMemory(_) => 2,
        Stop::Misaligned(_) => 3,
        Stop::IllegalInstruction(_) => 4,
    }
}

// "detail 0", the trap's number, the virtual address, the word.
pub fn stop_detail(s: Stop) -> u32
    ensures { result ≡ numbers.stop_detail s }
{
    match s {
        Stop::Limit => 0,
        Stop::Trap(number) => number,
        Stop::IllegalMemory(va) => va,
        Stop::Misaligned(va) => va,
        Stop::IllegalInstruction(word) => word,
    }
}
