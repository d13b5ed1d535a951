// The types of the plain engine: one flat lent memory with a rights byte for each of its pages. What they mean stands in specs/.
#![tactic(auto)]

use model::{Pcs, Refusal, Stop, Verdict};

// The record: ptl, GPR 0 to 31, DPC and PC'.
#[derive(Clone, Copy)]
pub struct Plain {
    pub ptl: u32,
    pub gpr: [u32; 32],
    pub pcs: Pcs,
}

// The answer of a run: what a run that is not refused tells. "Loads are not its business and it reports none."
#[derive(Clone, Copy)]
pub struct PlainRan {
    pub stop: Stop,
    pub finished: u32,
}

pub type PlainAnswer = Result<PlainRan, Refusal>;

// What a run hands back: the record and the answer.
#[derive(Clone, Copy)]
pub struct PlainResult {
    pub plain: Plain,
    pub answer: PlainAnswer,
}

// What a reply and loading hand back.
#[derive(Clone, Copy)]
pub struct PlainHanded {
    pub plain: Plain,
    pub verdict: Verdict,
}
