// The types of the paged console machine. What they mean stands in specs/.
#![tactic(auto)]

// Three page numbers occur: virtual, main (physical) and swap. Only the translation rules of specs/Pages turn one into another.
#[derive(Clone, Copy, PartialEq, Eq)]
pub struct VirtualPage(pub u32);

#[derive(Clone, Copy, PartialEq, Eq)]
pub struct MainPage(pub u32);

#[derive(Clone, Copy, PartialEq, Eq)]
pub struct SwapPage(pub u32);

// The shape numbers: P, a, abase, ptl, pto, sbase.
#[derive(Clone, Copy)]
pub struct Shape {
    pub pages: u32,
    pub frames: u32,
    pub abase: u32,
    pub ptl: u32,
    pub pto: u32,
    pub sbase: u32,
}

// The frame book: b, hand, B[0..31], and the marks, bit i for frame i.
#[derive(Clone, Copy)]
pub struct FrameBook {
    pub used: u32,
    pub hand: u32,
    pub held: [VirtualPage; 32],
    pub marks: u32,
}

// DPC and PC'.
#[derive(Clone, Copy)]
pub struct Pcs {
    pub dpc: u32,
    pub next: u32,
}

// The record.
#[derive(Clone, Copy)]
pub struct Machine {
    pub shape: Shape,
    pub book: FrameBook,
    pub gpr: [u32; 32],
    pub pcs: Pcs,
}

// An access to a virtual address: illegal, a page fault, or at a place in a memory.
#[derive(Clone, Copy)]
pub enum Access {
    Illegal,
    Fault,
    At(usize),
}

// What an instruction word asks for. The registers are read already, memory is not.
#[derive(Clone, Copy)]
pub enum Plan {
    Unknown,
    Set { rd: u32, value: u32, target: u32 },
    LoadByte { signed: bool, rd: u32, va: u32 },
    LoadHalf { signed: bool, rd: u32, va: u32 },
    LoadWord { rd: u32, va: u32 },
    StoreByte { va: u32, value: u32 },
    StoreHalf { va: u32, value: u32 },
    StoreWord { va: u32, value: u32 },
    Trapping(u32),
}

// Stops 0 to 4.
#[derive(Clone, Copy)]
pub enum Stop {
    Limit,
    Trap(u32),
    IllegalMemory(u32),
    Misaligned(u32),
    IllegalInstruction(u32),
}

// What one attempt comes to: carried out, a store carried out at a place in memory, a trap carried out, a page missing at a virtual
// address, or a stop.
#[derive(Clone, Copy)]
pub enum Outcome {
    Done(Pcs),
    Wrote(Pcs, usize),
    Trapped(Pcs, u32),
    Missing(u32),
    Stopped(Stop),
}

// Refusals 1 to 10.
#[derive(Clone, Copy)]
pub enum Refusal {
    Bound = 1,
    Unsound = 2,
    Rights = 3,
    TooMuch = 4,
    Edition = 5,
    Format = 6,
    Room = 7,
    Mnemonic = 8,
    Operand = 9,
    Overflow = 10,
}

// The answer of a call that only does its work or refuses it.
pub type Verdict = Result<(), Refusal>;

// The answer of a run: what a run that is not refused tells.
#[derive(Clone, Copy)]
pub struct Ran {
    pub stop: Stop,
    pub finished: u32,
    pub loads: u32,
    pub copied: u32,
}

pub type RunAnswer = Result<Ran, Refusal>;

// The answer of the reader of console images: "ptl, start and frames as written".
#[derive(Clone, Copy)]
pub struct Written {
    pub ptl: u32,
    pub start: u32,
    pub frames: u32,
}

pub type ImageAnswer = Result<Written, Refusal>;

// What a run hands back: the answer, and the record, which a refusal hands back too.
#[derive(Clone, Copy)]
pub struct RunResult {
    pub machine: Machine,
    pub answer: RunAnswer,
}

// What a host write, a reply and loading hand back: the record stands beside the verdict, since a refusal hands one back too.
#[derive(Clone, Copy)]
pub struct Handed {
    pub machine: Machine,
    pub verdict: Verdict,
}
