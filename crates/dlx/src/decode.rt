// The tables of "Instructions": what an instruction word asks for.
ghost use Rattle.std.specs.Prelude.{◌≡◌, ◌<◌, if◌then◌else◌};
ghost use Rattle.model.specs.Words.{plus};
ghost use Rattle.model.specs.Instruction as model;
ghost use Rattle.model.specs.declared.Plan.TheVariants.{LoadByte, LoadHalf, LoadWord, StoreByte, StoreHalf, StoreWord};

use crate::functions;
use alu::Relation;
use model::Plan;

// The fields RS1, RD (which is RS2 under opcode 0) and imm.
fn rs1(w: u32) -> usize
    ensures { (result ≡ model.rs1 w) × (result < 32) }
{
    (w / 2097152 % 32) as usize
}

fn rd(w: u32) -> u32
    ensures { (result ≡ model.rd w) × (result < 32) }
{
    w / 65536 % 32
}

fn imm(w: u32) -> u32
    ensures { result ≡ model.imm w }
{
    alu::sext(16, w % 65536)
}

// The values of RS1 and of RD.
fn first(g: &[u32; 32], w: u32) -> u32
    ensures { result ≡ model.reg g.now (model.rs1 w) }
{
    let i = rs1(w);
    g[i]
}

fn second(g: &[u32; 32], w: u32) -> u32
    ensures { result ≡ model.reg g.now (model.rd w) }
{
    let i = rd(w) as usize;
    g[i]
}

// PC'+4
pub fn onward(next: u32) -> u32
    ensures { result ≡ model.onward next }
{
    next.wrapping_add(4)
}

// "Address of a load or store: RS1+imm."
fn address(g: &[u32; 32], w: u32) -> u32
    ensures { result ≡ plus (model.reg g.now (model.rs1 w)) (model.imm w) }
{
    first(g, w).wrapping_add(imm(w))
}

// "target PC'+imm", of j and jal.
fn far(next: u32, w: u32) -> u32
    ensures { result ≡ plus next (model.imm26 w) }
{
    next.wrapping_add(alu::sext(26, w % 67108864))
}

// A value to a register, and on to the next instruction.
fn set(next: u32, i: u32, v: u32) -> Plan
    ensures { result ≡ model.value next i v }
{
    Plan::Set {
        rd: i,
        value: v,
        target: onward(next),
    }
}

fn jump(target: u32) -> Plan
    ensures { result ≡ model.jump target }
{
    Plan::Set {
        rd: 0,
        value: 0,
        target,
    }
}

// "jal and jalr put PC'+4 in GPR 31."
fn link(next: u32, target: u32) -> Plan
    ensures { result ≡ model.link next target }
{
    Plan::Set {
        rd: 31,
        value: onward(next),
        target,
    }
}

// "branches test RS1", "target PC'+imm"
fn branch(next: u32, taken: bool, by: u32) -> Plan
    ensures { result ≡ model.jump (if taken then plus next by else model.onward next) }
{
    let target = if taken {
        next.wrapping_add(by)
    } else {
        onward(next)
    };
    jump(target)
}

// A load and a store of each width: "Address of a load or store: RS1+imm." Each is a variant of its own, as the model's rows name them
// (model/specs/Instruction): one generic maker would match on the width again.
fn load_byte(g: &[u32; 32], w: u32, signed: bool) -> Plan
    ensures { result ≡ LoadByte signed (model.rd w) (plus (model.reg g.now (model.rs1 w)) (model.imm w)) }
{
    Plan::LoadByte {
        signed,
        rd: rd(w),
        va: address(g, w),
    }
}

fn load_half(g: &[u32; 32], w: u32, signed: bool) -> Plan
    ensures { result ≡ LoadHalf signed (model.rd w) (plus (model.reg g.now (model.rs1 w)) (model.imm w)) }
{
    Plan::LoadHalf {
        signed,
        rd: rd(w),
        va: address(g, w),
    }
}

fn load_word(g: &[u32; 32], w: u32) -> Plan
    ensures { result ≡ LoadWord (model.rd w) (plus (model.reg g.now (model.rs1 w)) (model.imm w)) }
{
    Plan::LoadWord {
        rd: rd(w),
        va: address(g, w),
    }
}

fn store_byte(g: &[u32; 32], w: u32) -> Plan
    ensures { result ≡ StoreByte (plus (model.reg g.now (model.rs1 w)) (model.imm w)) (model.reg g.now (model.rd w)) }
{
    Plan::StoreByte {
        va: address(g, w),
        value: second(g, w),
    }
}

fn store_half(g: &[u32; 32], w: u32) -> Plan
    ensures { result ≡ StoreHalf (plus (model.reg g.now (model.rs1 w)) (model.imm w)) (model.reg g.now (model.rd w)) }
{
    Plan::StoreHalf {
        va: address(g, w),
        value: second(g, w),
    }
}

fn store_word(g: &[u32; 32], w: u32) -> Plan
    ensures { result ≡ StoreWord (plus (model.reg g.now (model.rs1 w)) (model.imm w)) (model.reg g.now (model.rd w)) }
{
    Plan::StoreWord {
        va: address(g, w),
        value: second(g, w),
    }
}

// A word of opcode 0.
fn function(g: &[u32; 32], next: u32, w: u32) -> Plan
    ensures { result ≡ model.register next w (model.reg g.now (model.rs1 w)) (model.reg g.now (model.rs2 w)) }
{
    let v = functions::function(w, first(g, w), second(g, w));
    match v {
        Some(x) => set(next, w / 2048 % 32, x),
        None => Plan::Unknown,
    }
}

// A word of another opcode.
#[tactic(auto, using(alu::proofs::Words::if_not), unfolding(model::specs::Instruction::immediate))]
fn immediate(g: &[u32; 32], next: u32, w: u32) -> Plan
    ensures { result ≡ model.immediate next w (model.reg g.now (model.rs1 w)) (model.reg g.now (model.rd w)) (model.imm w) }
{
    match w / 67108864 {
        2 => jump(far(next, w)),
        3 => link(next, far(next, w)),
        4 => branch(next, first(g, w) == 0, imm(w)),
        5 => branch(next, first(g, w) != 0, imm(w)),
        9 => set(next, rd(w), address(g, w)),
        11 => set(next, rd(w), alu::sub(first(g, w), imm(w))),
        12 => set(next, rd(w), first(g, w) & imm(w)),
        13 => set(next, rd(w), first(g, w) | imm(w)),
        14 => set(next, rd(w), first(g, w) ^ imm(w)),
        15 => set(next, rd(w), alu::lhg(w)),
        22 => jump(first(g, w)),
        23 => link(next, first(g, w)),
        24 => set(
            next,
            rd(w),
            alu::compare(Relation::Never, first(g, w), imm(w)),
        ),
        25 => set(
            next,
            rd(w),
            alu::compare(Relation::Greater, first(g, w), imm(w)),
        ),
        26 => set(
            next,
            rd(w),
            alu::compare(Relation::Equal, first(g, w), imm(w)),
        ),
        27 => set(
            next,
            rd(w),
            alu::compare(Relation::GreaterEqual, first(g, w), imm(w)),
        ),
        28 => set(
            next,
            rd(w),
            alu::compare(Relation::Less, first(g, w), imm(w)),
        ),
        29 => set(
            next,
            rd(w),
            alu::compare(Relation::NotEqual, first(g, w), imm(w)),
        ),
        30 => set(
            next,
            rd(w),
            alu::compare(Relation::LessEqual, first(g, w), imm(w)),
        ),
        31 => set(
            next,
            rd(w),
            alu::compare(Relation::Always, first(g, w), imm(w)),
        ),
        32 => load_byte(g, w, true),
        33 => load_half(g, w, true),
        35 => load_word(g, w),
        36 => load_byte(g, w, false),
        37 => load_half(g, w, false),
        40 => store_byte(g, w),
        41 => store_half(g, w),
        43 => store_word(g, w),
        62 => Plan::Trapping(w % 67108864),
        _ => Plan::Unknown,
    }
}

// What the word w asks for, with the registers as they are and `next` in PC'. Opcode 0 is asked apart: a second table reached
// through the first would be a second indirect jump for half of all instructions.
#[tactic(auto, unfolding(model::specs::Instruction::plan))]
pub fn plan(g: &[u32; 32], next: u32, w: u32) -> Plan
    ensures { result ≡ model.plan g.now next w }
{
    if w >= 67108864 {
        return immediate(g, next, w);
    }
    function(g, next, w)
}
