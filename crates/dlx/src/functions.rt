// The functions under opcode 0.
ghost use Rattle.std.specs.Prelude.{◌≡◌, ℕ};
ghost use Rattle.model.specs.Instruction.{register};
ghost use Rattle.dlx.specs.Asked.{asked};

use alu::Relation;

// "Functions under opcode 0"; x and y are the values of RS1 and RS2. None, where the tables have none.
#[tactic(auto, unfolding(model::specs::Instruction::register))]
pub fn function(w: u32, x: u32, y: u32) -> Option<u32>
    ensures { (next : ℕ) → asked next w result ≡ register next w x y }
{
    match w % 64 {
        0 => Some(alu::sll(x, w / 64 % 32)),
        2 => Some(alu::srl(x, w / 64 % 32)),
        3 => Some(alu::sra(x, w / 64 % 32)),
        4 => Some(alu::sll(x, y % 32)),
        6 => Some(alu::srl(x, y % 32)),
        7 => Some(alu::sra(x, y % 32)),
        33 => Some(x.wrapping_add(y)),
        35 => Some(alu::sub(x, y)),
        36 => Some(x & y),
        37 => Some(x | y),
        38 => Some(x ^ y),
        39 => Some(alu::lhg(y)),
        40 => Some(alu::compare(Relation::Never, x, y)),
        41 => Some(alu::compare(Relation::Greater, x, y)),
        42 => Some(alu::compare(Relation::Equal, x, y)),
        43 => Some(alu::compare(Relation::GreaterEqual, x, y)),
        44 => Some(alu::compare(Relation::Less, x, y)),
        45 => Some(alu::compare(Relation::NotEqual, x, y)),
        46 => Some(alu::compare(Relation::LessEqual, x, y)),
        47 => Some(alu::compare(Relation::Always, x, y)),
        _ => None,
    }
}
