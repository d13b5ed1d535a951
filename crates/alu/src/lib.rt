// The arithmetic of the instructions: sign extension, differences, comparisons, shifts.
#![tactic(auto)]

ghost use Rattle.std.specs.Prelude.{◌≡◌, ◌*◌, ◌^◌, ◌<◌, ◌≤◌};
ghost use Rattle.model.specs.Words as words;
ghost use Rattle.model.specs.Words.{minus, low, extend, below, shift_left, shift_right, top_ones, shift_signed, compared};
ghost use Rattle.alu.specs.Relations.{number_of};

// A number of so many bits: "imm is sign extended everywhere", "for j and jal the 26-bit number is too", "lb and lh sign extended".
#[tactic(auto, using(crate::proofs::Words::extended))]
pub fn sext(bits: u32, x: u32) -> u32
    requires { (0 < bits) × (bits ≤ 32) × (x < 2 ^ bits) }
    ensures { result ≡ extend bits x }
{
    let half = 1u32 << (bits - 1);
    // The bits above are left out, which makes it one instruction of the processor.
    (x.wrapping_add(half) & (half + (half - 1))).wrapping_sub(half)
}

// "Sums and differences of registers and addresses go round at 2^32", of sub and subi.
pub fn sub(x: u32, y: u32) -> u32
    ensures { result ≡ minus x y }
{
    x.wrapping_sub(y)
}

// x < y, signed.
pub fn less(x: u32, y: u32) -> bool
    ensures { result ≡ below x y }
{
    x.wrapping_add(2147483648) < y.wrapping_add(2147483648)
}

// The comparisons, by the order of their numbers: "never, >, =, ≥, <, ≠, ≤, always".
#[derive(Clone, Copy, Debug, PartialEq, Eq)]
pub enum Relation {
    Never,
    Greater,
    Equal,
    GreaterEqual,
    Less,
    NotEqual,
    LessEqual,
    Always,
}

// "RD = 1 or 0", signed: each answer to x and y is a bit of the relation's number. A match with a test for each relation is laid out
// otherwise by the compiler, and took 1.06 to 1.24 of the time of every guest.
pub fn compare(r: Relation, x: u32, y: u32) -> u32
    ensures { result ≡ compared (number_of r) x y }
{
    let c = r as u32;
    if x == y {
        c / 2 % 2
    } else if less(x, y) {
        c / 4 % 2
    } else {
        c % 2
    }
}

pub fn sll(x: u32, n: u32) -> u32
    requires { n < 32 }
    ensures { result ≡ shift_left x n }
{
    x << n
}

pub fn srl(x: u32, n: u32) -> u32
    requires { n < 32 }
    ensures { result ≡ shift_right x n }
{
    x >> n
}

// The n top bits, all ones: those that a word of ones loses by a shift right.
fn top_ones(n: u32) -> u32
    requires { n < 32 }
    ensures { result ≡ top_ones n }
{
    4294967295 - (4294967295 >> n)
}

// n copies of bit 31 of x, at the top.
fn fill(x: u32, n: u32) -> u32
    requires { n < 32 }
    ensures { result ≡ words.fill x n }
{
    if x / 2147483648 % 2 == 1 {
        top_ones(n)
    } else {
        0
    }
}

// "an unsigned shift with the top bits filled from bit 31, for both srai and sra"
pub fn sra(x: u32, n: u32) -> u32
    requires { n < 32 }
    ensures { result ≡ shift_signed x n }
{
    (x >> n) | fill(x, n)
}

// "RD = RS2's low half times 65536", "RD = imm's 16 bits, times 65536"
pub fn lhg(y: u32) -> u32
    ensures { result ≡ low 16 y * 65536 }
{
    y % 65536 * 65536
}
