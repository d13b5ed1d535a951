// Loads and stores, on any memory: what the access came to is handed in, and says where the bytes are.
ghost use Rattle.std.specs.Prelude.{◌≡◌, List, ℕ, ◌<◌, ◌≤◌, length};
ghost use Rattle.model.specs.Instruction.{written};
ghost use Rattle.model.specs.Attempt as one;
ghost use Rattle.cpu.specs.Reach as rule;

use crate::access;
use crate::access::Reached;
use model::{Outcome, Pcs};

// "Writes to GPR 0 are dropped."
pub fn write(g: &mut [u32; 32], rd: u32, x: u32)
    requires { rd < 32 }
    ensures { g.new ≡ written g.old rd x }
{
    if rd != 0 {
        let i = rd as usize;
        g[i] = x;
    }
}

// A load of N bytes whose access came to r, and a store.
pub fn load<const N: usize>(
    r: Reached,
    g: &mut [u32; 32],
    p: Pcs,
    m: &[u8],
    signed: bool,
    rd: u32,
    va: u32,
) -> Outcome
    requires { rule.Ends N (length m.now) r × (rd < 32) × (0 < N) × (N ≤ 4) }
    ensures { one.tried result g.new m.now ≡ rule.load N signed rd va p g.old m.now r }
{
    match r {
        Reached::At(i) => {
            let x = words::number_at::<N>(m, i);
            let v = if signed {
                alu::sext(8 * N as u32, x)
            } else {
                x
            };
            write(g, rd, v);
            access::loaded(p, va, r)
        }
        _ => access::loaded(p, va, r),
    }
}

pub fn store<const N: usize>(r: Reached, p: Pcs, m: &mut [u8], va: u32, x: u32) -> Outcome
    requires { rule.Ends N (length m.old) r × (N ≤ 4) }
    ensures { (gpr : List ℕ) → one.tried result gpr m.new ≡ rule.store N va x p gpr m.old r }
{
    match r {
        Reached::At(i) => {
            words::put_number::<N>(m, i, x);
            access::stored(p, va, r)
        }
        _ => access::stored(p, va, r),
    }
}
