// Refusal 2, "the machine is not sound": the tests that it is.
#![tactic(auto)]

mod clean;
mod seats;

ghost use Rattle.std.specs.Prelude.{◌≡◌, length, get_or};
ghost use Rattle.model.specs.Sound as soundness;
ghost use Rattle.model.specs.State.{memory};
ghost use Rattle.laws.specs.Good.{Fit, SwapLong};
ghost use Rattle.sound.specs.Lean.{whole};

use model::{Machine, Shape};

// A machine as far as soundness asks of it, but for B, which is lent beside it as words: so no array is copied.
#[derive(Clone, Copy)]
pub struct Lean {
    pub shape: Shape,
    pub used: u32,
    pub hand: u32,
    pub marks: u32,
    pub zero: u32,
}

pub fn lean_of(m: Machine) -> Lean
    ensures { result ≡ record { shape = m.shape; used = m.book.used; hand = m.book.hand; marks = m.book.marks; zero = get_or m.gpr 0 0 } }
{
    let s = m.shape;
    let b = m.book;
    Lean {
        shape: s,
        used: b.used,
        hand: b.hand,
        marks: b.marks,
        zero: m.gpr[0],
    }
}

// "A machine is sound when": each test for a machine that passed those before it. As each B[i] is seated and all are different, no
// other entry is valid exactly where there are b valid ones. The pages are compared last, which takes the most time.
#[tactic(auto, using(crate::proofs::Rows::unsound_ways))]
pub fn sound(l: Lean, held: &[u32], main: &[u8], swap: &[u8]) -> bool
    requires { Fit l.shape (length main.now) × SwapLong l.shape (length swap.now) × (length held.now ≡ 32) }
    ensures { result ≡ soundness.sound (whole l held.now) (memory main.now swap.now) }
{
    let s = l.shape;
    if l.zero != 0 {
        return false;
    }
    if l.used > s.frames {
        return false;
    }
    if !book::check::all_different(l.used, held) {
        return false;
    }
    if !book::check::rest_zero(l.used, held) {
        return false;
    }
    if !seats::frames_seated(s, l.used, held, main) {
        return false;
    }
    if seats::valid_entries(s, main) != l.used {
        return false;
    }
    if !book::check::hand_right(s.frames, l.used, l.hand) {
        return false;
    }
    if !book::check::marks_right(l.used, l.marks) {
        return false;
    }
    clean::frames_clean(s, l.used, l.marks, held, main, swap)
}
