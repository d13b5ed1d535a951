// The record as words: where each field stands, a machine read from its words, its words written, and one word set. Hosts in C and
// the tester's script know the record by these places; specs/Words names them too.
#![tactic(auto)]

ghost use Rattle.std.specs.Prelude.{◌≡◌, ◌++◌, ◌+◌, ◌≤◌, ◌<◌, length, set};
ghost use Rattle.laws.specs.Over.{over};
ghost use Rattle.record.specs.Words as words;

use model::{FrameBook, Machine, Pcs, Shape, VirtualPage};

// The shape numbers, b and hand.
const PAGES: usize = 0;

const FRAMES: usize = 1;

const ABASE: usize = 2;

const PTL: usize = 3;

const PTO: usize = 4;

const SBASE: usize = 5;

const USED: usize = 6;

const HAND: usize = 7;

// B[0..31] and GPR 0 to 31.
const HELD: usize = 8;

const GPR: usize = 40;

const DPC: usize = 72;

const NEXT: usize = 73;

const MARKS: usize = 74;

pub const LENGTH: usize = 75;

// The 32 words from word `at` on.
pub fn part(from: &[u32], at: usize) -> [u32; 32]
    requires { at + 32 ≤ length from.now }
    ensures { result ≡ words.part at 32 from.now }
{
    let mut come = [0; 32];
    come.copy_from_slice(&from[at..at + 32]);
    come
}

// Puts `from` in the place of the words from word `at` on.
pub fn put(to: &mut [u32], at: usize, from: &[u32])
    requires { at + length from.now ≤ length to.old }
    ensures { to.new ≡ over at from.now to.old }
{
    to[at..at + from.len()].copy_from_slice(from);
}

// Loops, and not `map`, which moves word by word: with it a record read and written takes 224 ns, and so 17.
#[tactic(auto, using(crate::proofs::Parts::page_next))]
fn pages_of(numbers: [u32; 32]) -> [VirtualPage; 32]
    ensures { result ≡ words.pages_of numbers }
{
    let mut held = [VirtualPage(0); 32];
    for (i, &x) in numbers.iter().enumerate() {
        held[i] = VirtualPage(x);
    }
    held
}

pub fn numbers_of(held: [VirtualPage; 32]) -> [u32; 32]
    ensures { result ≡ words.numbers_of held }
{
    let mut numbers = [0; 32];
    for (i, p) in held.iter().enumerate() {
        numbers[i] = p.0;
    }
    numbers
}

pub fn machine_of(from: &[u32]) -> Machine
    requires { length from.now ≡ words.record_length }
    ensures { result ≡ words.machine_of from.now }
{
    let held = pages_of(part(from, HELD));
    let gpr = part(from, GPR);
    Machine {
        shape: Shape {
            pages: from[PAGES],
            frames: from[FRAMES],
            abase: from[ABASE],
            ptl: from[PTL],
            pto: from[PTO],
            sbase: from[SBASE],
        },
        book: FrameBook {
            used: from[USED],
            hand: from[HAND],
            held,
            marks: from[MARKS],
        },
        gpr,
        pcs: Pcs {
            dpc: from[DPC],
            next: from[NEXT],
        },
    }
}

// The record's four parts, one behind the other.
fn lay(
    to: &mut [u32],
    head: [u32; HELD],
    numbers: [u32; 32],
    gpr: [u32; 32],
    tail: [u32; LENGTH - DPC],
)
    requires { length to.old ≡ words.record_length }
    ensures { to.new ≡ head ++ numbers ++ gpr ++ tail }
{
    put(to, PAGES, &head);
    put(to, HELD, &numbers);
    put(to, GPR, &gpr);
    put(to, DPC, &tail);
}

pub fn put_machine(to: &mut [u32], m: Machine)
    requires { length to.old ≡ words.record_length }
    ensures { to.new ≡ words.words_of m }
{
    let s = m.shape;
    let b = m.book;
    let held = b.held;
    let gpr = m.gpr;
    let p = m.pcs;
    let head = [
        s.pages, s.frames, s.abase, s.ptl, s.pto, s.sbase, b.used, b.hand,
    ];
    let tail = [p.dpc, p.next, b.marks];
    lay(to, head, numbers_of(held), gpr, tail);
}

// Sets register i to v, and looks at no other word.
pub fn set_register(to: &mut [u32], i: u32, v: u32)
    requires { (length to.old ≡ words.record_length) × (i < 32) }
    ensures { to.new ≡ words.words_of (words.with_register (words.machine_of to.old) i v) }
{
    let at = GPR + (i as usize);
    to[at] = v;
}

// Sets word i to v, where there is one.
pub fn set_at(to: &mut [u32], i: u32, v: u32)
    ensures { to.new ≡ set to.old i v }
{
    let at = i as usize;
    if at < to.len() {
        to[at] = v;
    }
}

// The machine with word i of its record set to v.
pub fn set_word(m: Machine, i: u32, v: u32) -> Machine
    ensures { result ≡ words.with_word m i v }
{
    let mut all = [0u32; LENGTH];
    put_machine(&mut all, m);
    set_at(&mut all, i, v);
    machine_of(&all)
}
