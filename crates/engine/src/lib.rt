// The run of a sound machine: one attempt after another, and a page load where an attempt misses a page.
#![tactic(auto)]

ghost use Rattle.std.specs.Prelude.{◌≡◌, ℕ, ◌/◌, ◌^◌, ◌<◌, ◌≤◌};
ghost use Rattle.model.specs.Pages.{page_of};
ghost use Rattle.model.specs.Run.{uncounted, instruction, run};
ghost use Rattle.laws.specs.Good.{Good, Safe};
ghost use Rattle.cpu.specs.Found.{Found};
ghost use Rattle.engine.specs.Engine.{of, course, spot, marks_after, Walked};

use cpu::code;
use cpu::code::CodePage;
use model::{FrameBook, Outcome, Pcs, Shape, Stop};
use paging::{handler, pages};

// What a run comes to, beside the lent registers and memories.
#[derive(Clone, Copy)]
pub struct Ended {
    pub stop: Stop,
    pub finished: u32,
    pub loads: u32,
    pub copied: u32,
    pub book: FrameBook,
    pub pcs: Pcs,
}

// What a leg comes to: the outcome that ended it, the instructions still left, the PCs of the next attempt, and the main pages that
// were stored to, bit p for page p.
#[derive(Clone, Copy)]
pub(crate) struct Leg {
    pub outcome: Outcome,
    pub left: u32,
    pub pcs: Pcs,
    pub stored: u64,
}

// Each of the four ends of `go` is one line by it.
fn finish(stop: Stop, finished: u32, loads: u32, copied: u32, book: FrameBook, pcs: Pcs) -> Ended
    ensures { result ≡ record { stop = stop; finished = finished; loads = loads; copied = copied; book = book; pcs = pcs } }
{
    Ended {
        stop,
        finished,
        loads,
        copied,
        book,
        pcs,
    }
}

// The marks behind a leg: main page abase + f is frame f.
fn marks_behind(s: Shape, marks: u32, stored: u64) -> u32
    requires { (s.abase < 64) × (stored / 2 ^ s.abase < 2 ^ 32) }
    ensures { result ≡ marks_after s marks stored }
{
    marks | ((stored >> s.abase) as u32)
}

// At most n instructions, while they are on the code page c and miss no page: the loop that a guest spends its time in. It asks the
// table for data alone. How many are left is handed back, so no `for` counts them.
fn walk(g: &mut [u32; 32], p: Pcs, s: Shape, main: &mut [u8], c: CodePage, n: u32) -> Leg
    requires { Safe s main.old × Found s main.old c × ((page_of p.dpc).0 ≡ c.page.0) × (0 < n) }
    ensures { (marks : ℕ) → Walked s (spot g.old p main.old marks) n result g.new main.new }
{
    let mut pcs = p;
    let mut left = n;
    let mut stored: u64 = 0;
    while left > 0 {
        let o = cpu::attempt(g, pcs, s, main, c);
        match o {
            Outcome::Done(q) => {
                pcs = q;
            }
            Outcome::Wrote(q, i) => {
                pcs = q;
                stored = stored | (1u64 << (i / 4096));
            }
            _ => {
                return Leg {
                    outcome: o,
                    left,
                    pcs,
                    stored,
                };
            }
        }
        left = left - 1;
        if !code::covers(c, pcs.dpc) {
            break;
        }
    }
    Leg {
        outcome: Outcome::Done(pcs),
        left,
        pcs,
        stored,
    }
}

// A leg from p on: along DPC's page, if that can be fetched from.
fn leg_from(g: &mut [u32; 32], p: Pcs, s: Shape, main: &mut [u8], n: u32) -> Leg
    requires { Safe s main.old × (0 < n) }
    ensures { (marks : ℕ) → Walked s (spot g.old p main.old marks) n result g.new main.new }
{
    let c = code::find(s, main, p.dpc);
    if !code::covers(c, p.dpc) {
        return Leg {
            outcome: cpu::unfetched(s, main, p),
            left: n,
            pcs: p,
            stored: 0,
        };
    }
    walk(g, p, s, main, c, n)
}

// Each turn of the loop is one leg. The test before a load bounds the loop and never ends it: no instruction of a sound machine has a
// third load.
#[tactic(auto, using(crate::proofs::Running::left_few))]
pub fn go(
    s: Shape,
    b: FrameBook,
    g: &mut [u32; 32],
    p: Pcs,
    main: &mut [u8],
    swap: &mut [u8],
    limit: u32,
) -> Ended
    requires { Good (of s b g.old p main.old swap.old) × (limit ≤ 1000000) }
    ensures { course s result g.new main.new swap.new
        ≡ run instruction limit (uncounted (of s b g.old p main.old swap.old)) }
{
    let mut book = b;
    let mut pcs = p;
    let mut left = limit;
    let mut loads: u32 = 0;
    let mut copied: u32 = 0;
    while left > 0 {
        let l = leg_from(g, pcs, s, main, left);
        let o = l.outcome;
        pcs = l.pcs;
        left = l.left;
        book.marks = marks_behind(s, book.marks, l.stored);
        match o {
            Outcome::Missing(va) => {
                if loads / 2 > limit - left {
                    return finish(
                        Stop::IllegalMemory(va),
                        limit - left,
                        loads,
                        copied,
                        book,
                        pcs,
                    );
                }
                copied = copied + (book::copies(s.frames, book) as u32);
                book = handler::load(s, book, main, swap, pages::page_of(va));
                loads = loads + 1;
            }
            Outcome::Trapped(q, n) => {
                return finish(Stop::Trap(n), limit - left + 1, loads, copied, book, q);
            }
            Outcome::Stopped(k) => {
                return finish(k, limit - left, loads, copied, book, pcs);
            }
            _ => {}
        }
    }
    finish(Stop::Limit, limit, loads, copied, book, pcs)
}
