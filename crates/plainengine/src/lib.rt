// The run of the plain engine: one attempt after another, from code page to code page.
#![tactic(auto)]

ghost use Rattle.std.specs.Prelude.{◌≡◌, true, ◌+◌, ◌*◌, ◌/◌, ◌%◌, ◌<◌, eqb};
ghost use Rattle.model.specs.Run.{run};
ghost use Rattle.model.specs.Flat.{flat_instruction};
ghost use Rattle.plaincpu.specs.Sized.{Sized};
ghost use Rattle.plaincpu.specs.Fetches.{fetches};
ghost use Rattle.plainengine.specs.Engine.{flat_of, course, Walked};

use model::{Outcome, Pcs, Stop};

// What a run comes to, beside the lent registers and memory.
#[derive(Clone, Copy)]
pub struct Ended {
    pub stop: Stop,
    pub finished: u32,
    pub pcs: Pcs,
}

// What a leg comes to: the outcome that ended it, the instructions still left, the PCs of the next attempt.
#[derive(Clone, Copy)]
pub(crate) struct Leg {
    pub outcome: Outcome,
    pub left: u32,
    pub pcs: Pcs,
}

// Each of the four ends of `go` is one line by it.
fn finish(stop: Stop, finished: u32, pcs: Pcs) -> Ended
    ensures { result ≡ record { stop = stop; finished = finished; pcs = pcs } }
{
    Ended {
        stop,
        finished,
        pcs,
    }
}

// va is a word's address on the page that begins at `page`: one comparison for both.
fn on_page(page: u32, va: u32) -> bool
    ensures { result ≡ eqb (4096 * (va / 4096) + va % 4) page }
{
    4096 * (va / 4096) + va % 4 == page
}

// At most n instructions, while a fetch is on the page of the first: the loop that a guest spends its time in. It asks the rights for
// data alone, since they never change during a run. How many are left is handed back, so no `for` counts them.
fn walk(g: &mut [u32; 32], p: Pcs, rights: &[u8], m: &mut [u8], n: u32) -> Leg
    requires { Sized rights.now m.old × (fetches rights.now p.dpc ≡ true) × (0 < n) }
    ensures { Walked (flat_of g.old p rights.now m.old) n result g.new m.new }
{
    let page = 4096 * (p.dpc / 4096);
    let mut pcs = p;
    let mut left = n;
    while on_page(page, pcs.dpc) {
        let o = plaincpu::attempt(g, pcs, rights, m);
        match o {
            Outcome::Done(q) => {
                pcs = q;
            }
            Outcome::Wrote(q, _) => {
                pcs = q;
            }
            _ => {
                return Leg {
                    outcome: o,
                    left,
                    pcs,
                };
            }
        }
        left = left - 1;
        if left == 0 {
            break;
        }
    }
    Leg {
        outcome: Outcome::Done(pcs),
        left,
        pcs,
    }
}

// A leg from p on: along DPC's page, if that can be fetched from.
fn leg_from(g: &mut [u32; 32], p: Pcs, rights: &[u8], m: &mut [u8], n: u32) -> Leg
    requires { Sized rights.now m.old × (0 < n) }
    ensures { Walked (flat_of g.old p rights.now m.old) n result g.new m.new }
{
    if !plaincpu::fetched(rights, p.dpc) {
        return Leg {
            outcome: plaincpu::unfetched(rights, p),
            left: n,
            pcs: p,
        };
    }
    walk(g, p, rights, m, n)
}

// Each turn of the loop is one leg. No access to the flat memory misses a page.
pub fn go(g: &mut [u32; 32], p: Pcs, rights: &[u8], m: &mut [u8], limit: u32) -> Ended
    requires { Sized rights.now m.old }
    ensures { course result g.new rights.now m.new
        ≡ run flat_instruction limit (flat_of g.old p rights.now m.old) }
{
    let mut pcs = p;
    let mut left = limit;
    while left > 0 {
        let l = leg_from(g, pcs, rights, m, left);
        let o = l.outcome;
        pcs = l.pcs;
        left = l.left;
        match o {
            Outcome::Trapped(q, n) => {
                return finish(Stop::Trap(n), limit - left + 1, q);
            }
            Outcome::Stopped(k) => {
                return finish(k, limit - left, pcs);
            }
            Outcome::Missing(va) => {
                return finish(Stop::IllegalMemory(va), limit - left, pcs);
            }
            _ => {}
        }
    }
    finish(Stop::Limit, limit, pcs)
}
