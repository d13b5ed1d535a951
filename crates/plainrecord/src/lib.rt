// The plain engine's record as words: where each field stands, a record read from its words, its words written, and one word set. Hosts
// in C and the tester's script know the record by these places; specs/Words names them too.
#![tactic(auto)]

ghost use Rattle.std.specs.Prelude.{◌≡◌, ◌++◌, ◌<◌, length};
ghost use Rattle.plainmodel.specs.Calls.{with_register};
ghost use Rattle.plainrecord.specs.Words as words;

use model::Pcs;
use plainmodel::Plain;

const PTL: usize = 0;

// GPR 0 to 31.
const GPR: usize = 1;

const DPC: usize = 33;

const NEXT: usize = 34;

pub const LENGTH: usize = 35;

pub fn plain_of(from: &[u32]) -> Plain
    requires { length from.now ≡ words.record_length }
    ensures { result ≡ words.plain_of from.now }
{
    let gpr = record::part(from, GPR);
    Plain {
        ptl: from[PTL],
        gpr: gpr,
        pcs: Pcs {
            dpc: from[DPC],
            next: from[NEXT],
        },
    }
}

// The record's three parts, one behind the other.
fn lay(to: &mut [u32], head: [u32; GPR], gpr: [u32; 32], tail: [u32; LENGTH - DPC])
    requires { length to.old ≡ words.record_length }
    ensures { to.new ≡ head ++ gpr ++ tail }
{
    record::put(to, PTL, &head);
    record::put(to, GPR, &gpr);
    record::put(to, DPC, &tail);
}

pub fn put_plain(to: &mut [u32], m: Plain)
    requires { length to.old ≡ words.record_length }
    ensures { to.new ≡ words.words_of m }
{
    let gpr = m.gpr;
    let p = m.pcs;
    lay(to, [m.ptl], gpr, [p.dpc, p.next]);
}

// Sets register i to v, and looks at no other word.
pub fn set_register(to: &mut [u32], i: u32, v: u32)
    requires { (length to.old ≡ words.record_length) × (i < 32) }
    ensures { to.new ≡ words.words_of (with_register (words.plain_of to.old) i v) }
{
    let at = GPR + (i as usize);
    to[at] = v;
}

// The record with word i set to v, where there is one.
pub fn set_word(m: Plain, i: u32, v: u32) -> Plain
    ensures { result ≡ words.with_word m i v }
{
    let mut all = [0u32; LENGTH];
    put_plain(&mut all, m);
    record::set_at(&mut all, i, v);
    plain_of(&all)
}
