// The bytes of a transfer that is granted: one part of the memory, as the pages lie one behind the other. A transfer of no byte is
// granted at any address, so that it cuts no part.
ghost use Rattle.std.specs.Prelude.{◌≡◌, length, take, drop};
ghost use Rattle.laws.specs.Over.{over};
ghost use Rattle.plainmachine.specs.Within.{Within};

pub(crate) fn read_bytes(memory: &[u8], va: u32, into: &mut [u8])
    requires { Within (length memory.now) va (length into.old) }
    ensures { into.new ≡ take (length into.old) (drop va memory.now) }
{
    if into.len() == 0 {
        return;
    }
    let start = va as usize;
    let end = start + into.len();
    words::copy(&memory[start..end], into);
}

#[tactic(auto, using(crate::proofs::Parts::written_none))]
pub(crate) fn write_bytes(memory: &mut [u8], va: u32, from: &[u8])
    requires { Within (length memory.old) va (length from.now) }
    ensures { memory.new ≡ over va from.now memory.old }
{
    if from.len() == 0 {
        return;
    }
    let start = va as usize;
    let end = start + from.len();
    words::copy(from, &mut memory[start..end]);
}
