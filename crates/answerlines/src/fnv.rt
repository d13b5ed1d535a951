// The sum FNV-1a of 32 bits.
ghost use Rattle.std.specs.Prelude.{◌≡◌};
ghost use Rattle.answerlines.specs.Fnv as fnv;

pub fn fnv1a(bytes: &[u8]) -> u32
    ensures { result ≡ fnv.fnv1a 2166136261 bytes.now }
{
    bytes.iter().fold(
        2166136261,
        |sum: u32, b| (sum ^ u32::from(*b)).wrapping_mul(16777619),
    )
}
