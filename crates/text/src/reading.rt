// What is read in a text: numbers, and bytes from pairs of hex digits. Places count from 0, columns from 1.
ghost use Rattle.std.specs.Prelude.{◌≡◌, ◌+◌, ◌/◌, ◌≤◌, ◌<◌, length, get_or, IfOk};
ghost use Rattle.laws.specs.Over.{over};
ghost use Rattle.text.specs.Reading as reading;

// A number, and the place behind it.
#[derive(Clone, Copy)]
pub struct Number {
    pub value: u32,
    pub next: usize,
}

pub fn space_at(line: &[u8], i: usize) -> bool
    ensures { result ≡ reading.is_space (get_or line.now i 0) }
{
    line.get(i).is_some_and(|c| *c == b' ')
}

#[tactic(auto, unfolding(crate::specs::Reading::is_digit))]
pub fn digit_at(line: &[u8], i: usize) -> bool
    ensures { result ≡ reading.is_digit (get_or line.now i 0) }
{
    line.get(i).is_some_and(|c| c.is_ascii_digit())
}

// A number of at least one digit, and at most `most`; else the column of the first byte that does not fit.
pub fn number_at(line: &[u8], at: usize, most: u32) -> Result<Number, usize>
    requires { at ≤ length line.now }
    ensures value { result ≡ reading.number_at line.now at most }
    ensures within { IfOk result (λ n. (n.next ≤ length line.now) × (n.value ≤ most)) }
{
    let bound = u64::from(most);
    let mut value: u64 = 0;
    let mut left = &line[at..];
    while let [c @ b'0'..=b'9', rest @ ..] = left {
        value = 10 * value + u64::from(*c - b'0');
        if bound < value {
            return Err(at + 1);
        }
        left = rest;
    }
    let next = line.len() - left.len();
    if next == at {
        return Err(at + 1);
    }
    Ok(Number {
        value: value as u32,
        next,
    })
}

// How many hex digits the longest front has.
fn hex_len(s: &[u8]) -> usize
    ensures value { result ≡ length (reading.front reading.is_hex s.now) }
    ensures within { result ≤ length s.now }
{
    s.iter().take_while(|c| c.is_ascii_hexdigit()).count()
}

pub fn hex_end(line: &[u8], at: usize) -> usize
    requires { at ≤ length line.now }
    ensures { (result ≡ reading.hex_end line.now at) × (at ≤ result) × (result ≤ length line.now) }
{
    at + hex_len(&line[at..])
}

#[tactic(auto, unfolding(crate::specs::Reading::hex_value))]
pub fn hex_value(c: u8) -> u8
    ensures { (result ≡ reading.hex_value c) × (result < 16) }
{
    match c {
        b'0'..=b'9' => c - b'0',
        b'A'..=b'F' => c - b'A' + 10,
        b'a'..=b'f' => c - b'a' + 10,
        _ => 0,
    }
}

// The bytes of the pairs stand in the buffer from `at` on; all others stay. By index: of what is written through `iter_mut` or
// `chunks_exact_mut` a proof knows the length alone.
pub fn put_bytes(pairs: &[u8], into: &mut [u8], at: usize)
    requires { at + length pairs.now / 2 ≤ length into.old }
    ensures { into.new ≡ over at (reading.bytes_of pairs.now) into.old }
{
    for k in 0..pairs.len() / 2 {
        into[at + k] = 16 * hex_value(pairs[2 * k]) + hex_value(pairs[2 * k + 1]);
    }
}
