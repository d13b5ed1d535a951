// A search for a byte.
ghost use Rattle.std.specs.Prelude.{◌≡◌, ◌+◌, ◌≤◌, length};
ghost use Rattle.text.specs.Scan.{slice, index_of};

// The place of the first `b` from `from` on, or `to` where none stands before it: each caller cuts the text there, found or not, so
// that an Option would be taken apart at once.
pub fn find(s: &[u8], from: usize, to: usize, b: u8) -> usize
    requires { (from ≤ to) × (to ≤ length s.now) }
    ensures place { result ≡ from + index_of b (slice from to s.now) }
    ensures within { (from ≤ result) × (result ≤ to) }
{
    from + s[from..to]
        .iter()
        .position(|c| *c == b)
        .unwrap_or(to - from)
}
