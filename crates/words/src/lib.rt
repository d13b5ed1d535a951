// Numbers and pages in lent bytes: "Words and halves are little endian", "Page size K = 4096".
#![tactic(auto)]

ghost use Rattle.std.specs.Prelude.{◌≡◌, ◌+◌, ◌*◌, ◌<◌, ◌≤◌, length};
ghost use Rattle.model.specs.Bytes as bytes;
ghost use Rattle.model.specs.Bytes.{number, store, page, with_page};

// The number of the N bytes at `at`. One load, where N is 1, 2 or 4.
pub fn number_at<const N: usize>(m: &[u8], at: usize) -> u32
    requires { (at + N ≤ length m.now) × (N ≤ 4) }
    ensures { result ≡ number N m.now at }
{
    let mut bytes = [0; 4];
    bytes[..N].copy_from_slice(&m[at..at + N]);
    u32::from_le_bytes(bytes)
}

// Puts the N low bytes of x at `at`. One store, where N is 1, 2 or 4.
pub fn put_number<const N: usize>(m: &mut [u8], at: usize, x: u32)
    requires { (at + N ≤ length m.old) × (N ≤ 4) }
    ensures { m.new ≡ store N m.old at x }
{
    let bytes = x.to_le_bytes();
    m[at..at + N].copy_from_slice(&bytes[..N]);
}

// Copies `from` over `to`, which is as long. By index: `copy_from_slice` of a length that is not a constant calls `memmove`, and of the
// C library an archive calls `memcpy` and `memset` alone.
pub fn copy(from: &[u8], to: &mut [u8])
    requires { length from.now ≡ length to.old }
    ensures { to.new ≡ from.now }
{
    for i in 0..from.len() {
        to[i] = from[i];
    }
}

// Copies page x of `from` over page y of `to`.
pub fn copy_page(from: &[u8], x: usize, to: &mut [u8], y: usize)
    requires { (4096 * x + 4096 ≤ length from.now) × (4096 * y + 4096 ≤ length to.old) }
    ensures { to.new ≡ with_page to.old y (page from.now x) }
{
    let start = 4096 * x;
    let first = 4096 * y;
    copy(&from[start..start + 4096], &mut to[first..first + 4096]);
}

// Whether page x of a and page y of b are equal.
pub fn same_page(a: &[u8], x: usize, b: &[u8], y: usize) -> bool
    requires { (4096 * x + 4096 ≤ length a.now) × (4096 * y + 4096 ≤ length b.now) }
    ensures { result ≡ bytes.same (page a.now x) (page b.now y) }
{
    let start = 4096 * x;
    let first = 4096 * y;
    a[start..start + 4096] == b[first..first + 4096]
}
