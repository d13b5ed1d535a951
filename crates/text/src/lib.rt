// Words and numbers put into a lent buffer from a place on, each answering with the place after what it put. `reading` reads them.
#![tactic(auto)]

ghost use Rattle.std.specs.Prelude.{◌≡◌, ◌+◌, ◌*◌, ◌^◌, ◌≤◌, ◌<◌, length};
ghost use Rattle.model.specs.Console.{digits};
ghost use Rattle.text.specs.Text as text;

pub mod lines;
pub mod reading;
pub mod scan;

// The bytes as they are, one by one: `copy_from_slice` would call memmove, and of the C library an archive calls memcpy and
// memset alone.
pub fn put(out: &mut [u8], at: usize, bytes: &[u8]) -> usize
    requires { at + length bytes.now ≤ length out.old }
    ensures { text.Appended out.old at out.new result bytes.now }
{
    for i in 0..bytes.len() {
        out[at + i] = bytes[i];
    }
    at + bytes.len()
}

// n in decimal: one digit, and `more` others at most.
fn put_digits(out: &mut [u8], at: usize, n: u32, more: usize) -> usize
    requires { (at + more + 1 ≤ length out.old) × (n < 10 * 10 ^ more) }
    ensures { text.Appended out.old at out.new result (digits more n) }
{
    if n < 10 {
        out[at] = (48 + n) as u8;
        return at + 1;
    }
    let last = put_digits(out, at, n / 10, more - 1);
    out[last] = (48 + n % 10) as u8;
    last + 1
}

// "in decimal": a number below 2^32 has at most ten digits.
pub fn put_number(out: &mut [u8], at: usize, n: u32) -> usize
    requires { at + 10 ≤ length out.old }
    ensures { text.Appended out.old at out.new result (digits 9 n) × (result ≤ at + 10) }
{
    put_digits(out, at, n, 9)
}

fn hex_digit(n: u8) -> u8
    requires { n < 16 }
    ensures { result ≡ text.hex_digit n }
{
    if n < 10 { 48 + n } else { 87 + n }
}

// Two lower-case digits a byte.
pub fn put_hex(out: &mut [u8], at: usize, bytes: &[u8]) -> usize
    requires { at + 2 * length bytes.now ≤ length out.old }
    ensures { text.Appended out.old at out.new result (text.hex_of bytes.now)
        × (result ≡ at + 2 * length bytes.now) }
{
    let mut to = at;
    for b in bytes {
        out[to] = hex_digit(*b / 16);
        out[to + 1] = hex_digit(*b % 16);
        to += 2;
    }
    to
}
