// A word's line, put into a buffer from a place on. The line has at most 17 bytes; 80 are lent, so that no piece is measured first.
ghost use Rattle.std.specs.Prelude.{◌≡◌, [], ◌∷◌, ◌++◌, ◌+◌, ◌*◌, ◌≤◌, ◌<◌, length};
ghost use Rattle.text.specs.Text.{Appended};
ghost use Rattle.notation.specs.Listing as listing;
ghost use Rattle.mnemonics.specs.Rows as rows;

use mnemonics::Row;
use notation::Piece;

// The number in a field of a word.
fn field(w: u32, scale: u64, size: u64) -> u64
    requires { (0 < scale) × (0 < size) }
    ensures { (result ≡ listing.field_of scale size w) × (result < size) }
{
    (w as u64) / scale % size
}

// A word so far, with the field of w that a piece names.
fn with_piece(p: Piece, v: u64, w: u32) -> u64
    requires { rows.Fine p × (v ≤ 4294967296 * 7) }
    ensures { (result ≡ listing.with_piece p v w) × (result ≤ v + 4294967296) }
{
    match p {
        Piece::Mark(_) => v,
        Piece::Field {
            scale,
            size,
            signed: _,
        } => v + field(w, scale, size) * scale,
    }
}

// The word with the fields of w, and zero in every other.
fn filled(row: &Row, w: u32) -> u64
    requires { rows.Formed row.now }
    ensures { result ≡ listing.filled (rows.pieces_of row.now) row.now.base w }
{
    let mut v = row.base as u64;
    for piece in row.pieces() {
        v = with_piece(*piece, v, w);
    }
    v
}

// A field's number in decimal.
fn put_value(out: &mut [u8], at: usize, size: u64, signed: bool, x: u64) -> usize
    requires { (at + 11 ≤ length out.old) × (x < size) × (size ≤ 67108864) }
    ensures { Appended out.old at out.new result (listing.value_text size signed x) × (result ≤ at + 11) }
{
    if signed & (size / 2 <= x) {
        out[at] = b'-';
        return text::put_number(out, at + 1, (size - x) as u32);
    }
    text::put_number(out, at, x as u32)
}

fn put_piece(out: &mut [u8], at: usize, p: Piece, w: u32) -> usize
    requires { (at + 11 ≤ length out.old) × rows.Fine p }
    ensures { Appended out.old at out.new result (listing.piece_text p w) × (result ≤ at + 11) }
{
    match p {
        Piece::Mark(b) => {
            out[at] = b;
            at + 1
        }
        Piece::Field {
            scale,
            size,
            signed,
        } => put_value(out, at, size, signed, field(w, scale, size)),
    }
}

// The pieces of a row.
fn put_pieces(out: &mut [u8], at: usize, row: &Row, w: u32) -> usize
    requires { rows.Formed row.now × (at + 66 ≤ length out.old) }
    ensures { Appended out.old at out.new result (listing.pieces_text (rows.pieces_of row.now) w) }
{
    let mut to = at;
    for piece in row.pieces() {
        to = put_piece(out, to, *piece, w);
    }
    to
}

// A word's line, without its newline.
pub(crate) fn put(out: &mut [u8], at: usize, w: u32) -> usize
    requires { at + 80 ≤ length out.old }
    ensures { Appended out.old at out.new result (listing.listed w) }
{
    let Some(row) = mnemonics::keyed(w) else {
        return text::put_number(out, at, w);
    };
    let full = filled(row, w);
    let whole = full == w as u64;
    if !whole {
        return text::put_number(out, at, w);
    }
    let to = text::put(out, at, row.name());
    out[to] = b' ';
    put_pieces(out, to + 1, row, w)
}

// The whole line. Near the end of `out` it is made in a buffer of its own.
pub(crate) fn put_line(out: &mut [u8], at: usize, w: u32) -> usize
    requires { at + length (listing.listed w) + 1 ≤ length out.old }
    ensures { Appended out.old at out.new result (listing.listed w ++ 10 ∷ []) }
{
    if 80 <= out.len() - at {
        let to = put(out, at, w);
        out[to] = b'\n';
        return to + 1;
    }
    let mut line = [0; 80];
    let n = put(&mut line, 0, w);
    let end = text::put(out, at, &line[..n]);
    out[end] = b'\n';
    end + 1
}
