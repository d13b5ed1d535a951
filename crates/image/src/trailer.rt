// "The last 24 bytes are six u32": the trailer's numbers, by value.
ghost use Rattle.std.specs.Prelude.{◌≡◌, ◌≤◌, length};
ghost use Rattle.image.specs.Trailer.{trailer_of};

// In the trailer's order: the two distances from the file's end back to the sections come first.
#[derive(Clone, Copy)]
pub(crate) struct Trailer {
    pub rights: u32,
    pub pages: u32,
    pub ptl: u32,
    pub start: u32,
    pub frames: u32,
    pub edition: u32,
}

pub(crate) fn numbers(file: &[u8]) -> Trailer
    requires { 24 ≤ length file.now }
    ensures { result ≡ trailer_of file.now }
{
    let first = file.len() - 24;
    Trailer {
        rights: words::number_at::<4>(file, first),
        pages: words::number_at::<4>(file, first + 4),
        ptl: words::number_at::<4>(file, first + 8),
        start: words::number_at::<4>(file, first + 12),
        frames: words::number_at::<4>(file, first + 16),
        edition: words::number_at::<4>(file, first + 20),
    }
}
