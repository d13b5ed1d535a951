// The marks, bit f for frame f.
ghost use Rattle.std.specs.Prelude.{◌≡◌, ◌<◌};
ghost use Rattle.model.specs.Frames as frames;

// Frame f has its mark.
pub fn marked(marks: u32, f: u32) -> bool
    requires { f < 32 }
    ensures { result ≡ frames.marked marks f }
{
    (marks >> f) % 2 == 1
}

// The marks with that of frame f set, and with that of frame f cleared.
pub fn with_mark(marks: u32, f: u32) -> u32
    requires { f < 32 }
    ensures { result ≡ frames.with_mark marks f }
{
    marks | (1u32 << f)
}

pub fn without_mark(marks: u32, f: u32) -> u32
    requires { f < 32 }
    ensures { result ≡ frames.without_mark marks f }
{
    marks ^ (marks & (1u32 << f))
}
