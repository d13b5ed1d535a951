// What soundness says of the frame book alone, by its numbers: b, hand, the marks, and B as lent words.
ghost use Rattle.std.specs.Prelude.{◌≡◌, List, ℕ, ◌≤◌, length};
ghost use Rattle.model.specs.Sound as tests;
ghost use Rattle.book.specs.Numbers.{book_of};

// "all different (the check stops at the first equal pair)". Nested labelled loops over B, as document 01 asks, so no `contains`.
pub fn all_different(used: u32, held: &[u32]) -> bool
    requires { (used ≤ 32) × (length held.now ≡ 32) }
    ensures { (hand marks : ℕ) → result ≡ tests.all_different (book_of used hand held.now marks) }
{
    let mut different = true;
    'frames: for j in 0..used as usize {
        for i in 0..j {
            if held[i] == held[j] {
                different = false;
                break 'frames;
            }
        }
    }
    different
}

// "B is 0 from b on": no word ends the loop early, as it would in `all`, so that it looks at several at once.
pub fn rest_zero(used: u32, held: &[u32]) -> bool
    requires { (used ≤ 32) × (length held.now ≡ 32) }
    ensures { (hand marks : ℕ) → result ≡ tests.rest_zero (book_of used hand held.now marks) }
{
    let mut zero = true;
    for &x in &held[used as usize..32] {
        zero = zero & (x == 0);
    }
    zero
}

// "hand is 0 while b < a, else hand < a"
pub fn hand_right(a: u32, used: u32, hand: u32) -> bool
    ensures { (held : List ℕ) (marks : ℕ) → result ≡ tests.hand_right a (book_of used hand held marks) }
{
    if used < a {
        return hand == 0;
    }
    hand < a
}

// "marks of unused frames are clear"
pub fn marks_right(used: u32, marks: u32) -> bool
    requires { used ≤ 32 }
    ensures { (hand : ℕ) (held : List ℕ) → result ≡ tests.marks_right (book_of used hand held marks) }
{
    (marks as u64) < (1u64 << used)
}
