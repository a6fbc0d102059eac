// Passing over bytes by blocks of 64, each gone through to its end, so that it can be compared as a whole.
ghost use Rattle.std.specs.Prelude.{◌+◌, ◌≤◌, length};
ghost use Rattle.text.specs.Flags.{Neither, Tells};
ghost use Rattle.pieces.specs.Inner.{Seeking};

// Whether none of the 64 bytes from the place `at` on is a or b.
fn is_quiet(s: &[u8], a: u8, b: u8, at: usize) -> bool
    requires { at + 64 ≤ length s.now }
    ensures { Tells (Neither a b) s.now at result }
{
    let mut hits = 0;
    for i in 0..64 {
        let x = s[at + i];
        hits = hits | u8::from(x == a) | u8::from(x == b);
    }
    hits == 0
}

// The place past the blocks of 64 bytes from `at` on that hold neither a nor b.
pub(crate) fn past_quiet(s: &[u8], a: u8, b: u8, at: usize) -> usize
    ensures { Seeking a b s.now at result }
{
    if at > s.len() {
        return at;
    }
    // Kept: where the blocks end is the answer, which a chain over chunks would have to add up again.
    let mut i = at;
    while s.len() - i >= 64 && is_quiet(s, a, b, i) {
        i += 64;
    }
    i
}
