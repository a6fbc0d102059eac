// Blocks of 64 bytes passed over, one behind the other.
ghost use Rattle.std.specs.Prelude.{ℕ, ◌+◌, ◌≤◌, length};
ghost use Rattle.line.specs.Scan.{Passes};

// Past blocks that pass a test, which is given where a block starts.
pub(crate) fn past64<F: Fn(usize) -> bool>(s: &[u8], at: usize, test: F) -> usize
    requires in_bounds { at ≤ length s.now }
    requires callable { (i : ℕ) → at ≤ i → i + 64 ≤ length s.now → F.pre test i }
    ensures { Passes (F.post test) s.now at result }
{
    // Kept: where the blocks end is the answer, and the test is asked at a place; a chain over chunks would add up the place again.
    let mut i = at;
    while s.len() - i >= 64 {
        if test(i) {
            i += 64;
        } else {
            return i;
        }
    }
    i
}
