// The first of two bytes of a text from a place on: byte by byte at first, which a caller does in a loop of its own, and then by
// blocks.
ghost use Rattle.pieces.specs.Promises.{EndsNear, FindsEither};

use crate::block::past_quiet;

// Where the loop over the first bytes from `from` on ends: 32 bytes on, or at the text's end. Most columns and pieces end before.
pub fn near_end(from: usize, len: usize) -> usize
    ensures { EndsNear from len result }
{
    if len.saturating_sub(from) < 32 {
        return len;
    }
    from + 32
}

// The first place from `from` on where a or b stands, or the text's end. A place beyond the text is answered as it is.
pub fn find_either(s: &[u8], a: u8, b: u8, from: usize) -> usize
    ensures { FindsEither a b s.now from result }
{
    let near = past_quiet(s, a, b, from);
    for i in near..s.len() {
        if s[i] == a || s[i] == b {
            return i;
        }
    }
    near.max(s.len())
}
