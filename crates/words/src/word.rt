// The first of one byte of a text from a place on: by words of eight bytes at first, with no branch on which of them it is, and
// then by blocks.
ghost use Rattle.std.specs.Prelude.{◌≡◌, ◌/◌};
ghost use Rattle.std.specs.Int.Count.{count_trailing_zeros};
ghost use Rattle.pieces.specs.Promises.{FindsEither};
ghost use Rattle.words.specs.Word.{marks_of};

use pieces::either::{find_either, near_end};

// 128 in the place of each of these bytes that is b, and 0 in that of each other: a byte x of `others` is 0 exactly where x % 128
// + 127 and x are both below 128, and no place carries into the next.
fn marks(bytes: &[u8; 8], b: u8) -> u64
    ensures { result ≡ marks_of b bytes.now }
{
    let others = u64::from_le_bytes(*bytes) ^ (u64::from(b) * 0x0101010101010101);
    let high = ((others & 0x7f7f7f7f7f7f7f7f) + 0x7f7f7f7f7f7f7f7f) | others;
    !high & 0x8080808080808080
}

// How many bytes stand below the lowest mark.
fn below(marks: u64) -> usize
    ensures { result ≡ count_trailing_zeros 64 marks / 8 }
{
    (marks.trailing_zeros() / 8) as usize
}

// The first place from `from` on where b stands, or the text's end. A place beyond the text is answered as it is.
pub fn find_byte(s: &[u8], b: u8, from: usize) -> usize
    ensures { FindsEither b b s.now from result }
{
    if from > s.len() {
        return from;
    }
    let near = near_end(from, s.len());
    // Kept: the place of the word is part of the answer.
    let mut i = from;
    while let Some((bytes, _)) = s[i..near].split_first_chunk() {
        let marks = marks(bytes, b);
        if marks != 0 {
            return i + below(marks);
        }
        i += 8;
    }
    find_either(s, b, b, i)
}
