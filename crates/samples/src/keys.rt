// The keys of FORMAT are its pieces between colons.
ghost use Rattle.samples.specs.Inner.{ReadsKey};
ghost use Rattle.samples.specs.Promises.{FindsKey};

use pieces::step::{Piece, piece_at};
use text::range::Range;
use text::same::same_bytes;

// The key that starts at the place `at`, and where the next one starts, if one follows.
fn key_at(format: &[u8], at: usize) -> Option<(Range, Option<usize>)>
    ensures { ReadsKey format.now at result }
{
    match piece_at(format, b':', at) {
        Ok(Piece::More(range, next)) => Some((range, Some(next))),
        Ok(Piece::Last(range)) => Some((range, None)),
        Err(_) => None,
    }
}

// The index of the first key that is equal, from 0; none where no key is.
pub fn key_index(format: &[u8], key: &[u8]) -> Option<usize>
    ensures { FindsKey format.now key.now result }
{
    // Kept: i counts the keys that the steps find; the place moves by what they find.
    let mut at = 0;
    let mut i = 0;
    loop {
        let (range, next) = key_at(format, at)?;
        let end = range.start + range.len;
        if same_bytes(&format[range.start..end], key) {
            return Some(i);
        }
        at = next?;
        i += 1;
    }
}
