// A piece of a text by its number.
ghost use Rattle.pieces.specs.Promises.{FindsNth};

use crate::step::{Piece, piece_at};
use text::range::Range;

// Where piece n stands, counted from 0. There may be not so many, which is 10.
pub fn piece_nth(s: &[u8], separator: u8, n: usize) -> Option<Range>
    ensures { FindsNth separator s.now n result }
{
    // Kept: one step for every piece, the one asked for among them. By a `for` over those before it and a step behind them, the
    // second piece of a short text takes half as long again.
    let mut at = 0;
    let mut left = n;
    loop {
        match piece_at(s, separator, at) {
            Ok(Piece::More(range, next)) => {
                if left == 0 {
                    return Some(range);
                }
                at = next;
                left -= 1;
            }
            Ok(Piece::Last(range)) => {
                if left == 0 {
                    return Some(range);
                }
                return None;
            }
            Err(_) => return None,
        }
    }
}
