// The pieces of a text between separators, one step from a place at a time.
ghost use Rattle.std.specs.Prelude.{◌≤◌, length};
ghost use Rattle.pieces.specs.Promises.{FindsEither, FindsPiece};

use crate::either::{find_either, near_end};
use text::range::Range;

// A piece of a text, and whether another follows.
#[derive(Clone, Copy)]
pub enum Piece {
    // 0: a piece that a separator ends, and the place past that separator.
    More(Range, usize),
    // 0: the last piece.
    Last(Range),
}

// Why no piece starts at a place.
#[derive(Clone, Copy, Debug, PartialEq, Eq)]
pub enum NoPiece {
    // 10: the text is empty and holds no piece.
    Nothing,
    // 6: the place lies beyond the text.
    Beyond,
}

// Where the piece that starts at `from` ends: at the first separator, or at the text's end.
fn piece_end(s: &[u8], separator: u8, from: usize) -> usize
    requires { from ≤ length s.now }
    ensures { FindsEither separator separator s.now from result }
{
    let near = near_end(from, s.len());
    for i in from..near {
        if s[i] == separator {
            return i;
        }
    }
    find_either(s, separator, separator, near)
}

// The piece that starts at the place `at`.
pub fn piece_at(s: &[u8], separator: u8, at: usize) -> Result<Piece, NoPiece>
    ensures { FindsPiece separator s.now at result }
{
    if at > s.len() {
        return Err(NoPiece::Beyond);
    }
    if s.is_empty() {
        return Err(NoPiece::Nothing);
    }
    let end = piece_end(s, separator, at);
    let range = Range {
        start: at,
        len: end - at,
    };
    if end == s.len() {
        Ok(Piece::Last(range))
    } else {
        Ok(Piece::More(range, end + 1))
    }
}
