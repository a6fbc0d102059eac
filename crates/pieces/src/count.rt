// Counting a byte, and the pieces between separators.
ghost use Rattle.std.specs.Prelude.{◌≡◌};
ghost use Rattle.pieces.specs.Inner.{ShortPart, CountsPart};
ghost use Rattle.pieces.specs.Promises.{CountsByte, CountsPieces};

// How often the byte `b` stands in a part of `s` that is so short that 8 bits hold the count, so that 16 bytes can be counted
// at once.
fn count_part(s: &[u8], b: u8, from: usize, end: usize) -> u8
    requires { ShortPart s.now from end }
    ensures { CountsPart b s.now from end result }
{
    let mut n = 0;
    for i in from..end {
        n += u8::from(s[i] == b);
    }
    n
}

// How often the byte `b` stands in `s`.
pub fn count_byte(s: &[u8], b: u8) -> usize
    ensures { CountsByte b s.now result }
{
    // Kept: parts by their places; over `chunks(192)` the code is no shorter, and the parts would have to be joined to the text again.
    let mut count = 0;
    let mut i = 0;
    while s.len() - i > 192 {
        count += usize::from(count_part(s, b, i, i + 192));
        i += 192;
    }
    count + usize::from(count_part(s, b, i, s.len()))
}

// How many pieces a text has: none where it is empty, else its separators plus one.
pub fn count_pieces(s: &[u8], separator: u8) -> usize
    ensures { CountsPieces separator s.now result }
{
    if s.is_empty() {
        return 0;
    }
    count_byte(s, separator) + 1
}
