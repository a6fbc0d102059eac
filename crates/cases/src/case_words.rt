// The words of a case, and its arguments as numbers, rows of numbers, endings and bytes. Where a word
// is none of what is asked for, the answer is None.
ghost use Rattle.std.specs.Prelude.{◌≤◌, ◌<◌, IfSome};

use crate::parts::{first, part, text_at};
use decimal::read::read_decimal;
use pieces::count::count_byte;
use pieces::nth::piece_nth;
use pieces::step::{Piece, piece_at};
use record::ending::Ending;

// The most bytes of output that a case may lend.
pub const ROOM: usize = 4096;

// As many bytes as every HEX of a case can have, with two digits for each.
const BYTES: usize = 32768;

pub type Text = [u8; BYTES];

// Part k of s between marks. It is empty where two marks meet, where s starts or ends with one, and
// where there are fewer parts. Kept: by `split` each byte of a long word is looked at by itself.
pub fn between(s: &[u8], mark: u8, k: usize) -> &[u8] {
    match piece_nth(s, mark, k) {
        Some(range) => text_at(s, range),
        None => &[],
    }
}

// The part that starts at a place, and where the next one starts, or the end of s.
pub fn part_from(s: &[u8], mark: u8, from: usize) -> Option<(&[u8], usize)> {
    match piece_at(s, mark, from) {
        Ok(Piece::More(range, next)) => Some((text_at(s, range), next)),
        Ok(Piece::Last(range)) => Some((text_at(s, range), s.len())),
        Err(_) => None,
    }
}

// How many parts there are, one of them where s is empty.
pub fn count_parts(s: &[u8], mark: u8) -> Option<usize> {
    count_byte(s, mark).checked_add(1)
}

// Word k of a case, its verb being word 0. No verb and no argument is empty.
pub fn word(case: &[u8], k: usize) -> &[u8] {
    between(case, b' ', k)
}

// The words of a case from word k on, which is word 0 of them.
pub fn words_from(case: &[u8], k: usize) -> &[u8] {
    match piece_nth(case, b' ', k) {
        Some(range) => part(case, range.start, case.len()),
        None => &[],
    }
}

// Word k of a case as a number.
pub fn number(case: &[u8], k: usize) -> Option<u64> {
    number_of(word(case, k))
}

// Word k of a case as a place in a text.
pub fn place(case: &[u8], k: usize) -> Option<usize> {
    Some(number(case, k)? as usize)
}

// Word k of a case as a size of at most `most`.
pub fn size(case: &[u8], k: usize, most: usize) -> Option<usize>
    ensures { IfSome result (λ n. n ≤ most) }
{
    let n = place(case, k)?;
    if n <= most { Some(n) } else { None }
}

// The reader takes a plus sign and leading zeros too, which a case may not have.
pub fn number_of(s: &[u8]) -> Option<u64> {
    match s {
        [] | [b'+', ..] | [b'0', _, ..] => None,
        _ => read_decimal(s).ok(),
    }
}

// The most numbers that a row of a case may have.
pub const MOST: usize = 1024;

pub type Row = [usize; MOST];

// Word k of a case as numbers joined by commas, `-` for none, put into a row from its start on.
pub fn numbers<'a>(case: &[u8], k: usize, row: &'a mut Row) -> Option<&'a [usize]> {
    let s = word(case, k);
    if s == b"-".as_slice() {
        return Some(&[]);
    }
    let n = count_parts(s, b',')?;
    let mut from = 0;
    for slot in row.get_mut(..n)? {
        let (part, next) = part_from(s, b',', from)?;
        *slot = number_of(part)? as usize;
        from = next;
    }
    Some(first(row, n))
}

// Word k of a case as an ending.
pub fn ending(case: &[u8], k: usize) -> Option<Ending> {
    let size = match word(case, k) {
        b"none" => 0,
        b"lf" => 1,
        b"crlf" => 2,
        _ => return None,
    };
    Some(Ending::by_size(size))
}

// The worth of a lower-case hex digit.
fn digit(b: u8) -> Option<u8>
    ensures { IfSome result (λ d. d < 16) }
{
    match b {
        b'0'..=b'9' => Some(b - b'0'),
        b'a'..=b'f' => Some(b - b'a' + 10),
        _ => None,
    }
}

// The byte that two hex digits make.
fn byte_of(high: u8, low: u8) -> Option<u8> {
    Some(digit(high)? * 16 + digit(low)?)
}

// Puts the bytes of word k, a HEX, into text from a place on: the place past them.
fn decode(case: &[u8], k: usize, text: &mut Text, from: usize) -> Option<usize> {
    match word(case, k) {
        [] => None,
        b"-" => Some(from),
        digits => decode_pairs(digits, text, from),
    }
}

fn decode_pairs(s: &[u8], text: &mut Text, from: usize) -> Option<usize> {
    let (pairs, []) = s.as_chunks::<2>() else {
        return None;
    };
    let end = from.checked_add(pairs.len())?;
    let room = text.get_mut(from..end)?;
    for (slot, [high, low]) in room.iter_mut().zip(pairs) {
        *slot = byte_of(*high, *low)?;
    }
    Some(end)
}

// The bytes of word k of a case, a HEX, put into text.
pub fn hex<'a>(case: &[u8], k: usize, text: &'a mut Text) -> Option<&'a [u8]> {
    let end = decode(case, k, text, 0)?;
    Some(first(text, end))
}

// The bytes of word k of a case and of the word after it, each a HEX, put into text one after the
// other.
pub fn two_hex<'a>(case: &[u8], k: usize, text: &'a mut Text) -> Option<(&'a [u8], &'a [u8])>
    requires { k < 65536 }
{
    let middle = decode(case, k, text, 0)?;
    let end = decode(case, k + 1, text, middle)?;
    Some((first(text, middle), part(text, middle, end)))
}
