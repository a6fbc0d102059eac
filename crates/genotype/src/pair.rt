// A genotype of three bytes, as most are: two alleles of one byte each, with a mark between. No branch goes by a byte that can't be
// foretold, as which mark it is, or whether an allele is missing.
ghost use Rattle.std.specs.Prelude.{◌≡◌, ◌≤◌, true, length};
ghost use Rattle.allele.specs.Slices.{SameSlices};
ghost use Rattle.genotype.specs.Inner.{NoneAbove, LaidIn, is_body, Pair, FindsPair, KnowsPair, byte_worth, pair_of};

use crate::above::has_allele;
use allele::row::RowMut;
use allele::step::is_mark;

// Whether a byte is an allele by itself.
fn is_body(b: u8) -> bool
    ensures { result ≡ is_body b }
{
    (b == b'.') | b.is_ascii_digit()
}

// Whether a text is such a pair, and a row of `room` records holds it.
pub(crate) fn is_pair(text: &[u8], room: usize) -> bool
    ensures { FindsPair text.now room result }
{
    room >= 2 && text.len() == 3 && (is_body(text[0]) & is_mark(text[1]) & is_body(text[2]))
}

// The number of the allele that is this byte.
fn worth(b: u8) -> u64
    requires { is_body b ≡ true }
    ensures { result ≡ byte_worth b }
{
    if b == b'.' { 0 } else { u64::from(b - b'0') }
}

// A number that neither allele is above.
fn pair_most(text: &[u8]) -> u64
    requires { Pair text.now }
    ensures { NoneAbove (pair_of text.now) result }
{
    worth(text[0]).max(worth(text[2]))
}

// Whether it is one, and an ALT column has both alleles.
pub(crate) fn is_known_pair(text: &[u8], alt: &[u8], room: usize) -> bool
    ensures { KnowsPair text.now alt.now room result }
{
    is_pair(text, room) && has_allele(alt, pair_most(text))
}

// Lays the two over the row.
pub(crate) fn put_pair(text: &[u8], row: &mut RowMut)
    requires pair { Pair text.now }
    requires room { 2 ≤ length row.old.numbers.now }
    ensures same_slices { SameSlices row.old row.new }
    ensures laid { LaidIn (pair_of text.now) row.old row.new }
{
    let first = text[0];
    let second = text[2];
    let mark = u8::from(text[1] == b'|');
    row.numbers[0] = worth(first);
    row.numbers[1] = worth(second);
    row.missing[0] = u8::from(first == b'.');
    row.missing[1] = u8::from(second == b'.');
    row.phased[0] = mark;
    row.phased[1] = mark;
}
