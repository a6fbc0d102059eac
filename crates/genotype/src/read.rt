// Reading a whole genotype into three slices of one length: each allele's number, whether it is missing, and whether it is
// phased.
ghost use Rattle.std.specs.Prelude.{◌≡◌, ◌≤◌, length};
ghost use Rattle.text.specs.Over.{room_for};
ghost use Rattle.allele.specs.Reading.{reading_of, list_of};
ghost use Rattle.allele.specs.Slices.{SameSlices};
ghost use Rattle.genotype.specs.Answers.{text_answer, checked_text, one_length, ReadsText, ReadsChecked};
ghost use Rattle.genotype.specs.Promises.{Judges, JudgesChecked};
ghost use Rattle.genotype.specs.Paper.{read_paper};
ghost use Rattle.genotype.specs.Inner.{Judged, LaidIn, CopiesIn, KeptIn, Fillable, ReadsIn};

use crate::above::find_beyond;
use crate::lay::{Whole, lay};
use crate::pair::{is_known_pair, is_pair, put_pair};
use allele::row::RowMut;

// Why a genotype is not read.
#[derive(Clone, Copy, Debug, PartialEq, Eq)]
pub enum ReadError {
    // 11: the text is empty.
    Empty,
    // 12: the piece with this index is no allele. Then the place, in the text, of the byte at fault.
    Bad(usize, usize),
    // 16: the slices' lengths differ.
    Lengths,
    // 17: the row is too short.
    Short,
    // 20: the allele with this index is above the ALT count.
    Above(usize),
}

// So many alleles are kept while a text is judged. A longer list is read again.
const FEW: usize = 8;

// A text judged whole. What is laid of its alleles is let go.
fn judge_whole(text: &[u8]) -> Result<Whole, ReadError>
    ensures { Judged text.now result }
{
    let mut numbers = [0u64; 1];
    let mut missing = [0u8; 1];
    let mut phased = [0u8; 1];
    let mut row = RowMut {
        numbers: &mut numbers,
        missing: &mut missing,
        phased: &mut phased,
    };
    lay(text, &mut row)
}

// So many alleles, where the row holds them: room is judged last.
fn fitted(n: usize, room: usize) -> Result<usize, ReadError>
    ensures { read_paper result ≡ room_for n room }
{
    if n > room {
        return Err(ReadError::Short);
    }
    Ok(n)
}

// How many alleles are read from the text into a row of `room` records.
pub fn judge(text: &[u8], room: usize) -> Result<usize, ReadError>
    ensures { Judges text.now room result }
{
    let whole = judge_whole(text)?;
    fitted(whole.count, room)
}

// The same of a text judged whole, where no allele may be above the count of an ALT column.
fn check_whole(text: &[u8], whole: Whole, alt: &[u8], room: usize) -> Result<usize, ReadError>
    requires { Judged text.now (Ok whole) }
    ensures { JudgesChecked text.now alt.now room result }
{
    match find_beyond(text, alt, whole.most) {
        Some(k) => Err(ReadError::Above(k)),
        None => fitted(whole.count, room),
    }
}

// How many alleles are read from the text into a row of `room` records, where none may be above the count of an ALT column.
pub fn judge_checked(text: &[u8], alt: &[u8], room: usize) -> Result<usize, ReadError>
    ensures { JudgesChecked text.now alt.now room result }
{
    let whole = judge_whole(text)?;
    check_whole(text, whole, alt, room)
}

// Copies the first n alleles of a row that keeps them.
fn copy_row(n: usize, kept: &RowMut, row: &mut RowMut)
    requires kept { n ≤ length kept.now.numbers.now }
    requires room { n ≤ length row.old.numbers.now }
    ensures same_slices { SameSlices row.old row.new }
    ensures copies { CopiesIn n kept.now row.old row.new }
{
    for i in 0..n {
        row.numbers[i] = kept.numbers[i];
        row.missing[i] = kept.missing[i];
        row.phased[i] = kept.phased[i];
    }
}

// Lays the list of `count` alleles over a row: those that were kept, or, where they are more, by the text again.
fn fill(text: &[u8], count: usize, kept: &RowMut, row: &mut RowMut)
    requires kept { KeptIn text.now kept.now }
    requires fillable { Fillable text.now count (length row.old.numbers.now) }
    ensures same_slices { SameSlices row.old row.new }
    ensures laid { LaidIn (list_of (reading_of text.now)) row.old row.new }
{
    if count > FEW {
        let _again = lay(text, row);
        return;
    }
    copy_row(count, kept, row);
}

// Whether three lengths are one.
fn one_length(numbers: usize, missing: usize, phased: usize) -> bool
    ensures { result ≡ one_length numbers missing phased }
{
    numbers == missing && numbers == phased
}

// Any text, whose alleles are kept until it is judged.
fn read_list(text: &[u8], row: &mut RowMut) -> Result<usize, ReadError>
    ensures same_slices { SameSlices row.old row.new }
    ensures reads { ReadsIn (text_answer text.now (length row.old.numbers.now)) (list_of (reading_of text.now)) row.old result row.new }
{
    let mut worths = [0u64; FEW];
    let mut dots = [0u8; FEW];
    let mut bars = [0u8; FEW];
    let mut kept = RowMut {
        numbers: &mut worths,
        missing: &mut dots,
        phased: &mut bars,
    };
    let whole = lay(text, &mut kept)?;
    let count = fitted(whole.count, row.numbers.len())?;
    fill(text, count, &kept, row);
    Ok(count)
}

// The same, whose alleles an ALT column must have.
// Kept: tried, misses a speed bar: one reader for both, with the column as an Option, takes 8 to 14 % more instructions.
fn read_list_checked(text: &[u8], alt: &[u8], row: &mut RowMut) -> Result<usize, ReadError>
    ensures same_slices { SameSlices row.old row.new }
    ensures reads { ReadsIn (checked_text text.now alt.now (length row.old.numbers.now)) (list_of (reading_of text.now)) row.old result row.new }
{
    let mut worths = [0u64; FEW];
    let mut dots = [0u8; FEW];
    let mut bars = [0u8; FEW];
    let mut kept = RowMut {
        numbers: &mut worths,
        missing: &mut dots,
        phased: &mut bars,
    };
    let judged = lay(text, &mut kept)?;
    let count = check_whole(text, judged, alt, row.numbers.len())?;
    fill(text, count, &kept, row);
    Ok(count)
}

// Reads a genotype. Only an answer of 0 changes the slices, and only their first entries, one for each allele.
pub fn read_genotype(
    text: &[u8],
    numbers: &mut [u64],
    missing: &mut [u8],
    phased: &mut [u8],
) -> Result<usize, ReadError>
    ensures { ReadsText text.now numbers.old missing.old phased.old result numbers.new missing.new phased.new }
{
    if !one_length(numbers.len(), missing.len(), phased.len()) {
        return Err(ReadError::Lengths);
    }
    if is_pair(text, numbers.len()) {
        let mut row = RowMut {
            numbers,
            missing,
            phased,
        };
        put_pair(text, &mut row);
        return Ok(2);
    }
    let mut row = RowMut {
        numbers,
        missing,
        phased,
    };
    read_list(text, &mut row)
}

// Reads a genotype whose alleles an ALT column must have.
pub fn read_checked(
    text: &[u8],
    alt: &[u8],
    numbers: &mut [u64],
    missing: &mut [u8],
    phased: &mut [u8],
) -> Result<usize, ReadError>
    ensures { ReadsChecked text.now alt.now numbers.old missing.old phased.old result numbers.new missing.new phased.new }
{
    if !one_length(numbers.len(), missing.len(), phased.len()) {
        return Err(ReadError::Lengths);
    }
    if is_known_pair(text, alt, numbers.len()) {
        let mut row = RowMut {
            numbers,
            missing,
            phased,
        };
        put_pair(text, &mut row);
        return Ok(2);
    }
    let mut row = RowMut {
        numbers,
        missing,
        phased,
    };
    read_list_checked(text, alt, &mut row)
}
