// Writing a list of alleles, that comes as three slices of one length, as a vector of the smallest width that holds it.
ghost use Rattle.std.specs.Prelude.{◌≡◌, ◌≤◌, ◌<◌, ◌-◌, ◌*◌, ◌/◌, length, replicate, map};
ghost use Rattle.text.specs.Over.{over, over_at};
ghost use Rattle.spelling.specs.Row.{list_of};
ghost use Rattle.bcf.specs.Layout.{size, padding, code_of, bytes_of};
ghost use Rattle.bcf.specs.Writing.{most_of, WritesVector};
ghost use Rattle.bcf.specs.Inner.{TellsSound, JudgesRow, WritesEntries, WritesSized, WritesList};

use crate::width::Width;
use allele::allele::Allele;
use spelling::row::Row;

// A vector that was written: entries of so many bytes each, and so many bytes in all.
#[derive(Clone, Copy, Debug, PartialEq, Eq)]
pub struct Vector {
    pub width: usize,
    pub len: usize,
}

// Why a list is not written.
#[derive(Clone, Copy, Debug, PartialEq, Eq)]
pub enum WriteError {
    // 6: the place lies beyond the output.
    Beyond,
    // 16: the slices' lengths differ.
    Lengths,
    // 11: the list is empty.
    Empty,
    // 12: the allele with this index is missing and has a number.
    Bad(usize),
    // 24: an allele is too large for every width.
    Large,
    // 25: the list is longer than the vector.
    Long,
    // 17: the vector does not fit.
    Short,
}

// Whether an allele is not missing, or has the number 0.
fn is_sound(number: u64, missing: u8) -> bool
    ensures { TellsSound number missing result }
{
    missing == 0 || number == 0
}

// Judges a list in one pass: its largest number, or 12. Its phasings don't matter.
fn judge(numbers: &[u64], missing: &[u8]) -> Result<u64, WriteError>
    requires { length numbers.now ≡ length missing.now }
    ensures { JudgesRow numbers.now missing.now result }
{
    let mut most = 0;
    for k in 0..numbers.len() {
        if !is_sound(numbers[k], missing[k]) {
            return Err(WriteError::Bad(k));
        }
        most = numbers[k].max(most);
    }
    Ok(most)
}

// The code of an allele whose number can be shifted.
fn code_of(a: Allele) -> u64
    requires { a.number < 9223372036854775807 }
    ensures { result ≡ code_of a }
{
    let mark = u64::from(a.phased);
    if a.missing {
        mark
    } else {
        2 * (a.number + 1) + mark
    }
}

// Writes the codes at the start of the output.
fn put_codes(width: Width, row: Row, out: &mut [u8])
    requires small { most_of (list_of row) < 9223372036854775807 }
    requires room { length (list_of row) ≤ length out.old / size width }
    ensures { out.new ≡ over (bytes_of width (map code_of (list_of row.entry))) out.old }
{
    for k in 0..row.len() {
        width.put_entry(code_of(row.at(k)), out, k);
    }
}

// Writes padding from one entry up to another.
fn put_padding(width: Width, out: &mut [u8], from: usize, to: usize)
    requires from_le_to { from ≤ to }
    requires to_in_bounds { to ≤ length out.old / size width }
    ensures { out.new ≡ over_at (from * size width) (bytes_of width (replicate (to - from) (padding width))) out.old }
{
    let padding = width.padding();
    for i in from..to {
        width.put_entry(padding, out, i);
    }
}

// Writes the vector of so many entries, of this width, at the start of the output.
fn write_by(width: Width, row: Row, entries: usize, out: &mut [u8]) -> Result<Vector, WriteError>
    requires { most_of (list_of row) < 9223372036854775807 }
    ensures { WritesEntries width entries (list_of row.entry) out.old result out.new }
{
    let count = row.len();
    if count > entries {
        return Err(WriteError::Long);
    }
    if entries > width.whole_in(out.len()) {
        return Err(WriteError::Short);
    }
    put_codes(width, row, out);
    put_padding(width, out, count, entries);
    let size = width.size();
    Ok(Vector {
        width: size,
        len: entries * size,
    })
}

// Writes the vector of so many entries at the start of the output. The list is sound, and `most` is its largest number.
fn write_sound(row: Row, most: u64, entries: usize, out: &mut [u8]) -> Result<Vector, WriteError>
    requires { most ≡ most_of (list_of row) }
    ensures { WritesSized entries (list_of row.entry) out.old result out.new }
{
    if most > 1073741822 {
        return Err(WriteError::Large);
    }
    write_by(Width::holding(most), row, entries, out)
}

// Writes the vector of so many entries at the start of the output.
fn write_rest(row: Row, entries: usize, out: &mut [u8]) -> Result<Vector, WriteError>
    ensures { WritesList entries (list_of row.entry) out.old result out.new }
{
    if row.len() == 0 {
        return Err(WriteError::Empty);
    }
    let most = judge(row.numbers, row.missing)?;
    write_sound(row, most, entries, out)
}

// Writes the vector of so many entries, of the smallest width that holds every allele, from the place `at` on.
pub fn write_vector(
    numbers: &[u64],
    missing: &[u8],
    phased: &[u8],
    entries: usize,
    out: &mut [u8],
    at: usize,
) -> Result<Vector, WriteError>
    ensures { WritesVector numbers.now missing.now phased.now entries out.old at result out.new }
{
    if at > out.len() {
        return Err(WriteError::Beyond);
    }
    let Some(row) = Row::new(numbers, missing, phased) else {
        return Err(WriteError::Lengths);
    };
    write_rest(row, entries, &mut out[at..])
}
