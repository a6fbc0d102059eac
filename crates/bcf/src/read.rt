// Reading a vector into three slices of one length.
ghost use Rattle.std.specs.Prelude.{◌≡◌, ◌≤◌, length, drop};
ghost use Rattle.text.specs.Pick.{one_if};
ghost use Rattle.genotype.specs.Inner.{Laid};
ghost use Rattle.bcf.specs.Reading.{allele_by, entries_in, codes_in, list_read, only_padding, ReadsVector, ReadsTold};
ghost use Rattle.bcf.specs.Inner.{Fillable};
ghost use Rattle.bcf.specs.Demands.{Bytes};

use crate::width::Width;

// Why a vector is not read.
#[derive(Clone, Copy, Debug, PartialEq, Eq)]
pub enum ReadError {
    // 27: no entry has so many bytes.
    Unknown,
    // 16: the slices' lengths differ.
    Lengths,
    // 26: the bytes are no vector.
    Bad,
    // 17: the row is too short.
    Short,
}

// How many codes stand before the first entry that is negative.
fn count_codes(width: Width, bytes: &[u8]) -> usize
    ensures value { result ≡ length (codes_in width (entries_in width bytes.now)) }
    ensures bytes { Bytes bytes.now }
{
    let entries = width.whole_in(bytes.len());
    let negative = width.negative();
    for i in 0..entries {
        if width.entry_at(bytes, i) >= negative {
            return i;
        }
    }
    entries
}

// Whether all entries from `from` on are padding.
fn all_padding(width: Width, bytes: &[u8], from: usize) -> bool
    requires { from ≤ length (entries_in width bytes.now) }
    ensures { result ≡ only_padding width (drop from (entries_in width bytes.now)) }
{
    let entries = width.whole_in(bytes.len());
    let padding = width.padding();
    for i in from..entries {
        if width.entry_at(bytes, i) != padding {
            return false;
        }
    }
    true
}

fn number_of(code: u64) -> u64
    ensures { result ≡ (allele_by code).number }
{
    (code / 2).saturating_sub(1)
}

fn missing_of(code: u64) -> u8
    ensures { result ≡ one_if (allele_by code).missing }
{
    u8::from(code < 2)
}

fn phased_of(code: u64) -> u8
    ensures { result ≡ one_if (allele_by code).phased }
{
    u8::from(code % 2 == 1)
}

// Lays the alleles of the first `count` entries, which are codes, over the slices.
// Kept: the three slices travel through two functions only, and as a `RowMut` each would promise besides that they stay the same
// slices, which is no plainer.
fn fill(
    width: Width,
    bytes: &[u8],
    count: usize,
    numbers: &mut [u64],
    missing: &mut [u8],
    phased: &mut [u8],
)
    requires { Fillable width (entries_in width bytes.now) count numbers.old missing.old phased.old }
    ensures { Laid (list_read width bytes.now) numbers.old missing.old phased.old numbers.new missing.new phased.new }
{
    for k in 0..count {
        let code = width.entry_at(bytes, k);
        numbers[k] = number_of(code);
        missing[k] = missing_of(code);
        phased[k] = phased_of(code);
    }
}

// Reads a vector whose width is known.
fn read_known(
    width: Width,
    bytes: &[u8],
    numbers: &mut [u64],
    missing: &mut [u8],
    phased: &mut [u8],
) -> Result<usize, ReadError>
    ensures { ReadsVector width bytes.now numbers.old missing.old phased.old result numbers.new missing.new phased.new }
{
    if numbers.len() != missing.len() || numbers.len() != phased.len() {
        return Err(ReadError::Lengths);
    }
    if width.left_over(bytes.len()) != 0 {
        return Err(ReadError::Bad);
    }
    let count = count_codes(width, bytes);
    if count == 0 || !all_padding(width, bytes, count) {
        return Err(ReadError::Bad);
    }
    if count > numbers.len() {
        return Err(ReadError::Short);
    }
    fill(width, bytes, count, numbers, missing, phased);
    Ok(count)
}

// Reads a vector whose entries have `width` bytes each, and returns how many alleles it has. Only what is read changes the slices, and
// only their first entries, one for each allele.
pub fn read_vector(
    bytes: &[u8],
    width: usize,
    numbers: &mut [u64],
    missing: &mut [u8],
    phased: &mut [u8],
) -> Result<usize, ReadError>
    ensures { ReadsTold width bytes.now numbers.old missing.old phased.old result numbers.new missing.new phased.new }
{
    match width {
        1 => read_known(Width::W8, bytes, numbers, missing, phased),
        2 => read_known(Width::W16, bytes, numbers, missing, phased),
        4 => read_known(Width::W32, bytes, numbers, missing, phased),
        _ => Err(ReadError::Unknown),
    }
}
