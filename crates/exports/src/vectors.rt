// Genotypes in BCF: a vector of entries of 8, 16 or 32 bits, read into three slices of one length and written from them. The slices
// are as for a genotype text.
ghost use Rattle.bcf.specs.Paper.{read_paper, write_paper};
ghost use Rattle.exports.specs.Told.{Tells};
ghost use Rattle.exports.specs.Promises.{ReadsVector, WritesVector};

use crate::told::{VALUES, tell};
use bcf::read::{ReadError, read_vector};
use bcf::write::{Vector, WriteError, write_vector};

fn tell_read(read: Result<usize, ReadError>, values: &mut [u64; VALUES]) -> u64
    ensures { Tells (read_paper read) values.old result values.new }
{
    match read {
        Ok(n) => tell(0, &[n], values),
        Err(ReadError::Unknown) => tell(27, &[], values),
        Err(ReadError::Lengths) => tell(16, &[], values),
        Err(ReadError::Bad) => tell(26, &[], values),
        Err(ReadError::Short) => tell(17, &[], values),
    }
}

// Reads a vector whose entries have `width` bytes each: 0, 27 where the width is not 1, 2 or 4, 16 where the slices' lengths
// differ, 26 where the bytes are no vector, or 17 where the slices are too short. One value at most: how many alleles were read.
// Only 0 changes the slices, and only their first entries.
#[unsafe(no_mangle)]
pub extern "C" fn bruncadorza_read_vector(
    bytes: &[u8],
    width: usize,
    numbers: &mut [u64],
    missing: &mut [u8],
    phased: &mut [u8],
    values: &mut [u64; VALUES],
) -> u64
    ensures { ReadsVector bytes.now width numbers.old missing.old phased.old values.old result numbers.new missing.new phased.new values.new }
{
    tell_read(read_vector(bytes, width, numbers, missing, phased), values)
}

fn tell_write(write: Result<Vector, WriteError>, values: &mut [u64; VALUES]) -> u64
    ensures { Tells (write_paper write) values.old result values.new }
{
    match write {
        Ok(vector) => tell(0, &[vector.width, vector.len], values),
        Err(WriteError::Beyond) => tell(6, &[], values),
        Err(WriteError::Lengths) => tell(16, &[], values),
        Err(WriteError::Empty) => tell(11, &[], values),
        Err(WriteError::Bad(k)) => tell(12, &[k], values),
        Err(WriteError::Large) => tell(24, &[], values),
        Err(WriteError::Long) => tell(25, &[], values),
        Err(WriteError::Short) => tell(17, &[], values),
    }
}

// Writes the vector of so many entries, of the smallest width that holds every allele, from the place `at` of the output on: 0, 6,
// 11, 12, 16, 17, 24 where an allele is above 1,073,741,822, or 25 where the list is longer than the vector. Values: with 0 how
// many bytes an entry has and how many were written, with 12 the index of the allele. Only 0 changes the output.
#[unsafe(no_mangle)]
pub extern "C" fn bruncadorza_write_vector(
    numbers: &[u64],
    missing: &[u8],
    phased: &[u8],
    entries: usize,
    out: &mut [u8],
    at: usize,
    values: &mut [u64; VALUES],
) -> u64
    ensures { WritesVector numbers.now missing.now phased.now entries out.old at values.old result out.new values.new }
{
    tell_write(
        write_vector(numbers, missing, phased, entries, out, at),
        values,
    )
}
