// Genotypes: read into three slices of one length, a number, a missing mark and a phasing for each allele, and written from them.
// Readers write 0 or 1 for a mark or a phasing; the writer takes any number but 0 as 1.
ghost use Rattle.std.specs.Prelude.{Ok};
ghost use Rattle.allele.specs.Paper.{step_paper};
ghost use Rattle.genotype.specs.Paper.{read_paper};
ghost use Rattle.spelling.specs.Paper.{write_paper};
ghost use Rattle.exports.specs.Told.{Tells};
ghost use Rattle.exports.specs.Promises.{TakesGenotypeStep, JudgesGenotype, JudgesChecked, ReadsGenotype, ReadsChecked, WritesGenotype};

use crate::told::{VALUES, tell};
use allele::allele::Allele;
use allele::step::{NoAllele, step_at};
use genotype::read::{ReadError, judge, judge_checked, read_checked, read_genotype};
use spelling::write::{WriteError, write_genotype};

// The next place, and the allele's number, missing mark and phasing.
fn tell_allele(allele: Allele, next: usize, values: &mut [u64; VALUES]) -> u64
    ensures { Tells (step_paper (Ok (allele, next))) values.old result values.new }
{
    let number = allele.number as usize;
    let missing = usize::from(allele.missing);
    let phased = usize::from(allele.phased);
    tell(0, &[next, number, missing, phased], values)
}

fn tell_step(step: Result<(Allele, usize), NoAllele>, values: &mut [u64; VALUES]) -> u64
    ensures { Tells (step_paper step) values.old result values.new }
{
    match step {
        Ok((allele, next)) => tell_allele(allele, next, values),
        Err(NoAllele::Beyond) => tell(6, &[], values),
        Err(NoAllele::Nothing) => tell(10, &[], values),
        Err(NoAllele::Empty) => tell(11, &[], values),
        Err(NoAllele::Bad(fault)) => tell(12, &[fault], values),
    }
}

// The allele at the place `at`, as the first of the text from there on: 0, 6, 10, 11 or 12. Four values at most: the next place, and
// the allele's number, missing mark and phasing; or with 12 the place, in the text, of the byte at fault.
#[unsafe(no_mangle)]
pub extern "C" fn bruncadorza_genotype_step(
    text: &[u8],
    at: usize,
    values: &mut [u64; VALUES],
) -> u64
    ensures { TakesGenotypeStep text.now at values.old result values.new }
{
    tell_step(step_at(text, at), values)
}

fn tell_read(read: Result<usize, ReadError>, values: &mut [u64; VALUES]) -> u64
    ensures { Tells (read_paper read) values.old result values.new }
{
    match read {
        Ok(n) => tell(0, &[n], values),
        Err(ReadError::Empty) => tell(11, &[], values),
        Err(ReadError::Bad(k, fault)) => tell(12, &[k, fault], values),
        Err(ReadError::Lengths) => tell(16, &[], values),
        Err(ReadError::Short) => tell(17, &[], values),
        Err(ReadError::Above(k)) => tell(20, &[k], values),
    }
}

// What reading the text into slices of the length `room` answers: 0, 11, 12 or 17. Two values at most: how many alleles there are,
// or with 12 the index of the first piece that is none, and then the place, in the text, of the byte at fault.
#[unsafe(no_mangle)]
pub extern "C" fn bruncadorza_genotype_judge(
    text: &[u8],
    room: usize,
    values: &mut [u64; VALUES],
) -> u64
    ensures { JudgesGenotype text.now room values.old result values.new }
{
    tell_read(judge(text, room), values)
}

// The same where no allele may be above the count of an ALT column: also 20, with the index of the first that is.
#[unsafe(no_mangle)]
pub extern "C" fn bruncadorza_genotype_judge_checked(
    text: &[u8],
    alt: &[u8],
    room: usize,
    values: &mut [u64; VALUES],
) -> u64
    ensures { JudgesChecked text.now alt.now room values.old result values.new }
{
    tell_read(judge_checked(text, alt, room), values)
}

// Reads a genotype: 0, 11, 12, 16 where the slices' lengths differ, or 17 where they are too short. Two values at most: how many
// alleles were read, or with 12 the index of the first piece that is none, and then the place, in the text, of the byte at fault.
// Only 0 changes the slices, and only their first entries.
#[unsafe(no_mangle)]
pub extern "C" fn bruncadorza_read_genotype(
    text: &[u8],
    numbers: &mut [u64],
    missing: &mut [u8],
    phased: &mut [u8],
    values: &mut [u64; VALUES],
) -> u64
    ensures { ReadsGenotype text.now numbers.old missing.old phased.old values.old result numbers.new missing.new phased.new values.new }
{
    tell_read(read_genotype(text, numbers, missing, phased), values)
}

// The same for a genotype whose alleles an ALT column must have: also 20, with the index of the first that it has not.
#[unsafe(no_mangle)]
pub extern "C" fn bruncadorza_read_genotype_checked(
    text: &[u8],
    alt: &[u8],
    numbers: &mut [u64],
    missing: &mut [u8],
    phased: &mut [u8],
    values: &mut [u64; VALUES],
) -> u64
    ensures { ReadsChecked text.now alt.now numbers.old missing.old phased.old values.old result numbers.new missing.new phased.new values.new }
{
    tell_read(read_checked(text, alt, numbers, missing, phased), values)
}

fn tell_write(write: Result<usize, WriteError>, values: &mut [u64; VALUES]) -> u64
    ensures { Tells (write_paper write) values.old result values.new }
{
    match write {
        Ok(n) => tell(0, &[n], values),
        Err(WriteError::Beyond) => tell(6, &[], values),
        Err(WriteError::Empty) => tell(11, &[], values),
        Err(WriteError::Bad(k)) => tell(12, &[k], values),
        Err(WriteError::Phasing) => tell(13, &[], values),
        Err(WriteError::Lengths) => tell(16, &[], values),
        Err(WriteError::Short) => tell(17, &[], values),
    }
}

// Writes the shortest spelling that the file format `major`.`minor` permits, from the place `at` of the output on: 0, 6, 11, 12,
// 13, 16 or 17. One value at most: how many bytes were written, or with 12 the index of the allele. Only 0 changes the output.
#[unsafe(no_mangle)]
pub extern "C" fn bruncadorza_write_genotype(
    numbers: &[u64],
    missing: &[u8],
    phased: &[u8],
    major: u32,
    minor: u32,
    out: &mut [u8],
    at: usize,
    values: &mut [u64; VALUES],
) -> u64
    ensures { WritesGenotype numbers.now missing.now phased.now major minor out.old at values.old result out.new values.new }
{
    tell_write(
        write_genotype(numbers, missing, phased, major, minor, out, at),
        values,
    )
}
