// Genotypes by number. A genotype is its alleles, which never fall: ploidy 1 to 8, over 1 to 64 alleles.
ghost use Rattle.numbering.specs.Paper.{number_paper, filled_paper};
ghost use Rattle.exports.specs.Told.{Tells};
ghost use Rattle.exports.specs.Promises.{CountsGenotypes, NumbersGenotype, PlacesGenotype, ListsGenotypes};

use crate::told::{VALUES, tell};
use numbering::counts::{NoGenotype, count_of};
use numbering::genotype::{FillError, genotype_of};
use numbering::list::list_all;
use numbering::number::number_of;

fn tell_numbered(numbered: Result<u64, NoGenotype>, values: &mut [u64; VALUES]) -> u64
    ensures { Tells (number_paper numbered) values.old result values.new }
{
    match numbered {
        Ok(n) => tell(0, &[n as usize], values),
        Err(_) => tell(23, &[], values),
    }
}

// How many genotypes there are: 0, or 23 where the ploidy or the allele count is out of range. One value at most: how many.
#[unsafe(no_mangle)]
pub extern "C" fn bruncadorza_count_genotypes(
    ploidy: u64,
    alleles: u64,
    values: &mut [u64; VALUES],
) -> u64
    ensures { CountsGenotypes ploidy alleles values.old result values.new }
{
    tell_numbered(count_of(ploidy, alleles), values)
}

// The number of a genotype, whose ploidy is the slice's length: 0, or 23 where there is no such genotype. One value at most: the
// number.
#[unsafe(no_mangle)]
pub extern "C" fn bruncadorza_genotype_number(
    genotype: &[u64],
    alleles: u64,
    values: &mut [u64; VALUES],
) -> u64
    ensures { NumbersGenotype genotype.now alleles values.old result values.new }
{
    tell_numbered(number_of(genotype, alleles), values)
}

fn tell_filled(filled: Result<u64, FillError>, values: &mut [u64; VALUES]) -> u64
    ensures { Tells (filled_paper filled) values.old result values.new }
{
    match filled {
        Ok(n) => tell(0, &[n as usize], values),
        Err(FillError::NoGenotype) => tell(23, &[], values),
        Err(FillError::Short) => tell(17, &[], values),
    }
}

// Writes the genotype of a number at the start of a row: 0, 23 where there is none, or 17 where the row is too short. One value at
// most: the ploidy. Only 0 changes the row, and only its first entries.
#[unsafe(no_mangle)]
pub extern "C" fn bruncadorza_genotype_at(
    number: u64,
    ploidy: u64,
    alleles: u64,
    row: &mut [u64],
    values: &mut [u64; VALUES],
) -> u64
    ensures { PlacesGenotype number ploidy alleles row.old values.old result row.new values.new }
{
    tell_filled(genotype_of(number, ploidy, alleles, row), values)
}

// Writes all genotypes in the order of their numbers at the start of a row, as many entries for each as the ploidy says: 0, 23
// where the ploidy or the allele count is out of range, or 17 where the row is too short. One value at most: how many genotypes.
// Only 0 changes the row, and only its first entries.
#[unsafe(no_mangle)]
pub extern "C" fn bruncadorza_list_genotypes(
    ploidy: u64,
    alleles: u64,
    row: &mut [u64],
    values: &mut [u64; VALUES],
) -> u64
    ensures { ListsGenotypes ploidy alleles row.old values.old result row.new values.new }
{
    tell_filled(list_all(ploidy, alleles, row), values)
}
