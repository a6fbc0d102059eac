// Reading into a row that is passed by value and given back, for callers that have none to lend.
ghost use Rattle.own.specs.Read.{ReadsOwn, ReadsOwnChecked};

use allele::allele::Allele;
use alleles::read::{read_alleles, read_alleles_checked};
use genotype::read::ReadError;

// A row after reading into it, and the answer.
#[derive(Clone, Copy)]
pub struct Filled {
    pub answer: Result<usize, ReadError>,
    pub row: [Allele; 64],
}

// Reads a genotype into the records from `from` on, none where `from` is 64 or more.
pub fn read_own(text: &[u8], mut row: [Allele; 64], from: usize) -> Filled
    ensures { ReadsOwn text.now row from result }
{
    let answer = read_alleles(text, &mut row[from.min(64)..]);
    Filled { answer, row }
}

// The same, for a genotype whose alleles an ALT column must have.
pub fn read_own_checked(text: &[u8], alt: &[u8], mut row: [Allele; 64], from: usize) -> Filled
    ensures { ReadsOwnChecked text.now alt.now row from result }
{
    let answer = read_alleles_checked(text, alt, &mut row[from.min(64)..]);
    Filled { answer, row }
}
