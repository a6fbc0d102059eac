// The verbs of the crate numbering.
ghost use Rattle.std.specs.Prelude.{◌<◌};

use crate::case_words::{MOST, number, numbers, size, word};
use crate::output::{Buffer, Said};
use crate::parts::{first, front};
use numbering::counts::{NoGenotype, count_of};
use numbering::genotype::{FillError, genotype_of};
use numbering::list::list_all;
use numbering::number::number_of;

// The most numbers of a genotype that is given.
const GENOTYPE: usize = 64;

// The most numbers of a row that is lent.
const ROW: usize = 4096;

pub fn answer(case: &[u8], arguments: usize, out: &mut Buffer) -> Option<()> {
    match (word(case, 0), arguments) {
        (b"number", 2) => {
            let mut row = [0usize; MOST];
            let genotype = numbers(case, 2, &mut row)?;
            if genotype.len() > GENOTYPE {
                return None;
            }
            out.put_said(said(number_first(genotype, number(case, 1)?)));
        }
        (b"genotype", 4) => answer_row(case, Some(number(case, 1)?), 2, out)?,
        (b"genotypes", 3) => answer_row(case, None, 1, out)?,
        (b"genotypecount", 2) => out.put_said(said(count_of(number(case, 1)?, number(case, 2)?))),
        _ => return None,
    }
    Some(())
}

// The number of a genotype of 64 alleles at most.
fn number_first(genotype: &[usize], alleles: u64) -> Result<u64, NoGenotype> {
    let mut wide = [0u64; GENOTYPE];
    for (to, n) in wide.iter_mut().zip(genotype) {
        *to = *n as u64;
    }
    number_of(first(&wide, genotype.len()), alleles)
}

fn said(numbered: Result<u64, NoGenotype>) -> Said {
    filled_said(numbered.map_err(FillError::from))
}

// A verb that fills a row, with the genotype of a number or with all of them. From word k on it has
// the ploidy, the allele count and the row's length.
fn answer_row(case: &[u8], index: Option<u64>, k: usize, out: &mut Buffer) -> Option<()>
    requires { k < 65536 }
{
    let ploidy = number(case, k)?;
    let alleles = number(case, k + 1)?;
    let mut row = [7u64; ROW];
    let lent = front(&mut row, size(case, k + 2, ROW)?);
    let filled = match index {
        Some(index) => genotype_of(index, ploidy, alleles, lent),
        None => list_all(ploidy, alleles, lent),
    };
    out.put_said(filled_said(filled));
    out.then_numbers(lent);
    Some(())
}

fn filled_said(filled: Result<u64, FillError>) -> Said {
    match filled {
        Ok(n) => Said::With(0, n),
        Err(FillError::Short) => Said::Alone(17),
        Err(FillError::NoGenotype) => Said::Alone(23),
    }
}
