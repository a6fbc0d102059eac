// Reading a genotype into a row of alleles.
ghost use Rattle.std.specs.Prelude.{◌≡◌, length};
ghost use Rattle.allele.specs.Reading.{reading_of, list_of};
ghost use Rattle.genotype.specs.Inner.{ListMeant};
ghost use Rattle.alleles.specs.Read.{ReadsRow, ReadsRowChecked};

use allele::allele::Allele;
use allele::step::step_at;
use genotype::read::{ReadError, judge, judge_checked};

// Lays the alleles of a text over a row of as many records.
fn fill(text: &[u8], row: &mut [Allele])
    requires meant { ListMeant text.now }
    requires as_many { length row.old ≡ length (list_of (reading_of text.now)) }
    ensures { row.new ≡ list_of (reading_of text.now) }
{
    let mut at = 0;
    for place in row.iter_mut() {
        let Ok((allele, next)) = step_at(text, at) else {
            return;
        };
        *place = allele;
        at = next;
    }
}

// Reads a genotype. Only an answer of 0 changes the row, and only its first records, one for each allele.
pub fn read_alleles(text: &[u8], row: &mut [Allele]) -> Result<usize, ReadError>
    ensures { ReadsRow text.now row.old result row.new }
{
    let count = judge(text, row.len())?;
    fill(text, &mut row[..count]);
    Ok(count)
}

// Reads a genotype whose alleles an ALT column must have.
pub fn read_alleles_checked(text: &[u8], alt: &[u8], row: &mut [Allele]) -> Result<usize, ReadError>
    ensures { ReadsRowChecked text.now alt.now row.old result row.new }
{
    let known = judge_checked(text, alt, row.len())?;
    fill(text, &mut row[..known]);
    Ok(known)
}
