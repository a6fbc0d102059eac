// A whole text judged, and its alleles laid over slices on the way.
ghost use Rattle.allele.specs.Slices.{SameSlices};
ghost use Rattle.genotype.specs.Inner.{LaysIn};

use crate::read::ReadError;
use allele::row::RowMut;
use allele::step::{NoAllele, step_at};

// How many alleles a text has, and a number that none of them is above.
#[derive(Clone, Copy)]
pub(crate) struct Whole {
    pub(crate) count: usize,
    pub(crate) most: u64,
}

// Judges the whole text: how many alleles it has, 11, or 12 at the first that is none. The row is left with its alleles where it is a
// list that it holds, else with what was laid until then.
pub(crate) fn lay(text: &[u8], row: &mut RowMut) -> Result<Whole, ReadError>
    ensures same_slices { SameSlices row.old row.new }
    ensures lays { LaysIn text.now row.old result row.new }
{
    if text.is_empty() {
        return Err(ReadError::Empty);
    }
    let mut at = 0;
    let mut whole = Whole { count: 0, most: 0 };
    while at < text.len() {
        match step_at(text, at) {
            Ok((allele, next)) => {
                row.store(whole.count, allele);
                whole.count += 1;
                whole.most = whole.most.max(allele.number);
                at = next;
            }
            Err(no_allele) => {
                let NoAllele::Bad(fault) = no_allele else {
                    return Ok(whole);
                };
                return Err(ReadError::Bad(whole.count, fault));
            }
        }
    }
    Ok(whole)
}
