// The alleles that an ALT column has not.
ghost use Rattle.std.specs.Prelude.{◌≡◌, ◌≤◌, leb};
ghost use Rattle.lists.specs.AlternateBases.{alt_count};
ghost use Rattle.allele.specs.Reading.{reading_of, list_of};
ghost use Rattle.genotype.specs.Answers.{first_above};
ghost use Rattle.genotype.specs.Inner.{ListMeant, NoneAbove, above_paper};

use allele::step::step_at;
use lists::alternate_bases::alt_count;

// The first allele whose number is above a count.
fn find_above(text: &[u8], count: u64) -> Option<usize>
    requires { ListMeant text.now }
    ensures { above_paper result ≡ first_above count 0 (list_of (reading_of text.now)) }
{
    // Kept: k counts the alleles that the steps find; the place moves by what they find.
    let mut at = 0;
    let mut k = 0;
    while let Ok((allele, next)) = step_at(text, at) {
        if allele.number > count {
            return Some(k);
        }
        at = next;
        k += 1;
    }
    None
}

// At least so many alleles an ALT column has, told without a count.
fn least_alts(alt: &[u8]) -> u64
    ensures { result ≤ alt_count alt.now }
{
    if alt.is_empty() || alt == b".".as_slice() {
        return 0;
    }
    1
}

// Whether an ALT column has the allele with this number. It is counted only where that needs a count.
pub(crate) fn has_allele(alt: &[u8], number: u64) -> bool
    ensures { result ≡ leb number (alt_count alt.now) }
{
    number <= least_alts(alt) || number <= alt_count(alt) as u64
}

// The first allele that ALT has not, where no number is above `most`.
pub(crate) fn find_beyond(text: &[u8], alt: &[u8], most: u64) -> Option<usize>
    requires list_meant { ListMeant text.now }
    requires none_above { NoneAbove (list_of (reading_of text.now)) most }
    ensures { above_paper result ≡ first_above (alt_count alt.now) 0 (list_of (reading_of text.now)) }
{
    if has_allele(alt, most) {
        return None;
    }
    let count = alt_count(alt);
    find_above(text, count as u64)
}
