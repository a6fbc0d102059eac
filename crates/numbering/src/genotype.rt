// The genotype of a number.
ghost use Rattle.std.specs.Prelude.{◌≡◌, [], ◌≤◌, ◌<◌, ◌+◌, length, get_or};
ghost use Rattle.text.specs.Over.{over};
ghost use Rattle.numbering.specs.Ordering.{ordering};
ghost use Rattle.numbering.specs.Closed.{how_many};
ghost use Rattle.numbering.specs.Promises.{PlacesGenotype};
ghost use Rattle.numbering.specs.declared.genotype.FillError.TheVariants.{NoGenotype};

use crate::counts::NoGenotype;
use crate::shape::Shape;

// Why a row of numbers is not filled.
#[derive(Clone, Copy, Debug, PartialEq, Eq)]
pub enum FillError {
    // 23: no ploidy of 1 to 8, no allele count of 1 to 64, or no number of a genotype of them.
    NoGenotype,
    // 17: the row is too short.
    Short,
}

impl From<NoGenotype> for FillError {
    ghost from_gives = { λ _ e. e ≡ NoGenotype };

    fn from(_e: NoGenotype) -> FillError {
        FillError::NoGenotype
    }
}

// The last allele of the genotype of a number: the greatest with no more genotypes below it than the number says.
fn last_of(number: u64, shape: Shape) -> usize
    requires ploidy_nonzero { 0 < shape.ploidy }
    requires number_bound { number < how_many shape.ploidy shape.alleles }
    ensures upper_bound { result < shape.alleles }
    ensures result_bound { how_many shape.ploidy result ≤ number }
    ensures number_bound_2 { number < how_many shape.ploidy (result + 1) }
{
    let mut a = shape.alleles;
    // Kept: the new form is no plainer, since `rev().find(..)` makes an Option that is never None.
    while shape.below(a) > number {
        a -= 1;
    }
    a
}

// Writes the genotype of a number, from the last allele to the first.
fn put_genotype(number: u64, shape: Shape, row: &mut [u64])
    requires number_bound { number < how_many shape.ploidy shape.alleles }
    requires ploidy_in_bounds { shape.ploidy ≤ length row.old }
    ensures { row.new ≡ over (get_or (ordering shape.ploidy shape.alleles) number []) row.old }
{
    if shape.ploidy == 0 {
        return;
    }
    let last = last_of(number, shape);
    row[shape.ploidy - 1] = last as u64;
    let rest = Shape {
        ploidy: shape.ploidy - 1,
        alleles: last + 1,
    };
    put_genotype(number - shape.below(last), rest, row);
}

// Writes the genotype of a number at the start of a row, and answers the ploidy.
pub fn genotype_of(
    number: u64,
    ploidy: u64,
    alleles: u64,
    row: &mut [u64],
) -> Result<u64, FillError>
    ensures { PlacesGenotype number ploidy alleles row.old result row.new }
{
    let shape = Shape::new(ploidy, alleles)?;
    if number >= shape.count() {
        return Err(FillError::NoGenotype);
    }
    if shape.ploidy > row.len() {
        return Err(FillError::Short);
    }
    put_genotype(number, shape, row);
    Ok(ploidy)
}
