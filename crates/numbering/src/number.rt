// The number of a genotype.
ghost use Rattle.std.specs.Prelude.{◌≡◌, ◌≤◌, length, take};
ghost use Rattle.numbering.specs.Closed.{closed_sum};
ghost use Rattle.numbering.specs.Demands.{Genotype};
ghost use Rattle.numbering.specs.Inner.{never_falls, is_genotype};
ghost use Rattle.numbering.specs.Promises.{NumbersGenotype};

use crate::counts::{NoGenotype, within_limits};
use crate::shape::Shape;

// Whether the alleles never fall, and are each one of so many.
fn never_falls(genotype: &[u64], alleles: u64) -> bool
    ensures { result ≡ never_falls 0 alleles genotype.now }
{
    let mut low = 0;
    for &k in genotype {
        if k < low || k >= alleles {
            return false;
        }
        low = k;
    }
    true
}

// Whether these are a genotype of so many alleles, the ploidy and the allele count within their limits.
fn is_genotype(genotype: &[u64], alleles: u64) -> bool
    ensures { result ≡ is_genotype alleles genotype.now }
{
    within_limits(genotype.len() as u64, alleles) && never_falls(genotype, alleles)
}

// The number of the first alleles: that of one allele less, and the count of the genotypes whose last allele is lower.
fn number_to(genotype: &[u64], ploidy: usize) -> u64
    requires genotype { Genotype (length genotype.now) 64 genotype.now }
    requires genotype_len_bound { length genotype.now ≤ 8 }
    requires ploidy_in_bounds { ploidy ≤ length genotype.now }
    ensures { result ≡ closed_sum (take ploidy genotype.now) }
{
    if ploidy == 0 {
        return 0;
    }
    let below = Shape {
        ploidy,
        alleles: genotype[ploidy - 1] as usize,
    };
    number_to(genotype, ploidy - 1) + below.count()
}

// The number of a genotype, its index in the order of all genotypes of its ploidy.
pub fn number_of(genotype: &[u64], alleles: u64) -> Result<u64, NoGenotype>
    ensures { NumbersGenotype genotype.now alleles result }
{
    if !is_genotype(genotype, alleles) {
        return Err(NoGenotype);
    }
    Ok(number_to(genotype, genotype.len()))
}
