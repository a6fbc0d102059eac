// How many genotypes there are.
ghost use Rattle.std.specs.Prelude.{◌≡◌, ◌≤◌};
ghost use Rattle.numbering.specs.Closed.{how_many};
ghost use Rattle.numbering.specs.Answers.{limits};
ghost use Rattle.numbering.specs.Inner.{Shapes};
ghost use Rattle.numbering.specs.Promises.{CountsGenotypes};

use crate::shape::Shape;

// 23: no ploidy of 1 to 8, no allele count of 1 to 64, or no genotype of them.
#[derive(Clone, Copy, Debug, PartialEq, Eq)]
pub struct NoGenotype;

// Whether the ploidy and the allele count are within their limits.
#[tactic(auto, unfolding(crate::specs::Answers::limits))]
pub(crate) fn within_limits(ploidy: u64, alleles: u64) -> bool
    ensures { result ≡ limits ploidy alleles }
{
    matches!((ploidy, alleles), (1..=8, 1..=64))
}

impl Shape {
    // Of a ploidy and an allele count within their limits.
    pub(crate) fn new(ploidy: u64, alleles: u64) -> Result<Shape, NoGenotype>
        ensures { Shapes ploidy alleles result }
    {
        if !within_limits(ploidy, alleles) {
            return Err(NoGenotype);
        }
        Ok(Shape {
            ploidy: ploidy as usize,
            alleles: alleles as usize,
        })
    }

    // How many genotypes there are: the binomial (alleles + ploidy - 1 over ploidy), a product over a product.
    pub(crate) fn count(self) -> u64
        ensures { result ≡ how_many self.ploidy self.alleles }
    {
        let mut over: u64 = 1;
        let mut under: u64 = 1;
        for i in 0..self.ploidy {
            over *= (self.alleles + i) as u64;
            under *= (1 + i) as u64;
        }
        over / under
    }

    // How many of them have none but the first so many alleles.
    pub(crate) fn below(self, alleles: usize) -> u64
        requires { alleles ≤ self.alleles }
        ensures { result ≡ how_many self.ploidy alleles }
    {
        let fewer = Shape {
            ploidy: self.ploidy,
            alleles,
        };
        fewer.count()
    }
}

// How many genotypes there are: the number of likelihood columns.
pub fn count_of(ploidy: u64, alleles: u64) -> Result<u64, NoGenotype>
    ensures { CountsGenotypes ploidy alleles result }
{
    let shape = Shape::new(ploidy, alleles)?;
    Ok(shape.count())
}
