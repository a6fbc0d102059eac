// All genotypes in the order of their numbers.
ghost use Rattle.std.specs.Prelude.{◌≡◌, ◌≤◌, ◌<◌, ◌+◌, length};
ghost use Rattle.text.specs.Over.{over_at};
ghost use Rattle.numbering.specs.Promises.{ListsAll};
ghost use Rattle.numbering.specs.Inner.{BlockFits, Listed};

use crate::genotype::FillError;
use crate::shape::Shape;

// Writes a genotype from the place `at` on, and returns the place past it.
fn put_one(current: &[u64], row: &mut [u64], at: usize) -> usize
    requires { at + length current.now ≤ length row.old }
    ensures value { result ≡ at + length current.now }
    ensures row_after { row.new ≡ over_at at current.now row.old }
{
    // Kept: a loop, since `copy_from_slice` calls `memmove`, which the archive for C would need from outside.
    for i in 0..current.len() {
        row[at + i] = current[i];
    }
    at + current.len()
}

// Writes from the place `at` on each allele in turn, followed by what stands behind it in `current`, and returns the place past them.
fn put_first(alleles: usize, current: &mut [u64], row: &mut [u64], at: usize) -> usize
    requires { BlockFits 1 alleles current.old row.old at }
    ensures { Listed 1 alleles current.old row.old at result current.new row.new }
{
    let mut next = at;
    for a in 0..alleles {
        current[0] = a as u64;
        next = put_one(current, row, next);
    }
    next
}

// Writes from the place `at` on, for each allele in turn, the genotypes of one ploidy less over the alleles up to it, each followed by it
// and by what stands behind it in `current`. Returns the place past them.
fn put_all(ploidy: usize, alleles: usize, current: &mut [u64], row: &mut [u64], at: usize) -> usize
    requires ploidy_nonzero { 0 < ploidy }
    requires block_fits { BlockFits ploidy alleles current.old row.old at }
    ensures { Listed ploidy alleles current.old row.old at result current.new row.new }
{
    if ploidy == 1 {
        return put_first(alleles, current, row, at);
    }
    let mut next = at;
    for a in 0..alleles {
        current[ploidy - 1] = a as u64;
        next = put_all(ploidy - 1, a + 1, current, row, next);
    }
    next
}

// Writes all genotypes of a ploidy over so many alleles at the start of a row, one after the other, and answers how many there are.
pub fn list_all(ploidy: u64, alleles: u64, row: &mut [u64]) -> Result<u64, FillError>
    ensures { ListsAll ploidy alleles row.old result row.new }
{
    let shape = Shape::new(ploidy, alleles)?;
    let many = shape.count();
    if many * ploidy > row.len() as u64 {
        return Err(FillError::Short);
    }
    let mut current = [0u64; 8];
    put_all(
        shape.ploidy,
        shape.alleles,
        &mut current[..shape.ploidy],
        row,
        0,
    );
    Ok(many)
}
