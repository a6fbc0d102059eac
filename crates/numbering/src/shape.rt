// Which genotypes are counted. The methods stand in counts.rt, since their contracts name definitions that name the struct.
ghost use Rattle.std.specs.Prelude.{◌≤◌};

// A ploidy and an allele count, no more than are numbered.
#[derive(Clone, Copy)]
pub(crate) struct Shape {
    pub(crate) ploidy: usize,
    pub(crate) alleles: usize,
    ghost few: { ploidy ≤ 8 },
    ghost most: { alleles ≤ 64 },
}
