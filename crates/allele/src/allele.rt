// One allele of a genotype. A missing one has the number 0.
#[derive(Clone, Copy)]
pub struct Allele {
    pub number: u64,
    pub missing: bool,
    pub phased: bool,
}
