// What a genotype text means: alleles, each a number or missing, with its phasing, the step that finds one of them, and a row of them
// in three slices.

#![tactic(auto)]

pub mod allele;
pub mod row;
pub mod step;
