// Writing a genotype: the one shortest permitted spelling of a list of alleles.

#![tactic(auto)]

pub mod put;
pub mod row;
pub mod tally;
pub mod write;
