// Rows of allele records that are passed by value, for callers that have none to lend: the functions of `alleles` over the records
// from a place on.

#![tactic(auto)]

pub mod read;
pub mod write;
