// Genotypes in rows of allele records: the readers and the writer over slices of structs, by the definitions of `genotype`
// and `spelling`. The work is done by functions over plain values; each function over a row is one loop over such a step, or passes
// the row on.

#![tactic(auto)]

pub mod read;
pub mod write;
