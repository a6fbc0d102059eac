// Reading a genotype: a text of alleles, each a number or missing, with its phasing.

#![tactic(auto)]

mod above;
mod lay;
mod pair;
pub mod read;
