// One sample's genotype as a vector of integers, as BCF stores it.

#![tactic(auto)]

mod entry;
pub mod read;
pub mod width;
pub mod write;
