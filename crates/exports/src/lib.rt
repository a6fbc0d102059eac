// Every entry for callers in C and Rust, over numbers, slices of numbers and arrays of numbers alone. Each returns the answer's
// number. Its values go to the lent `values`: first how many follow, then the values, so that an absent one is told from a
// present one. The arrays have room for more values than any answer has today.

#![tactic(auto)]

pub mod columns;
pub mod genotypes;
pub mod infos;
pub mod leaves;
pub mod lines;
pub mod numbers;
pub mod plain;
pub mod records;
pub mod sampling;
mod told;
pub mod vectors;
