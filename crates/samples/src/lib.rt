// The sample columns of a line, their subfields, and the keys of FORMAT.

#![tactic(auto)]

pub mod columns;
pub mod keys;
