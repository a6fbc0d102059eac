// The record of a line: how it ended, and the place of each of its fields.

#![tactic(auto)]

pub mod ending;
pub mod place;
