// A line, split in three plain steps.

#![tactic(auto)]

pub mod split;
