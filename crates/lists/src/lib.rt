// The list columns, FILTER and ALT: a judge of one entry for each, one writer for both, and the ALT count.

#![tactic(auto)]

pub mod alternate_bases;
pub mod filters;
pub mod write;
