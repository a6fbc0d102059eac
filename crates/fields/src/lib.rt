// The text of each field of a line, and POS.

#![tactic(auto)]

pub mod field;
pub mod pos;
