// The INFO column: its entries one step at a time, an entry by its key, and how many it claims.

#![tactic(auto)]

pub mod count;
pub mod find;
pub mod reader;
pub mod step;
