// Joining columns to a line: tabs between, and an ending.

#![tactic(auto)]

mod column;
pub mod columns;
pub mod put;
pub mod simple;
