// A text as a list of the pieces between separators.

#![tactic(auto)]

pub mod block;
pub mod count;
pub mod either;
pub mod nth;
pub mod step;
