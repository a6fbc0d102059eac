// The two forms of a line's record, and the way from each to the other.

#![tactic(auto)]

pub mod made;
pub mod turn;
pub mod wide;
