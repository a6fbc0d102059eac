// What every crate above shares: places in a text, bytes copied into lent output, and what a text
// is as characters.

#![tactic(auto)]

pub mod copy;
pub mod range;
pub mod same;
pub mod space;
pub mod utf8;
