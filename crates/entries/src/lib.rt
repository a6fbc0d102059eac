// A text as a list of the entries that their ends give.

#![tactic(auto)]

pub mod entries;
pub mod joined;
pub mod list;
