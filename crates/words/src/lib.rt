// The first of one byte of a text, by words of eight bytes.

#![tactic(auto)]

pub mod word;
