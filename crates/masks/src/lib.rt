// Masks of 64 bytes: where two bytes stand among them, as the bits of a number.

#![tactic(auto)]

pub mod mask;
