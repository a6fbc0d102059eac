// One line of VCF: where it ends, and its reader.

#![tactic(auto)]

mod ending;
pub mod extent;
mod flags;
pub mod read;
mod runs;
mod scan;
