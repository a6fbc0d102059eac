// All of vcflist but its reads and writes: what is to be read or written next, the turns over a window of the input, the lines that
// are printed, and the window's rest kept for the next read.

#![tactic(auto)]

pub mod ask;
pub mod drive;
pub mod keep;
pub mod print;
pub mod turn;
