// Reads cases from standard input, one a line, and prints one answer line for each.

#![tactic(auto)]

mod case_words;
mod genotypes;
mod infos;
mod input;
mod joining;
mod leaves;
mod lines;
mod numbers;
mod output;
mod parts;
mod rows;
mod sampling;
mod spellings;
mod turning;
mod vectors;
mod verbs;

use output::Buffer;
use std::io;

fn main(rt: HostRuntime) -> io::Result<()> {
    let mut bytes = [0u8; 65536];
    let mut line = [0u8; 65536];
    let mut text = [0u8; 32768];
    let mut out = Buffer::new(rt.stdout());
    input::answer_all(&mut rt.stdin(), &mut bytes, &mut line, &mut text, &mut out)
}
