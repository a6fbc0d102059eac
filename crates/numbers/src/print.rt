// What the program writes out.
use crate::row::{RowError, put_row};
use decimal::print::print_decimal;
use std::io;
use std::io::Write;

// Prints a number and LF.
pub fn print_one<W: Write>(output: &mut W, number: u64) -> io::Result<()> {
    let mut out = [0u8; 20];
    let Ok(len) = print_decimal(number, &mut out) else {
        return Ok(());
    };
    output.write_all(&out[..len])?;
    output.write_all(b"\n")
}

// Prints the lines of the first `count` genotypes, which are all there are. They are gathered, and written out where the next has no
// room. Each of these numbers has a line, and an empty output has room for it (theorem `RowsFit`): the other answers do not come.
pub fn print_all<W: Write>(
    output: &mut W,
    ploidy: u64,
    alleles: u64,
    count: u64,
) -> io::Result<()> {
    let mut out = [0u8; 65536];
    let mut held = 0;
    // Kept: a line that has no room is tried again, so the number does not go on at each turn.
    let mut number = 0;
    while number < count {
        match put_row(number, ploidy, alleles, &mut out, held) {
            Ok(len) => {
                held += len;
                number += 1;
            }
            Err(RowError::Full) if held > 0 => {
                output.write_all(&out[..held])?;
                held = 0;
            }
            Err(_) => return Ok(()),
        }
    }
    output.write_all(&out[..held])
}
