// Lists the lines of a VCF file: reads standard input, and prints a line of findings for each line that it reads.

#![tactic(auto)]

mod input;
mod list;

use std::io;

// Of the first buffer no more than 65,536 bytes are ever kept, so there is room to read on; and in the second there is room for
// each line (theorem `AsksInRoom`).
fn main(rt: HostRuntime) -> io::Result<()> {
    let mut buffer = [0u8; 262144];
    let mut out = [0u8; 65536];
    list::list_all(&mut rt.stdin(), &mut rt.stdout(), &mut buffer, &mut out)
}
