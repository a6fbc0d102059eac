// The input, read into a lent buffer behind what was kept of it.
ghost use Rattle.vcflist.specs.Fills.{Fills};

use std::io;
use std::io::Read;

// How many bytes the buffer holds; whether they are all that is left of the input, or the error of the read that failed.
#[derive(Clone, Copy)]
pub struct Held {
    pub end: usize,
    pub last: io::Result<bool>,
}

// Reads behind the first `kept` bytes until the buffer is full, the input ends or a read fails.
pub fn fill<R: Read>(input: &mut R, buffer: &mut [u8], kept: usize) -> Held
    ensures { Fills kept buffer.old result buffer.new }
{
    let mut end = kept;
    while end < buffer.len() {
        match input.read(&mut buffer[end..]) {
            Ok(0) => {
                return Held {
                    end,
                    last: Ok(true),
                };
            }
            Ok(n) => end += n,
            Err(e) => return Held { end, last: Err(e) },
        }
    }
    Held {
        end,
        last: Ok(false),
    }
}
