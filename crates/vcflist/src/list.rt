// The listing of an input: what `ask_next` asks for is done, and nothing else.
use crate::input::{Held, fill};
use listing::ask::{Ask, ask_next};
use listing::drive::State;
use std::io;
use std::io::{Read, Write};

// Writes out the first `len` bytes, and answers whether there are so many.
fn write_out<W: Write>(output: &mut W, out: &[u8], len: usize) -> io::Result<bool> {
    let Some(bytes) = out.get(..len) else {
        return Ok(false);
    };
    output.write_all(bytes)?;
    Ok(true)
}

// A proved loop has to end, and nothing says that the input does: so the loop takes a number of turns that no run uses up.
// After a failed read what was listed stays, and only the last line is missing.
pub fn list_all<R: Read, W: Write>(
    input: &mut R,
    output: &mut W,
    buffer: &mut [u8],
    out: &mut [u8],
) -> io::Result<()> {
    let mut held = Held {
        end: 0,
        last: Ok(false),
    };
    let mut state = State::first();
    for _ in 0..u64::MAX {
        let last = matches!(held.last, Ok(true));
        let Ok(ask) = ask_next(buffer, held.end, last, state, out) else {
            return Ok(());
        };
        match ask {
            Ask::Read(kept, next) => {
                if let Err(e) = held.last {
                    write_out(output, out, next.put)?;
                    return Err(e);
                }
                held = fill(input, buffer, kept);
                state = next;
            }
            Ask::Write(len, next) => {
                if !write_out(output, out, len)? {
                    return Ok(());
                }
                state = next;
            }
            Ask::Last(len) => {
                write_out(output, out, len)?;
                return Ok(());
            }
        }
    }
    Ok(())
}
