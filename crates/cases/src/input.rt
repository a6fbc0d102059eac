// Standard input as lines, each answered once it has ended.
use crate::case_words::Text;
use crate::output::Buffer;
use crate::parts::{first, part, text_at};
use crate::verbs::{answer, refuse};
use pieces::step::{Piece, piece_at};
use std::io;
use std::io::Read;

const LONGEST: usize = 65536;

type Line = [u8; LONGEST];

// Room for what one read gives.
type Chunk = [u8; 65536];

// Puts bytes into the line behind those that it has: how many it has then. None is a line that is
// longer than LONGEST.
fn lengthen(line: &mut Line, len: Option<usize>, s: &[u8]) -> Option<usize> {
    let from = len?;
    let end = from.checked_add(s.len())?;
    if end > LONGEST {
        return None;
    }
    line[from..end].copy_from_slice(s);
    Some(end)
}

fn end_line(line: &Line, len: Option<usize>, text: &mut Text, out: &mut Buffer) {
    match len {
        Some(n) => answer(first(line, n), text, out),
        None => refuse(out),
    }
}

// Answers each line that ends in these bytes: how many bytes the line after them has so far.
fn take_bytes(
    bytes: &[u8],
    line: &mut Line,
    begun: Option<usize>,
    text: &mut Text,
    out: &mut Buffer,
) -> Option<usize> {
    let mut len = begun;
    // Kept: by `position` each byte of a long line is looked at by itself.
    let mut from = 0;
    while let Ok(Piece::More(range, next)) = piece_at(bytes, b'\n', from) {
        len = lengthen(line, len, text_at(bytes, range));
        end_line(line, len, text, out);
        len = Some(0);
        from = next;
    }
    lengthen(line, len, part(bytes, from, bytes.len()))
}

// A last line with no LF is a line all the same.
fn finish(line: &Line, len: Option<usize>, text: &mut Text, out: &mut Buffer) -> io::Result<()> {
    if len != Some(0) {
        end_line(line, len, text, out);
    }
    out.flush()
}

// Where a read fails, the line that it cut is left unanswered. A proved loop has to end, and nothing says that the input does: so the
// loop takes a number of turns that no run uses up.
pub fn answer_all<R: Read>(
    input: &mut R,
    bytes: &mut Chunk,
    line: &mut Line,
    text: &mut Text,
    out: &mut Buffer,
) -> io::Result<()> {
    let mut len = Some(0);
    for _ in 0..u64::MAX {
        match input.read(bytes) {
            Ok(0) => return finish(line, len, text, out),
            Ok(n) => {
                len = take_bytes(first(bytes, n), line, len, text, out);
                out.written()?;
            }
            Err(e) => {
                out.flush()?;
                return Err(e);
            }
        }
    }
    Ok(())
}
