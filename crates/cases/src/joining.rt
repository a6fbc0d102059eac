// The verbs of the crates join and lists: those that write entries, given as one text and their
// ends, and the ALT count.
ghost use Rattle.std.specs.Prelude.{◌<◌};

use crate::case_words::{MOST, ROOM, Text, ending, hex, numbers, place, size, word};
use crate::output::{Buffer, Said};
use crate::parts::front;
use join::columns::{JoinError, join};
use lists::alternate_bases::{alt_count, write_alts};
use lists::filters::write_filters;
use lists::write::WriteError;
use record::ending::Ending;

pub fn answer(case: &[u8], arguments: usize, text: &mut Text, out: &mut Buffer) -> Option<()> {
    match (word(case, 0), arguments) {
        (b"join", 5) => answer_writer(case, Writer::Columns(ending(case, 3)?), 4, text, out)?,
        (b"filters", 4) => answer_writer(case, Writer::Filters, 3, text, out)?,
        (b"alts", 4) => answer_writer(case, Writer::Alts, 3, text, out)?,
        (b"altcount", 1) => out.put_number(alt_count(hex(case, 1, text)?) as u64),
        _ => return None,
    }
    Some(())
}

// What writes a list: `join` with its ending, `filters` or `alts`.
#[derive(Clone, Copy)]
enum Writer {
    Columns(Ending),
    Filters,
    Alts,
}

// A verb that writes. Word k is the text of its list, and the word after it the ends.
fn answer_writer(
    case: &[u8],
    writer: Writer,
    k: usize,
    text: &mut Text,
    out: &mut Buffer,
) -> Option<()>
    requires { k < 65536 }
{
    let mut row = [0usize; MOST];
    let mut space = [0xEEu8; ROOM];
    let s = hex(case, k, text)?;
    let ends = numbers(case, k + 1, &mut row)?;
    let lent = front(&mut space, size(case, 1, ROOM)?);
    let from = place(case, 2)?;
    out.put_said(written(writer, s, ends, lent, from));
    out.then_hex(lent);
    Some(())
}

fn written(writer: Writer, s: &[u8], ends: &[usize], lent: &mut [u8], from: usize) -> Said {
    match writer {
        Writer::Columns(ending) => joined(join(s, ends, ending, lent, from)),
        Writer::Filters => listed(write_filters(s, ends, lent, from), 14),
        Writer::Alts => listed(write_alts(s, ends, lent, from), 15),
    }
}

fn joined(joined: Result<usize, JoinError>) -> Said {
    match joined {
        Ok(len) => Said::With(0, len as u64),
        Err(JoinError::NotUtf8(index)) => Said::With(5, index as u64),
        Err(JoinError::Beyond) => Said::Alone(6),
        Err(JoinError::Wrong) => Said::Alone(16),
        Err(JoinError::Short) => Said::Alone(17),
        Err(JoinError::Bad(index)) => Said::With(18, index as u64),
        Err(JoinError::Few) => Said::Alone(19),
    }
}

// With the number of an invalid entry.
fn listed(write: Result<usize, WriteError>, invalid: u64) -> Said {
    match write {
        Ok(len) => Said::With(0, len as u64),
        Err(WriteError::NotUtf8(index)) => Said::With(5, index as u64),
        Err(WriteError::Beyond) => Said::Alone(6),
        Err(WriteError::Invalid(index)) => Said::With(invalid, index as u64),
        Err(WriteError::Wrong) => Said::Alone(16),
        Err(WriteError::Short) => Said::Alone(17),
    }
}
