// The verbs of the crate bcf.
use crate::case_words::{ROOM, Text, hex, place, size, word, words_from};
use crate::genotypes::{ROW, then_row};
use crate::output::{Buffer, Said};
use crate::parts::{first, front};
use crate::spellings::{list, room_of};
use bcf::read::{ReadError, read_vector};
use bcf::write::{Vector, WriteError, write_vector};

pub fn answer(case: &[u8], arguments: usize, text: &mut Text, out: &mut Buffer) -> Option<()> {
    match word(case, 0) {
        b"bcfread" if arguments == 3 => {
            let width = place(case, 1)?;
            let n = size(case, 2, ROW)?;
            read(hex(case, 3, text)?, width, n, out);
            Some(())
        }
        b"bcfwrite" if arguments >= 4 => answer_write(case, out),
        _ => None,
    }
}

fn read(s: &[u8], width: usize, n: usize, out: &mut Buffer) {
    let mut numbers = [7u64; ROW];
    let mut missing = [7u8; ROW];
    let mut phased = [7u8; ROW];
    let numbers = front(&mut numbers, n);
    let missing = front(&mut missing, n);
    let phased = front(&mut phased, n);
    out.put_said(read_said(read_vector(s, width, numbers, missing, phased)));
    then_row(numbers, missing, phased, out);
}

fn read_said(read: Result<usize, ReadError>) -> Said {
    match read {
        Ok(n) => Said::With(0, n as u64),
        Err(ReadError::Lengths) => Said::Alone(16),
        Err(ReadError::Short) => Said::Alone(17),
        Err(ReadError::Bad) => Said::Alone(26),
        Err(ReadError::Unknown) => Said::Alone(27),
    }
}

// The alleles stand behind the vector's length, the room and the place.
fn answer_write(case: &[u8], out: &mut Buffer) -> Option<()> {
    let entries = place(case, 1)?;
    let room = room_of(words_from(case, 2))?;
    let mut numbers = [0u64; ROW];
    let mut missing = [0u8; ROW];
    let mut phased = [0u8; ROW];
    let n = list(words_from(case, 4), &mut numbers, &mut missing, &mut phased)?;
    let mut space = [0xEEu8; ROOM];
    let lent = front(&mut space, room.size);
    let write = write_vector(
        first(&numbers, n),
        first(&missing, n),
        first(&phased, n),
        entries,
        lent,
        room.from,
    );
    out.put_said(write_said(write));
    out.then_hex(lent);
    Some(())
}

fn write_said(write: Result<Vector, WriteError>) -> Said {
    match write {
        Ok(Vector { width, len }) => Said::WithTwo(0, width as u64, len as u64),
        Err(WriteError::Beyond) => Said::Alone(6),
        Err(WriteError::Empty) => Said::Alone(11),
        Err(WriteError::Bad(k)) => Said::With(12, k as u64),
        Err(WriteError::Lengths) => Said::Alone(16),
        Err(WriteError::Short) => Said::Alone(17),
        Err(WriteError::Large) => Said::Alone(24),
        Err(WriteError::Long) => Said::Alone(25),
    }
}
