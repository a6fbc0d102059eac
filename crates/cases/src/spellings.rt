// The verbs of the genotype writer over parallel slices.
use crate::case_words::{
    ROOM, between, count_parts, number, number_of, part_from, place, size, word, words_from,
};
use crate::genotypes::ROW;
use crate::output::{Buffer, Said};
use crate::parts::{first, front};
use pieces::count::count_byte;
use spelling::write::{WriteError, write_genotype};

pub fn answer(case: &[u8], arguments: usize, out: &mut Buffer) -> Option<()> {
    match word(case, 0) {
        b"writeunequal" if arguments == 4 => answer_unequal(case, out),
        b"write" if arguments >= 5 => answer_write(case, out),
        _ => None,
    }
}

// Three slices of zeros, at 4.4.
fn answer_unequal(case: &[u8], out: &mut Buffer) -> Option<()> {
    let n = size(case, 1, ROW)?;
    let m = size(case, 2, ROW)?;
    let p = size(case, 3, ROW)?;
    let size = size(case, 4, ROOM)?;
    let format = Format { major: 4, minor: 4 };
    let numbers = [0u64; ROW];
    let marks = [0u8; ROW];
    write(
        first(&numbers, n),
        first(&marks, m),
        first(&marks, p),
        format,
        Room { size, from: 0 },
        out,
    );
    Some(())
}

// A file format.
#[derive(Clone, Copy)]
pub struct Format {
    pub major: u32,
    pub minor: u32,
}

// The size of the output that is lent, and the place in it.
#[derive(Clone, Copy)]
pub struct Room {
    pub size: usize,
    pub from: usize,
}

fn write(
    numbers: &[u64],
    missing: &[u8],
    phased: &[u8],
    format: Format,
    room: Room,
    out: &mut Buffer,
) {
    let mut space = [0xEEu8; ROOM];
    let lent = front(&mut space, room.size);
    let write = write_genotype(
        numbers,
        missing,
        phased,
        format.major,
        format.minor,
        lent,
        room.from,
    );
    out.put_said(said(write));
    out.then_hex(lent);
}

pub fn said(write: Result<usize, WriteError>) -> Said {
    match write {
        Ok(len) => Said::With(0, len as u64),
        Err(WriteError::Beyond) => Said::Alone(6),
        Err(WriteError::Empty) => Said::Alone(11),
        Err(WriteError::Bad(k)) => Said::With(12, k as u64),
        Err(WriteError::Phasing) => Said::Alone(13),
        Err(WriteError::Lengths) => Said::Alone(16),
        Err(WriteError::Short) => Said::Alone(17),
    }
}

// What stands before the alleles of a case: the file format, and the room.
pub fn terms(case: &[u8]) -> Option<(Format, Room)> {
    let major = u32::try_from(number(case, 1)?).ok()?;
    let minor = u32::try_from(number(case, 2)?).ok()?;
    Some((Format { major, minor }, room_of(words_from(case, 3))?))
}

// What the first two words lend: the room and the place.
pub fn room_of(words: &[u8]) -> Option<Room> {
    Some(Room {
        size: size(words, 0, ROOM)?,
        from: place(words, 1)?,
    })
}

pub type Numbers = [u64; ROW];

pub type Marks = [u8; ROW];

fn answer_write(case: &[u8], out: &mut Buffer) -> Option<()> {
    let (format, room) = terms(case)?;
    let mut numbers = [0u64; ROW];
    let mut missing = [0u8; ROW];
    let mut phased = [0u8; ROW];
    let n = list(words_from(case, 5), &mut numbers, &mut missing, &mut phased)?;
    write(
        first(&numbers, n),
        first(&missing, n),
        first(&phased, n),
        format,
        room,
        out,
    );
    Some(())
}

// An allele as an argument: a number and two marks.
pub fn allele_of(s: &[u8]) -> Option<(u64, u64, u64)> {
    if count_byte(s, b':') != 2 {
        return None;
    }
    Some((
        number_of(between(s, b':', 0))?,
        number_of(between(s, b':', 1))?,
        number_of(between(s, b':', 2))?,
    ))
}

// The words, an allele each, put into slices: how many alleles there are, `-` alone being none.
pub fn list(
    words: &[u8],
    numbers: &mut Numbers,
    missing: &mut Marks,
    phased: &mut Marks,
) -> Option<usize> {
    if words == b"-".as_slice() {
        return Some(0);
    }
    let n = count_parts(words, b' ')?;
    let mut at = 0;
    for k in 0..n {
        let (s, next) = part_from(words, b' ', at)?;
        let (number, absent, joined) = allele_of(s)?;
        *numbers.get_mut(k)? = number;
        *missing.get_mut(k)? = u8::try_from(absent).ok()?;
        *phased.get_mut(k)? = u8::try_from(joined).ok()?;
        at = next;
    }
    Some(n)
}
