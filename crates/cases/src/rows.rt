// The verbs of rows of allele records, by the crate own: 64 records, of which a case uses the last.
use crate::case_words::{ROOM, Text, count_parts, hex, part_from, size, two_hex, word, words_from};
use crate::genotypes::{ROW, then_record};
use crate::output::Buffer;
use crate::parts::front;
use crate::spellings::{Format, Room, allele_of, terms};
use crate::{genotypes, spellings};
use allele::allele::Allele;
use own::read::{Filled, read_own, read_own_checked};
use own::write::write_own;

pub fn answer(case: &[u8], arguments: usize, text: &mut Text, out: &mut Buffer) -> Option<()> {
    match word(case, 0) {
        b"alleles" if arguments == 2 => {
            let from = ROW - size(case, 1, ROW)?;
            put_filled(read_own(hex(case, 2, text)?, blank(), from), from, out);
        }
        b"allelesalt" if arguments == 3 => {
            let from = ROW - size(case, 1, ROW)?;
            let (s, alt) = two_hex(case, 2, text)?;
            put_filled(read_own_checked(s, alt, blank(), from), from, out);
        }
        b"writealleles" if arguments >= 5 => {
            let (format, room) = terms(case)?;
            write(list(words_from(case, 5))?, format, room, out);
        }
        _ => return None,
    }
    Some(())
}

// What the records hold before anything is read into them.
fn blank() -> [Allele; ROW] {
    let seven = Allele {
        number: 7,
        missing: true,
        phased: true,
    };
    [seven; ROW]
}

fn put_filled(filled: Filled, from: usize, out: &mut Buffer) {
    out.put_said(genotypes::said(filled.answer));
    then_row(&filled.row, from, out);
}

// The records from `from` on, or `-` for none.
fn then_row(row: &[Allele; ROW], from: usize, out: &mut Buffer) {
    if from >= ROW {
        out.then_bytes(b"-");
    }
    for record in row.iter().skip(from) {
        then_record(*record, out);
    }
}

// The alleles of a case as the records of a row from `from` on.
#[derive(Clone, Copy)]
struct Records {
    from: usize,
    row: [Allele; ROW],
}

// The words, an allele each, `-` alone being none.
fn list(words: &[u8]) -> Option<Records> {
    let mut row = blank();
    if words == b"-".as_slice() {
        return Some(Records { from: ROW, row });
    }
    let from = ROW.checked_sub(count_parts(words, b' ')?)?;
    let mut at = 0;
    for record in row.iter_mut().skip(from) {
        let (s, next) = part_from(words, b' ', at)?;
        let (number, missing, phased) = allele_of(s)?;
        *record = Allele {
            number,
            missing: missing != 0,
            phased: phased != 0,
        };
        at = next;
    }
    Some(Records { from, row })
}

fn write(listed: Records, format: Format, room: Room, out: &mut Buffer) {
    let mut space = [0xEEu8; ROOM];
    let lent = front(&mut space, room.size);
    let write = write_own(
        listed.row,
        listed.from,
        format.major,
        format.minor,
        lent,
        room.from,
    );
    out.put_said(spellings::said(write));
    out.then_hex(lent);
}
