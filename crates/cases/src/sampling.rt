// The verbs of the crate samples.
use crate::case_words::{Text, hex, place, two_hex, word};
use crate::output::{Buffer, Said};
use pieces::step::Piece;
use samples::columns::{count, sample, sample_at, subfield};
use samples::keys::key_index;
use text::range::Range;

pub fn answer(case: &[u8], arguments: usize, text: &mut Text, out: &mut Buffer) -> Option<()> {
    match (word(case, 0), arguments) {
        (b"samples", 1) => out.put_number(count(hex(case, 1, text)?) as u64),
        (b"walk", 1) => walk(hex(case, 1, text)?, out),
        (b"key", 2) => {
            let (format, key) = two_hex(case, 1, text)?;
            put_index(key_index(format, key), out);
        }
        (b"sample", 2) => {
            let n = place(case, 2)?;
            put_nth(sample(hex(case, 1, text)?, n), out);
        }
        (b"subfield", 2) => {
            let n = place(case, 2)?;
            put_nth(subfield(hex(case, 1, text)?, n), out);
        }
        _ => return None,
    }
    Some(())
}

// Every sample by steps from place 0 on.
fn walk(samples: &[u8], out: &mut Buffer) {
    let mut from = 0;
    loop {
        match sample_at(samples, from) {
            Ok(Piece::More(range, next)) => {
                put_range(range, out);
                out.put_comma();
                from = next;
            }
            Ok(Piece::Last(range)) => return put_range(range, out),
            Err(_) => return out.put_number(10),
        }
    }
}

fn put_range(range: Range, out: &mut Buffer) {
    out.put_said(Said::With(range.start as u64, range.len as u64));
}

fn put_index(index: Option<usize>, out: &mut Buffer) {
    match index {
        Some(i) => out.put_said(Said::With(0, i as u64)),
        None => out.put_number(10),
    }
}

fn put_nth(nth: Option<Range>, out: &mut Buffer) {
    match nth {
        Some(range) => {
            out.put_number(0);
            out.then_range(range);
        }
        None => out.put_number(10),
    }
}
