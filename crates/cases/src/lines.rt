// The verbs of the crates line, splitter and fields.
use crate::case_words::{Text, hex, place, word};
use crate::output::{Buffer, Said};
use fields::field::{Beyond, field, place_in};
use fields::pos::read_pos;
use line::read::{Refusal, read_line};
use record::ending::Ending;
use record::place::{Name, Record};
use splitter::split::split_line;
use text::range::Range;

pub fn answer(case: &[u8], arguments: usize, text: &mut Text, out: &mut Buffer) -> Option<()> {
    match (word(case, 0), arguments) {
        (b"pos", 1) => pos(hex(case, 1, text)?, out),
        (b"line", 2) => line(read_line(hex(case, 1, text)?, place(case, 2)?), out),
        (b"small", 2) => small(read_line(hex(case, 1, text)?, place(case, 2)?), out),
        (b"plain", 2) => line(split_line(hex(case, 1, text)?, place(case, 2)?), out),
        (b"field", 3) => {
            let name = name_of(word(case, 1))?;
            field_at(hex(case, 2, text)?, place(case, 3)?, name, out);
        }
        (b"place", 3) => {
            let start = place(case, 2)?;
            let len = place(case, 3)?;
            let found = place_in(hex(case, 1, text)?, Range { start, len });
            put_text(found.map(Some), out);
        }
        _ => return None,
    }
    Some(())
}

fn pos(s: &[u8], out: &mut Buffer) {
    match read_pos(s) {
        Ok(Some(n)) => out.put_said(Said::With(0, n)),
        Ok(None) => {
            out.put_number(0);
            out.then_bytes(b"none");
        }
        Err(bad) => out.put_said(Said::With(21, bad.at as u64)),
    }
}

// What a reading finds: a line's record and the next place, or why there is none.
type Read = Result<(Record, usize), Refusal>;

// A refusal's number, and the next place.
fn told(refusal: Refusal) -> (u64, usize) {
    match refusal {
        Refusal::End(next) => (1, next),
        Refusal::Empty(next) => (2, next),
        Refusal::Fed(next) => (3, next),
        Refusal::Cut(next) => (4, next),
        Refusal::NotUtf8(next) => (5, next),
        Refusal::Beyond(next) => (6, next),
    }
}

// A reading, and of a line the place of each field.
fn line(read: Read, out: &mut Buffer) {
    if let Some(record) = put_read(read, out) {
        for name in NAMES {
            out.then_range(record.place(name));
        }
    }
}

// A reading, and of a line the numbers of its record.
fn small(read: Read, out: &mut Buffer) {
    if let Some(record) = put_read(read, out) {
        out.then_each(&record.numbers());
    }
}

// A reading's number and the next place, and how a line ended: the line's record.
fn put_read(read: Read, out: &mut Buffer) -> Option<Record> {
    match read {
        Ok((record, next)) => {
            out.put_said(Said::With(0, next as u64));
            out.then_bytes(ending_name(record.ending()));
            Some(record)
        }
        Err(refusal) => {
            let (number, next) = told(refusal);
            out.put_said(Said::With(number, next as u64));
            None
        }
    }
}

fn ending_name(ending: Ending) -> &'static [u8] {
    match ending {
        Ending::Nothing => b"none",
        Ending::Feed => b"lf",
        Ending::ReturnFeed => b"crlf",
    }
}

// A line's fields, in their order.
const NAMES: [Name; 10] = [
    Name::Chrom,
    Name::Pos,
    Name::Id,
    Name::Reference,
    Name::Alt,
    Name::Qual,
    Name::Filter,
    Name::Info,
    Name::Format,
    Name::Samples,
];

fn name_of(s: &[u8]) -> Option<Name> {
    match s {
        b"chrom" => Some(Name::Chrom),
        b"pos" => Some(Name::Pos),
        b"id" => Some(Name::Id),
        b"ref" => Some(Name::Reference),
        b"alt" => Some(Name::Alt),
        b"qual" => Some(Name::Qual),
        b"filter" => Some(Name::Filter),
        b"info" => Some(Name::Info),
        b"format" => Some(Name::Format),
        b"samples" => Some(Name::Samples),
        _ => None,
    }
}

fn field_at(s: &[u8], from: usize, name: Name, out: &mut Buffer) {
    match read_line(s, from) {
        Ok((record, _)) => put_text(field(s, record, name), out),
        Err(refusal) => out.put_number(told(refusal).0),
    }
}

// What a field's text is.
fn put_text(found: Result<Option<Range>, Beyond>, out: &mut Buffer) {
    match found {
        Ok(Some(range)) => {
            out.put_number(0);
            out.then_range(range);
        }
        Ok(None) => {
            out.put_number(0);
            out.then_bytes(b"absent");
        }
        Err(Beyond) => out.put_number(6),
    }
}
