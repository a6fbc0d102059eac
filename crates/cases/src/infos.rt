// The verbs of the crate info.
use crate::case_words::{Text, hex, place, two_hex, word};
use crate::output::{Buffer, Said};
use info::count::count;
use info::find::{find, value};
use info::reader::step_from;
use info::step::{Entry, NoEntry, step_at, tell};

pub fn answer(case: &[u8], arguments: usize, text: &mut Text, out: &mut Buffer) -> Option<()> {
    match (word(case, 0), arguments) {
        (b"scan", 1) => scan(hex(case, 1, text)?, out),
        (b"count", 1) => out.put_number(count(hex(case, 1, text)?) as u64),
        (b"info", 2) => {
            let from = place(case, 2)?;
            put_step(step_at(hex(case, 1, text)?, from), out);
        }
        (b"find", 2) => {
            let (column, key) = two_hex(case, 1, text)?;
            put_step(find(column, key), out);
        }
        (b"value", 2) => {
            let (column, key) = two_hex(case, 1, text)?;
            out.put_hex(value(column, key));
        }
        _ => return None,
    }
    Some(())
}

// Every step from place 0 on, up to and with 10, by the reader that carries the column.
fn scan(column: &[u8], out: &mut Buffer) {
    let mut from = 0;
    loop {
        let step = step_from(column, from);
        put_step(step, out);
        let told = tell(step);
        if told.number == 10 {
            return;
        }
        out.put_comma();
        from = told.next;
    }
}

fn put_step(step: Result<(Entry, usize), NoEntry>, out: &mut Buffer) {
    let told = tell(step);
    out.put_said(Said::With(told.number, told.next as u64));
    if let Ok((entry, _)) = step {
        then_entry(entry, out);
    }
}

fn then_entry(entry: Entry, out: &mut Buffer) {
    out.then_range(entry.key);
    match entry.value {
        Some(range) => out.then_range(range),
        None => out.then_bytes(b"absent"),
    }
}
