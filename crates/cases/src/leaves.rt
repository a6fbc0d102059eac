// The verbs of the crates text and decimal.
use crate::case_words::{ROOM, Text, hex, number, size, word};
use crate::output::{Buffer, Said};
use crate::parts::front;
use decimal::print::print_decimal;
use decimal::read::read_decimal;
use text::copy::NoRoom;
use text::space::find_space;
use text::utf8::check_utf8;

pub fn answer(case: &[u8], arguments: usize, text: &mut Text, out: &mut Buffer) -> Option<()> {
    match (word(case, 0), arguments) {
        (b"utf8", 1) => out.put_said(utf8(hex(case, 1, text)?)),
        (b"space", 1) => out.put_said(space(hex(case, 1, text)?)),
        (b"decimal", 1) => out.put_said(decimal(hex(case, 1, text)?)),
        (b"print", 2) => print(number(case, 2)?, size(case, 1, ROOM)?, out),
        _ => return None,
    }
    Some(())
}

fn utf8(s: &[u8]) -> Said {
    match check_utf8(s) {
        Ok(()) => Said::Alone(0),
        Err(_) => Said::Alone(5),
    }
}

fn space(s: &[u8]) -> Said {
    match find_space(s) {
        Ok(held) => Said::With(0, u64::from(held)),
        Err(_) => Said::Alone(5),
    }
}

fn decimal(s: &[u8]) -> Said {
    match read_decimal(s) {
        Ok(n) => Said::With(0, n),
        Err(bad) => Said::With(12, bad.at as u64),
    }
}

fn print(n: u64, room: usize, out: &mut Buffer) {
    let mut space = [0xEEu8; ROOM];
    let lent = front(&mut space, room);
    out.put_said(printed(print_decimal(n, lent)));
    out.then_hex(lent);
}

fn printed(written: Result<usize, NoRoom>) -> Said {
    match written {
        Ok(len) => Said::With(0, len as u64),
        Err(NoRoom) => Said::Alone(17),
    }
}
