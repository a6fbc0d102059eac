// The verbs of the crate forms: from each form of a line's record to the other.
ghost use Rattle.std.specs.Prelude.{◌<◌};

use crate::case_words::{ending, place, word};
use crate::output::Buffer;
use forms::turn::{NotMade, narrow, widen};
use forms::wide::Wide;
use record::place::Record;

pub fn answer(case: &[u8], arguments: usize, out: &mut Buffer) -> Option<()> {
    match (word(case, 0), arguments) {
        (b"widen", 12) => {
            let line = Record::new(ending(case, 1)?, row(case)?);
            put_numbers(widen(line).map(|wide| wide.places()), out);
        }
        (b"narrow", 21) => {
            let wide = Wide::new(ending(case, 1)?, row(case)?);
            put_numbers(narrow(wide).map(|line| line.numbers()), out);
        }
        _ => return None,
    }
    Some(())
}

// The words behind the ending, each a number.
fn row<const N: usize>(case: &[u8]) -> Option<[usize; N]> {
    let mut row = [0usize; N];
    for k in 0..N {
        row[k] = place(case, k.saturating_add(2))?;
    }
    Some(row)
}

fn put_numbers<const N: usize>(made: Result<[usize; N], NotMade>, out: &mut Buffer) {
    match made {
        Ok(numbers) => {
            out.put_number(0);
            out.then_each(&numbers);
        }
        Err(NotMade) => out.put_number(32),
    }
}
