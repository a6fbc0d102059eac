// An INFO entry by its key, and its value.
ghost use Rattle.info.specs.Value.{PlacesValue, Shows};
ghost use Rattle.info.specs.Promises.{FindsEntry};

use crate::step::{Entry, NoEntry, step_at};
use text::range::Range;
use text::same::same_bytes;

// The first entry whose key is equal, or the first refusal before it, or 10 with the column's length.
pub fn find(column: &[u8], key: &[u8]) -> Result<(Entry, usize), NoEntry>
    ensures { FindsEntry column.now key.now result }
{
    let mut at = 0;
    loop {
        let (entry, next) = step_at(column, at)?;
        let start = entry.key.start;
        let end = start + entry.key.len;
        if same_bytes(&column[start..end], key) {
            return Ok((entry, next));
        }
        at = next;
    }
}

// Where the value of the first entry whose key is equal lies in the column. Where there is no value to show, the empty place at
// the column's end: `find` tells an absent value, an empty one and a refusal apart.
pub fn value_place(column: &[u8], key: &[u8]) -> Range
    ensures { PlacesValue column.now key.now result }
{
    let end = Range {
        start: column.len(),
        len: 0,
    };
    match find(column, key) {
        Ok((entry, _)) => entry.value.unwrap_or(end),
        Err(_) => end,
    }
}

// The value itself, as a part of the column.
pub fn value<'a, 'b>(column: &'a [u8], key: &'b [u8]) -> &'a [u8]
    ensures { Shows column.entry key.now result }
{
    let place = value_place(column, key);
    let start = place.start;
    let end = start + place.len;
    &column[start..end]
}
