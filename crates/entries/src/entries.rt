// Entry lists: one text, and the end of each entry. The first starts at 0, each later one at the end before it.
ghost use Rattle.std.specs.Prelude.{◌≡◌, ◌≤◌, length};
ghost use Rattle.entries.specs.Inner.{start_of, PlacesEntry};
ghost use Rattle.entries.specs.Promises.{JudgesEnds, FindsEntry, ShowsEntry, MakesList, GetsEntry};

use crate::list::Entries;
use text::range::Range;

// 16: an end falls, or passes the text.
#[derive(Clone, Copy, Debug, PartialEq, Eq)]
pub struct WrongEnds;

// Why there is no such entry.
#[derive(Clone, Copy, Debug, PartialEq, Eq)]
pub enum NoEntry {
    // 10: there are not so many ends.
    Nothing,
    // 16: its end falls below its start, or passes the text.
    Wrong,
}

// Judges the ends of an entry list: none falls, and none passes the text.
pub fn judge_ends(text: &[u8], ends: &[usize]) -> Result<(), WrongEnds>
    ensures { JudgesEnds text.now ends.now result }
{
    let mut start = 0;
    for &end in ends {
        if end < start || end > text.len() {
            return Err(WrongEnds);
        }
        start = end;
    }
    Ok(())
}

impl<'a> Entries<'a> {
    // Judges the ends, and makes a list of them.
    pub fn new(text: &'a [u8], ends: &'a [usize]) -> Result<Entries<'a>, WrongEnds>
        ensures { MakesList text.entry ends.entry result }
    {
        judge_ends(text, ends)?;
        Ok(Entries { text, ends })
    }

    // Entry i, empty where there are not so many.
    pub fn get(self, i: usize) -> &'a [u8]
        ensures { GetsEntry self.entry i result }
    {
        entry_text(self.text, self.ends, i)
    }
}

// Where entry i starts: at 0, or at the end before it.
fn start_of(ends: &[usize], i: usize) -> usize
    requires { i ≤ length ends.now }
    ensures { result ≡ start_of ends.now i }
{
    if i == 0 { 0 } else { ends[i - 1] }
}

// Entry i, counted from 0, as a place in the text. It looks at its own two ends and at no others.
pub fn entry_at(text: &[u8], ends: &[usize], i: usize) -> Result<Range, NoEntry>
    ensures { FindsEntry text.now ends.now i result }
{
    if i >= ends.len() {
        return Err(NoEntry::Nothing);
    }
    let start = start_of(ends, i);
    let end = ends[i];
    if end < start || end > text.len() {
        return Err(NoEntry::Wrong);
    }
    Ok(Range {
        start,
        len: end - start,
    })
}

// Its place; where there is none, the empty place at the text's end.
fn entry_place(text: &[u8], ends: &[usize], i: usize) -> Range
    ensures { PlacesEntry text.now ends.now i result }
{
    entry_at(text, ends, i).unwrap_or(Range {
        start: text.len(),
        len: 0,
    })
}

// Entry i as a part of the text, empty where `entry_at` tells that there is none.
pub fn entry_text<'a>(text: &'a [u8], ends: &[usize], i: usize) -> &'a [u8]
    ensures { ShowsEntry text.entry ends.now i result }
{
    let place = entry_place(text, ends, i);
    let start = place.start;
    let end = start + place.len;
    &text[start..end]
}
