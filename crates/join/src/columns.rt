// The columns of a line, given as an entry list, judged and then written with an ending.
ghost use Rattle.std.specs.Prelude.{◌≡◌, true, not, ◌&&◌, ◌||◌, ◌+◌, ◌<◌, ◌≤◌, length};
ghost use Rattle.text.specs.Bytes.{ends_in};
ghost use Rattle.text.specs.Utf8.{is_utf8};
ghost use Rattle.text.specs.Verdict.{fitted};
ghost use Rattle.text.specs.Over.{over, room_for};
ghost use Rattle.record.specs.Ending.{ending_bytes};
ghost use Rattle.record.specs.Paper.{ending_of};
ghost use Rattle.line.specs.Line.{required};
ghost use Rattle.entries.specs.Entries.{rising, entry_list};
ghost use Rattle.join.specs.Join.{JoinsAt, is_bad, loses_return, columns_judged, line_text, list_answer};
ghost use Rattle.join.specs.Inner.{AllSimple, Fine};
ghost use Rattle.join.specs.declared.columns.JoinError.TheVariants.{Wrong};
ghost use Rattle.join.specs.Paper.{joined_paper};

use crate::column::{Column, loses_return};
use crate::put::put_columns;
use crate::simple::{are_apart, is_simple, last_end};
use entries::entries::{WrongEnds, entry_text, judge_ends};
use record::ending::Ending;

// Why columns are not joined.
#[derive(Clone, Copy, Debug, PartialEq, Eq)]
pub enum JoinError {
    // 5: the column with this index is not UTF-8.
    NotUtf8(usize),
    // 6: the place lies beyond the output.
    Beyond,
    // 16: the ends fall, or pass the text.
    Wrong,
    // 17: the line does not fit.
    Short,
    // 18: the column with this index is empty, holds a tab or an LF, or is the last, ends in CR, and the ending is LF.
    Bad(usize),
    // 19: fewer than eight columns, or nine.
    Few,
}

impl From<WrongEnds> for JoinError {
    ghost from_gives = { λ _ r. r ≡ Wrong };

    fn from(_e: WrongEnds) -> JoinError {
        JoinError::Wrong
    }
}

// Eight columns, or at least ten.
fn is_count(n: usize) -> bool
    ensures { result ≡ not (required n) }
{
    n == 8 || n >= 10
}

// Whether so many bytes of columns, so many tabs and an ending fit in the room, each taken from what the others leave of it: no
// sum passes 64 bits.
fn fit(end: usize, tabs: usize, ending: Ending, room: usize) -> Result<usize, JoinError>
    ensures { joined_paper result ≡ room_for (end + tabs + length (ending_bytes (ending_of ending))) room }
{
    let size = ending.size();
    if end > room || tabs > room - end || size > room - end - tabs {
        return Err(JoinError::Short);
    }
    Ok(end + tabs + size)
}

// Judges the columns from the left, and then whether the line fits in the rest of the output.
fn judge_columns(
    text: &[u8],
    ends: &[usize],
    ending: Ending,
    rest: &[u8],
) -> Result<usize, JoinError>
    requires text_value { rising 0 ends.now (length text.now) ≡ true }
    requires ends_nonzero { 0 < length ends.now }
    ensures { joined_paper result ≡ fitted (columns_judged 0 (entry_list text.now ends.now) (ending_of ending)) (line_text (entry_list text.now ends.now) (ending_of ending)) rest.now }
{
    for i in 0..ends.len() {
        let column = Column::new(entry_text(text, ends, i));
        if column.is_refused(i + 1 == ends.len(), ending) {
            return Err(JoinError::Bad(i));
        }
        if !column.is_utf8() {
            return Err(JoinError::NotUtf8(i));
        }
    }
    fit(last_end(ends), ends.len() - 1, ending, rest.len())
}

// What is answered of a list of columns and the rest of the output, the columns judged one by one.
fn judge_each(text: &[u8], ends: &[usize], ending: Ending, rest: &[u8]) -> Result<usize, JoinError>
    ensures { joined_paper result ≡ list_answer text.now ends.now (ending_of ending) rest.now }
{
    judge_ends(text, ends)?;
    if !is_count(ends.len()) {
        return Err(JoinError::Few);
    }
    judge_columns(text, ends, ending, rest)
}

// Whether it is seen at once that no column is refused: they are apart, and hold nothing but simple bytes.
fn are_fine(text: &[u8], ends: &[usize], ending: Ending) -> bool
    requires { 0 < length ends.now }
    ensures { result ≡ true → Fine text.now ends.now (ending_of ending) }
{
    let end = last_end(ends);
    if end > text.len() {
        return false;
    }
    let columns = &text[..end];
    if loses_return(columns, ending) {
        return false;
    }
    are_apart(ends) && is_simple(columns)
}

// What is answered of a list of columns and the rest of the output.
fn judge(text: &[u8], ends: &[usize], ending: Ending, rest: &[u8]) -> Result<usize, JoinError>
    ensures { joined_paper result ≡ list_answer text.now ends.now (ending_of ending) rest.now }
{
    if is_count(ends.len()) && are_fine(text, ends, ending) {
        return fit(last_end(ends), ends.len() - 1, ending, rest.len());
    }
    judge_each(text, ends, ending, rest)
}

// Puts an ending, which fits, at the start of an output.
fn put_ending(ending: Ending, out: &mut [u8])
    requires { length (ending_bytes (ending_of ending)) ≤ length out.old }
    ensures { out.new ≡ over (ending_bytes (ending_of ending)) out.old }
{
    match ending {
        Ending::Nothing => {}
        Ending::Feed => out[0] = b'\n',
        Ending::ReturnFeed => out[..2].copy_from_slice(b"\r\n"),
    }
}

// Writes columns, given as an entry list, with tabs between and an ending behind, at a place of the output.
pub fn join(
    text: &[u8],
    ends: &[usize],
    ending: Ending,
    out: &mut [u8],
    at: usize,
) -> Result<usize, JoinError>
    ensures { JoinsAt text.now ends.now (ending_of ending) at out.old result out.new }
{
    if at > out.len() {
        return Err(JoinError::Beyond);
    }
    let n = judge(text, ends, ending, &out[at..])?;
    put_columns(text, ends, &mut out[at..]);
    let end = at + n - ending.size();
    put_ending(ending, &mut out[end..]);
    Ok(n)
}
