// The text of each field of a line, as a place in the line's buffer.
ghost use Rattle.std.specs.Prelude.{◌≡◌, ◌+◌, ◌<◌, ◌^◌, ◌&&◌, [], ◌∷◌, Ok};
ghost use Rattle.text.specs.Same.{same};
ghost use Rattle.text.specs.Range.{cut};
ghost use Rattle.fields.specs.Fields.{dot_answer, fits_in};
ghost use Rattle.fields.specs.Paper.{field_paper};
ghost use Rattle.fields.specs.Promises.{FindsPlace, FindsText, FindsField};

use record::place::{Name, Record};
use text::range::Range;

// 6: the place does not fit the buffer.
#[derive(Clone, Copy, Debug, PartialEq, Eq)]
pub struct Beyond;

// A place from anywhere, whatever its numbers: it fits the buffer, or gets 6.
pub fn place_in(s: &[u8], range: Range) -> Result<Range, Beyond>
    ensures { FindsPlace s.now range result }
{
    if range.start > s.len() || range.len > s.len() - range.start {
        return Err(Beyond);
    }
    Ok(range)
}

// Whether a place fits the buffer and holds one `.`.
fn is_dot(s: &[u8], range: Range) -> bool
    ensures { result ≡ (fits_in range s.now && same (cut range s.now) (46 ∷ [])) }
{
    range.len == 1 && range.start < s.len() && s[range.start] == b'.'
}

// What a `.` in a field reads as.
fn dot(name: Name, range: Range) -> Option<Range>
    requires { range.start + range.len < 2 ^ 64 }
    ensures { field_paper (Ok result) ≡ dot_answer name range }
{
    match name {
        Name::Id | Name::Alt | Name::Filter | Name::Info => Some(Range {
            start: range.start + range.len,
            len: 0,
        }),
        Name::Qual => None,
        Name::Chrom | Name::Pos | Name::Reference | Name::Format | Name::Samples => { Some(range) }
    }
}

// The text of a field that stands at a place of the buffer. A `.` is empty at its column's end for ID, ALT, FILTER and INFO,
// and absent for QUAL.
pub fn text_in(s: &[u8], name: Name, range: Range) -> Result<Option<Range>, Beyond>
    ensures { FindsText s.now name range result }
{
    if is_dot(s, range) {
        return Ok(dot(name, range));
    }
    Ok(Some(place_in(s, range)?))
}

// The text of a field of the record's line, in the buffer that the line was read from.
pub fn field(s: &[u8], line: Record, name: Name) -> Result<Option<Range>, Beyond>
    ensures { FindsField s.now line name result }
{
    text_in(s, name, line.place(name))
}
