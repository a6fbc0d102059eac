// Lines, the texts of their fields, and POS.
ghost use Rattle.std.specs.Prelude.{◌≡◌, Ok};
ghost use Rattle.line.specs.Paper.{read_paper};
ghost use Rattle.fields.specs.Paper.{place_paper, field_paper, position_paper};
ghost use Rattle.exports.specs.Told.{Tells};
ghost use Rattle.exports.specs.Places.{name_of};
ghost use Rattle.exports.specs.Promises.{ReadsLine, FindsText, FindsPlace, ReadsPos};

use crate::told::{LINE_VALUES, VALUES, tell, tell_place};
use fields::field::{Beyond, place_in, text_in};
use fields::pos::{BadPosition, read_pos};
use line::read::{Refusal, read_line};
use record::place::{Name, Record};
use text::range::Range;

// The next place, and the ending and the ten places of a record.
#[inline(always)]
fn tell_line(line: Record, next: usize, values: &mut [u64; LINE_VALUES]) -> u64
    ensures { Tells (read_paper (Ok (line, next))) values.old result values.new }
{
    let ending = line.ending().size();
    let chrom = line.place(Name::Chrom);
    let pos = line.place(Name::Pos);
    let id = line.place(Name::Id);
    let reference = line.place(Name::Reference);
    let alt = line.place(Name::Alt);
    let qual = line.place(Name::Qual);
    let filter = line.place(Name::Filter);
    let info = line.place(Name::Info);
    let format = line.place(Name::Format);
    let samples = line.place(Name::Samples);
    let vs = [
        next,
        ending,
        chrom.start,
        chrom.len,
        pos.start,
        pos.len,
        id.start,
        id.len,
        reference.start,
        reference.len,
        alt.start,
        alt.len,
        qual.start,
        qual.len,
        filter.start,
        filter.len,
        info.start,
        info.len,
        format.start,
        format.len,
        samples.start,
        samples.len,
    ];
    tell(0, &vs, values)
}

// Inlined in the entry of each line reader: what it calls is then called at one place there, and the record that was read stays in
// registers (docs/SPEED.md).
#[inline(always)]
pub(crate) fn tell_read(
    read: Result<(Record, usize), Refusal>,
    values: &mut [u64; LINE_VALUES],
) -> u64
    ensures { Tells (read_paper read) values.old result values.new }
{
    match read {
        Ok((line, next)) => tell_line(line, next, values),
        Err(Refusal::End(next)) => tell(1, &[next], values),
        Err(Refusal::Empty(next)) => tell(2, &[next], values),
        Err(Refusal::Fed(next)) => tell(3, &[next], values),
        Err(Refusal::Cut(next)) => tell(4, &[next], values),
        Err(Refusal::NotUtf8(next)) => tell(5, &[next], values),
        Err(Refusal::Beyond(next)) => tell(6, &[next], values),
    }
}

// Reads the line at the place `at`: 0 to 6. 22 values at most: the next place, and of a line how it ended, 0 for the end of the
// input, 1 for LF, 2 for CR LF, and the start and the length of each of its ten fields, CHROM, POS, ID, REF, ALT, QUAL, FILTER,
// INFO, FORMAT and the samples.
#[unsafe(no_mangle)]
pub extern "C" fn bruncadorza_read_line(s: &[u8], at: usize, values: &mut [u64; LINE_VALUES]) -> u64
    ensures { ReadsLine s.now at values.old result values.new }
{
    tell_read(read_line(s, at), values)
}

fn tell_text(text: Result<Option<Range>, Beyond>, values: &mut [u64; VALUES]) -> u64
    ensures { Tells (field_paper text) values.old result values.new }
{
    match text {
        Ok(Some(place)) => tell_place(0, place, values),
        Ok(None) => tell(0, &[], values),
        Err(_) => tell(6, &[], values),
    }
}

// The field with a number up to 9; any other number is taken for 9.
fn name_of(n: u64) -> Name
    ensures { result ≡ name_of n }
{
    match n {
        0 => Name::Chrom,
        1 => Name::Pos,
        2 => Name::Id,
        3 => Name::Reference,
        4 => Name::Alt,
        5 => Name::Qual,
        6 => Name::Filter,
        7 => Name::Info,
        8 => Name::Format,
        _ => Name::Samples,
    }
}

// The text of the field with the number `name`, 0 for CHROM to 9 for the samples, which stands at a place that the line reader
// gave: 0, or 6 where the place does not fit the buffer, or 10 where the number is above 9. Two values at most: the text's start
// and length, none where it is absent (a `.` in QUAL).
#[unsafe(no_mangle)]
pub extern "C" fn bruncadorza_field_text(
    s: &[u8],
    name: u64,
    start: usize,
    len: usize,
    values: &mut [u64; VALUES],
) -> u64
    ensures { FindsText s.now name start len values.old result values.new }
{
    if name > 9 {
        return tell(10, &[], values);
    }
    tell_text(text_in(s, name_of(name), Range { start, len }), values)
}

fn tell_place_in(place: Result<Range, Beyond>, values: &mut [u64; VALUES]) -> u64
    ensures { Tells (place_paper place) values.old result values.new }
{
    match place {
        Ok(place) => tell_place(0, place, values),
        Err(_) => tell(6, &[], values),
    }
}

// Whether a place fits the buffer: 0, or 6. Two values at most: its start and length.
#[unsafe(no_mangle)]
pub extern "C" fn bruncadorza_place_in(
    s: &[u8],
    start: usize,
    len: usize,
    values: &mut [u64; VALUES],
) -> u64
    ensures { FindsPlace s.now start len values.old result values.new }
{
    tell_place_in(place_in(s, Range { start, len }), values)
}

fn tell_position(position: Result<Option<u64>, BadPosition>, values: &mut [u64; VALUES]) -> u64
    ensures { Tells (position_paper position) values.old result values.new }
{
    match position {
        Ok(Some(n)) => tell(0, &[n as usize], values),
        Ok(None) => tell(0, &[], values),
        Err(bad) => tell(21, &[bad.at], values),
    }
}

// What a POS text says: 0, or 21. One value at most: the position, none where the text is `0`; or with 21 the place of the byte at
// fault.
#[unsafe(no_mangle)]
pub extern "C" fn bruncadorza_read_pos(text: &[u8], values: &mut [u64; VALUES]) -> u64
    ensures { ReadsPos text.now values.old result values.new }
{
    tell_position(read_pos(text), values)
}
