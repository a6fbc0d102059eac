// From the new form of a line's record to the old one, and back.
ghost use Rattle.std.specs.Prelude.{◌≡◌, ◌+◌, ◌*◌, ◌<◌, ◌^◌, length};
ghost use Rattle.record.specs.Place.{numbers_of};
ghost use Rattle.record.specs.Paper.{record_places};
ghost use Rattle.forms.specs.Form.{end_at};
ghost use Rattle.forms.specs.Promises.{WidensRecord, NarrowsWide};
ghost use Rattle.forms.specs.Inner.{Bounded};

use crate::made::is_made;
use crate::wide::Wide;
use record::place::{Name, Record};

// 32: the line reader can make the record, or the form, on no input.
#[derive(Clone, Copy, Debug, PartialEq, Eq)]
pub struct NotMade;

// The start and the length of each field of a record, in order.
fn places_of(line: Record) -> [usize; 20]
    ensures { result ≡ record_places line }
{
    let chrom = line.place(Name::Chrom);
    let pos = line.place(Name::Pos);
    let id = line.place(Name::Id);
    let reference = line.place(Name::Reference);
    let alt = line.place(Name::Alt);
    let qual = line.place(Name::Qual);
    let filter = line.place(Name::Filter);
    let info = line.place(Name::Info);
    let format = line.place(Name::Format);
    let samples = line.place(Name::Samples);
    [
        chrom.start,
        chrom.len,
        pos.start,
        pos.len,
        id.start,
        id.len,
        reference.start,
        reference.len,
        alt.start,
        alt.len,
        qual.start,
        qual.len,
        filter.start,
        filter.len,
        info.start,
        info.len,
        format.start,
        format.len,
        samples.start,
        samples.len,
    ]
}

// The old form of a record.
pub fn widen(line: Record) -> Result<Wide, NotMade>
    ensures { WidensRecord line result }
{
    let ending = line.ending();
    let places = places_of(line);
    if !is_made(ending, &places) {
        return Err(NotMade);
    }
    Ok(Wide::new(ending, places))
}

// Where field i ends.
fn end_at(places: &[usize; 20], i: usize) -> usize
    requires { (i < 10) × (end_at places.now i < 2 ^ 64) }
    ensures { result ≡ end_at places.now i }
{
    places[2 * i] + places[2 * i + 1]
}

// The line's start, and where each field ends.
fn numbers_by(places: &[usize; 20]) -> [usize; 11]
    requires { Bounded places.now }
    ensures { result ≡ numbers_of places.now }
{
    [
        places[0],
        end_at(places, 0),
        end_at(places, 1),
        end_at(places, 2),
        end_at(places, 3),
        end_at(places, 4),
        end_at(places, 5),
        end_at(places, 6),
        end_at(places, 7),
        end_at(places, 8),
        end_at(places, 9),
    ]
}

// The record of an old form.
pub fn narrow(wide: Wide) -> Result<Record, NotMade>
    ensures { NarrowsWide wide result }
{
    let places = wide.places();
    if !is_made(wide.ending, &places) {
        return Err(NotMade);
    }
    Ok(Record::new(wide.ending, numbers_by(&places)))
}
