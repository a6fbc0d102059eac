// The old form of a line's record: how the line ended, and the place of each of its ten fields.
ghost use Rattle.std.specs.Prelude.{◌≡◌};
ghost use Rattle.text.specs.Range.{range_at};
ghost use Rattle.forms.specs.Promises.{GivesPlace, GivesEnding, GivesPlaces, MakesWide};

use record::ending::Ending;
use record::place::Name;
use text::range::Range;

// Others ask for its ending by `ending` and for a field's place by `place`.
#[derive(Clone, Copy)]
pub struct Wide {
    pub(crate) ending: Ending,
    pub(crate) chrom: Range,
    pub(crate) pos: Range,
    pub(crate) id: Range,
    pub(crate) reference: Range,
    pub(crate) alt: Range,
    pub(crate) qual: Range,
    pub(crate) filter: Range,
    pub(crate) info: Range,
    pub(crate) format: Range,
    pub(crate) samples: Range,
}

fn range_of(start: usize, len: usize) -> Range
    ensures { result ≡ range_at start len }
{
    Range { start, len }
}

impl Wide {
    // The form with an ending and these starts and lengths, whatever they are.
    pub fn new(ending: Ending, places: [usize; 20]) -> Wide
        ensures { MakesWide ending places result }
    {
        Wide {
            ending,
            chrom: range_of(places[0], places[1]),
            pos: range_of(places[2], places[3]),
            id: range_of(places[4], places[5]),
            reference: range_of(places[6], places[7]),
            alt: range_of(places[8], places[9]),
            qual: range_of(places[10], places[11]),
            filter: range_of(places[12], places[13]),
            info: range_of(places[14], places[15]),
            format: range_of(places[16], places[17]),
            samples: range_of(places[18], places[19]),
        }
    }

    // The place of a field of the form's line.
    pub fn place(self, name: Name) -> Range
        ensures { GivesPlace self name result }
    {
        match name {
            Name::Chrom => self.chrom,
            Name::Pos => self.pos,
            Name::Id => self.id,
            Name::Reference => self.reference,
            Name::Alt => self.alt,
            Name::Qual => self.qual,
            Name::Filter => self.filter,
            Name::Info => self.info,
            Name::Format => self.format,
            Name::Samples => self.samples,
        }
    }

    // How the form's line ended.
    pub fn ending(self) -> Ending
        ensures { GivesEnding self result }
    {
        self.ending
    }

    // The start and the length of each field of the form, in order.
    pub fn places(self) -> [usize; 20]
        ensures { GivesPlaces self result }
    {
        [
            self.chrom.start,
            self.chrom.len,
            self.pos.start,
            self.pos.len,
            self.id.start,
            self.id.len,
            self.reference.start,
            self.reference.len,
            self.alt.start,
            self.alt.len,
            self.qual.start,
            self.qual.len,
            self.filter.start,
            self.filter.len,
            self.info.start,
            self.info.len,
            self.format.start,
            self.format.len,
            self.samples.start,
            self.samples.len,
        ]
    }
}
