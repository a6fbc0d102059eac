// The place of each field of a line that was read, how it ended, and the numbers of its record.
ghost use Rattle.std.specs.Prelude.{◌≡◌, ◌+◌};
ghost use Rattle.record.specs.Place.{nowhere, span, passed};
ghost use Rattle.record.specs.Promises.{GivesPlace, GivesEnding, GivesNumbers, MakesRecord};

use crate::ending::Ending;
use text::range::Range;

// A line's record: how it ended, where its text starts, where each of its first nine fields ends, and where its text ends. Each
// field starts past one tab after the end before it. Without FORMAT the ninth end is INFO's, and no tab is passed. Others ask for
// its ending by `ending` and for a field's place by `place`.
#[derive(Clone, Copy)]
pub struct Record {
    pub(crate) ending: Ending,
    pub(crate) start: usize,
    pub(crate) chrom: usize,
    pub(crate) pos: usize,
    pub(crate) id: usize,
    pub(crate) reference: usize,
    pub(crate) alt: usize,
    pub(crate) qual: usize,
    pub(crate) filter: usize,
    pub(crate) info: usize,
    pub(crate) format: usize,
    pub(crate) end: usize,
}

// The ten fields of a line.
#[derive(Clone, Copy)]
pub enum Name {
    Chrom,
    Pos,
    Id,
    Reference,
    Alt,
    Qual,
    Filter,
    Info,
    Format,
    Samples,
}

// A place that no input reaches.
fn no_place() -> Range
    ensures { result ≡ nowhere }
{
    Range {
        start: usize::MAX,
        len: 0,
    }
}

// The place from a start to an end. Where the end lies before the start there is none.
fn span_of(start: usize, end: usize) -> Range
    ensures { result ≡ span start end }
{
    if end < start {
        return no_place();
    }
    Range {
        start,
        len: end - start,
    }
}

// The same from past one tab after the end before it.
fn past_tab(before: usize, end: usize) -> Range
    ensures { result ≡ span (before + 1) end }
{
    if end <= before {
        return no_place();
    }
    span_of(before + 1, end)
}

impl Record {
    // The record with an ending and these numbers, whatever they are.
    pub fn new(ending: Ending, numbers: [usize; 11]) -> Record
        ensures { MakesRecord ending numbers result }
    {
        Record {
            ending,
            start: numbers[0],
            chrom: numbers[1],
            pos: numbers[2],
            id: numbers[3],
            reference: numbers[4],
            alt: numbers[5],
            qual: numbers[6],
            filter: numbers[7],
            info: numbers[8],
            format: numbers[9],
            end: numbers[10],
        }
    }

    // The place of a field of the record's line, a `.` as it stands.
    pub fn place(self, name: Name) -> Range
        ensures { GivesPlace self name result }
    {
        match name {
            Name::Chrom => span_of(self.start, self.chrom),
            Name::Pos => past_tab(self.chrom, self.pos),
            Name::Id => past_tab(self.pos, self.id),
            Name::Reference => past_tab(self.id, self.reference),
            Name::Alt => past_tab(self.reference, self.alt),
            Name::Qual => past_tab(self.alt, self.qual),
            Name::Filter => past_tab(self.qual, self.filter),
            Name::Info => past_tab(self.filter, self.info),
            Name::Format => self.past_info(self.info, self.format),
            Name::Samples => self.past_info(self.format, self.end),
        }
    }

    // The place of FORMAT, or of the samples.
    fn past_info(self, before: usize, end: usize) -> Range
        ensures { result ≡ span (passed self before) end }
    {
        if self.format == self.info {
            return span_of(before, end);
        }
        past_tab(before, end)
    }

    // How the record's line ended.
    pub fn ending(self) -> Ending
        ensures { GivesEnding self result }
    {
        self.ending
    }

    // The numbers of a record: where its line's text starts, where each of the first nine fields ends, and where the text ends.
    pub fn numbers(self) -> [usize; 11]
        ensures { GivesNumbers self result }
    {
        [
            self.start,
            self.chrom,
            self.pos,
            self.id,
            self.reference,
            self.alt,
            self.qual,
            self.filter,
            self.info,
            self.format,
            self.end,
        ]
    }
}
