// A reader that carries the INFO column it reads, and a place in it. Each of its functions takes it apart or puts it
// together; the work is done by `step_at`. Callers with a plain column use `step_from`.
ghost use Rattle.info.specs.Promises.{TakesStep, Opens, Moves, TakesNext};

use crate::step::{Entry, NoEntry, step_at};

#[derive(Clone, Copy)]
pub struct Reader<'a> {
    pub(crate) column: &'a [u8],
    pub(crate) at: usize,
}

impl<'a> Reader<'a> {
    // A reader at the start of a column.
    pub fn open(column: &'a [u8]) -> Reader<'a>
        ensures { Opens column.entry result }
    {
        Reader { column, at: 0 }
    }

    // The same column, at the place `at`.
    pub fn moved(self, at: usize) -> Reader<'a>
        ensures { Moves self.entry at result }
    {
        Reader {
            column: self.column,
            at,
        }
    }

    // The entry at the reader's place.
    pub fn next(self) -> Result<(Entry, usize), NoEntry>
        ensures { TakesNext self.entry result }
    {
        step_at(self.column, self.at)
    }
}

// The entry at a place of a column, by a reader made for it.
pub fn step_from(column: &[u8], at: usize) -> Result<(Entry, usize), NoEntry>
    ensures { TakesStep column.now at result }
{
    Reader::open(column).moved(at).next()
}
