// The entry that stands at a place of an INFO column.
ghost use Rattle.std.specs.Prelude.{◌≡◌, ◌+◌, ◌≤◌, ◌<◌, ◌^◌, length};
ghost use Rattle.info.specs.Paper.{step_paper};
ghost use Rattle.info.specs.Told.{Tells};
ghost use Rattle.info.specs.Promises.{TakesStep};
ghost use Rattle.info.specs.Inner.{end_of, bare_at, KeyRead, ReadsEntry, Drops, Passes};

use pieces::either::find_either;
use text::range::Range;

// An entry's key, and the value that stands after its first `=`, if one does.
#[derive(Clone, Copy)]
pub struct Entry {
    pub key: Range,
    pub value: Option<Range>,
}

// Why no entry is found at a place. Each case has the next place.
#[derive(Clone, Copy, Debug, PartialEq, Eq)]
pub enum NoEntry {
    // 6: the place lies beyond the column.
    Beyond(usize),
    // 7: the `;` after a key is the last byte.
    AfterKey(usize),
    // 8: an empty key.
    NoKey(usize),
    // 9: the `;` after a value is the last byte.
    AfterValue(usize),
    // 10: the place is the column's end.
    Nothing(usize),
}

// A step's number, and the next place. Kept: it is what `tell` answers, a public function whose promise `Tells` is that number.
#[derive(Clone, Copy)]
pub struct Told {
    pub number: u64,
    pub next: usize,
}

#[tactic(auto, unfolding(crate::specs::Paper::step_paper))]
pub fn tell(step: Result<(Entry, usize), NoEntry>) -> Told
    ensures { Tells (step_paper step) result }
{
    match step {
        Ok((_, next)) => Told { number: 0, next },
        Err(NoEntry::Beyond(next)) => Told { number: 6, next },
        Err(NoEntry::AfterKey(next)) => Told { number: 7, next },
        Err(NoEntry::NoKey(next)) => Told { number: 8, next },
        Err(NoEntry::AfterValue(next)) => Told { number: 9, next },
        Err(NoEntry::Nothing(next)) => Told { number: 10, next },
    }
}

impl Entry {
    // A key alone.
    fn bare(at: usize, end: usize) -> Entry
        requires { at ≤ end }
        ensures { result ≡ bare_at at end }
    {
        Entry {
            key: Range {
                start: at,
                len: end - at,
            },
            value: None,
        }
    }

    // Where it ends: where its value does, or its key where it has none.
    fn end(self) -> usize
        requires { end_of self < 2 ^ 64 }
        ensures { result ≡ end_of self }
    {
        let last = self.value.unwrap_or(self.key);
        last.start + last.len
    }

    // Whether it is a key alone, with one byte left behind it.
    fn is_dropped(self, left: usize) -> bool
        ensures { Drops self left result }
    {
        left == 1 && self.value.is_none()
    }
}

// A key that ends before the `=` at the place `equals`, and its value, which ends at the first `;`, or at the column's end.
fn valued(column: &[u8], at: usize, equals: usize) -> Entry
    requires { KeyRead column.now at equals }
    ensures { ReadsEntry column.now at result }
{
    let start = equals + 1;
    let end = find_either(column, b';', b';', start);
    Entry {
        key: Range {
            start: at,
            len: equals - at,
        },
        value: Some(Range {
            start,
            len: end - start,
        }),
    }
}

// The entry that starts at the place `at`. Its key ends at the first `=` or `;`, or at the column's end.
fn entry_from(column: &[u8], at: usize) -> Entry
    requires { at ≤ length column.now }
    ensures { ReadsEntry column.now at result }
{
    for i in at..column.len() {
        match column[i] {
            b'=' => return valued(column, at, i),
            b';' => return Entry::bare(at, i),
            _ => {}
        }
    }
    Entry::bare(at, column.len())
}

// The place past the `;` at the place `end`; where nothing is left, that place.
fn past(end: usize, left: usize) -> usize
    requires { end + left < 2 ^ 64 }
    ensures { Passes end left result }
{
    if left == 0 { end } else { end + 1 }
}

// What is answered for an entry that starts at the place `at`. 7 is judged before 8.
fn judged(column: &[u8], at: usize, entry: Entry) -> Result<(Entry, usize), NoEntry>
    requires at_in_bounds { at < length column.now }
    requires reads_entry { ReadsEntry column.now at entry }
    ensures { TakesStep column.now at result }
{
    let end = entry.end();
    let left = column.len() - end;
    if entry.is_dropped(left) {
        Err(NoEntry::AfterKey(column.len()))
    } else if entry.key.len == 0 {
        Err(NoEntry::NoKey(at + 1))
    } else if left == 1 {
        Err(NoEntry::AfterValue(column.len()))
    } else {
        Ok((entry, past(end, left)))
    }
}

// The entry that starts at the place `at`, and the next place.
pub fn step_at(column: &[u8], at: usize) -> Result<(Entry, usize), NoEntry>
    ensures { TakesStep column.now at result }
{
    if at < column.len() {
        judged(column, at, entry_from(column, at))
    } else if at == column.len() {
        Err(NoEntry::Nothing(at))
    } else {
        Err(NoEntry::Beyond(at))
    }
}
