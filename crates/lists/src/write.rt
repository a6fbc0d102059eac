// What the writers of filters and of ALT entries share: they differ in the separator and the judge alone.
ghost use Rattle.std.specs.Prelude.{◌≡◌, true, length};
ghost use Rattle.entries.specs.Entries.{rising, entry_list};
ghost use Rattle.lists.specs.Judge.{fine};
ghost use Rattle.lists.specs.Kind.{separator_of};
ghost use Rattle.lists.specs.Write.{WritesListAt};
ghost use Rattle.lists.specs.Promises.{JudgesEntry};
ghost use Rattle.lists.specs.declared.write.Fault.{Fault};
ghost use Rattle.lists.specs.declared.write.WriteError.{WriteError};
ghost use Rattle.lists.specs.Inner.{error_at, error_of, JudgesList, PutsList, WritesList};

use crate::{alternate_bases, filters};
use entries::entries::{WrongEnds, entry_text, judge_ends};
use entries::joined::{JoinError, put_joined};
use text::copy::{NoRoom, copy};
use text::space::find_space;
use text::utf8::NotUtf8;

// Which list is written.
#[derive(Clone, Copy)]
pub enum Kind {
    Filters,
    Alts,
}

// Why an entry may not be written.
#[derive(Clone, Copy, Debug, PartialEq, Eq)]
pub enum Fault {
    // 5: it is not UTF-8.
    NotUtf8,
    // 14 for a filter, 15 for an ALT entry: it is invalid.
    Invalid,
}

impl From<NotUtf8> for Fault {
    ghost from_gives = { λ _ r. r ≡ Fault.NotUtf8 };

    fn from(_e: NotUtf8) -> Fault {
        Fault::NotUtf8
    }
}

// Why a list is not written.
#[derive(Clone, Copy, Debug, PartialEq, Eq)]
pub enum WriteError {
    // 5: the entry with this index is not UTF-8.
    NotUtf8(usize),
    // 6: the place lies beyond the output.
    Beyond,
    // 14 for a filter, 15 for an ALT entry: the entry with this index is invalid.
    Invalid(usize),
    // 16: the ends fall, or pass the text.
    Wrong,
    // 17: the list does not fit.
    Short,
}

impl From<WrongEnds> for WriteError {
    ghost from_gives = { λ _ r. r ≡ WriteError.Wrong };

    fn from(_e: WrongEnds) -> WriteError {
        WriteError::Wrong
    }
}

impl From<NoRoom> for WriteError {
    ghost from_gives = { λ _ r. r ≡ WriteError.Short };

    fn from(_e: NoRoom) -> WriteError {
        WriteError::Short
    }
}

impl From<JoinError> for WriteError {
    ghost from_gives = { λ e r. r ≡ error_of e };

    fn from(e: JoinError) -> WriteError {
        match e {
            JoinError::Wrong => WriteError::Wrong,
            JoinError::Short => WriteError::Short,
        }
    }
}

impl Fault {
    // The refusal of a list for a fault of the entry with index i.
    fn at(self, i: usize) -> WriteError
        ensures { result ≡ error_at self i }
    {
        match self {
            Fault::NotUtf8 => WriteError::NotUtf8(i),
            Fault::Invalid => WriteError::Invalid(i),
        }
    }
}

impl Kind {
    // What stands between two entries.
    fn separator(self) -> u8
        ensures { result ≡ separator_of self }
    {
        match self {
            Kind::Filters => b';',
            Kind::Alts => b',',
        }
    }

    // What the bytes of an entry say.
    fn is_fine(self, entry: &[u8]) -> bool
        ensures { result ≡ fine self entry.now }
    {
        match self {
            Kind::Filters => filters::is_fine(entry),
            Kind::Alts => alternate_bases::is_fine(entry),
        }
    }

    // Judges one entry.
    pub(crate) fn judge(self, entry: &[u8]) -> Result<(), Fault>
        ensures { JudgesEntry self entry.now result }
    {
        if find_space(entry)? || !self.is_fine(entry) {
            return Err(Fault::Invalid);
        }
        Ok(())
    }
}

// Judges the entries in order, up to the first that may not be written.
fn judge_list(kind: Kind, text: &[u8], ends: &[usize]) -> Result<(), WriteError>
    requires { rising 0 ends.now (length text.now) ≡ true }
    ensures { JudgesList kind (entry_list text.now ends.now) result }
{
    for i in 0..ends.len() {
        if let Err(fault) = kind.judge(entry_text(text, ends, i)) {
            return Err(fault.at(i));
        }
    }
    Ok(())
}

// Writes a list that may be written: `.` where it is empty.
fn put_list(kind: Kind, text: &[u8], ends: &[usize], out: &mut [u8]) -> Result<usize, WriteError>
    requires { rising 0 ends.now (length text.now) ≡ true }
    ensures { PutsList kind (entry_list text.now ends.now) out.old result out.new }
{
    if ends.is_empty() {
        return Ok(copy(b".", out)?);
    }
    Ok(put_joined(text, ends, kind.separator(), out)?)
}

// Writes a list at the start of the output.
fn write_rest(kind: Kind, text: &[u8], ends: &[usize], out: &mut [u8]) -> Result<usize, WriteError>
    ensures { WritesList kind text.now ends.now out.old result out.new }
{
    judge_ends(text, ends)?;
    judge_list(kind, text, ends)?;
    put_list(kind, text, ends, out)
}

// Writes a list from the place `at` on.
pub(crate) fn write_list(
    kind: Kind,
    text: &[u8],
    ends: &[usize],
    out: &mut [u8],
    at: usize,
) -> Result<usize, WriteError>
    ensures { WritesListAt kind text.now ends.now out.old at result out.new }
{
    if at > out.len() {
        return Err(WriteError::Beyond);
    }
    write_rest(kind, text, ends, &mut out[at..])
}
