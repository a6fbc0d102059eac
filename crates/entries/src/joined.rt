// The entries of a list, written with a separator between each two.
ghost use Rattle.std.specs.Prelude.{◌≡◌, [], ◌∷◌, ◌++◌, ◌+◌, ◌≤◌, ◌<◌, length, leb};
ghost use Rattle.text.specs.Over.{over, over_at};
ghost use Rattle.pieces.specs.Pieces.{joined};
ghost use Rattle.entries.specs.Inner.{JoinsList};
ghost use Rattle.entries.specs.Promises.{entries_of, PutsList};
ghost use Rattle.entries.specs.declared.joined.JoinError.TheVariants.{Wrong, Short};

use crate::entries::WrongEnds;
use crate::list::Entries;
use text::copy::{NoRoom, copy};

// Why the entries are not written.
#[derive(Clone, Copy, Debug, PartialEq, Eq)]
pub enum JoinError {
    // 16: the ends fall, or pass the text.
    Wrong,
    // 17: they do not fit.
    Short,
}

impl From<WrongEnds> for JoinError {
    ghost from_gives = { λ _ e. e ≡ Wrong };

    fn from(_e: WrongEnds) -> JoinError {
        JoinError::Wrong
    }
}

impl From<NoRoom> for JoinError {
    ghost from_gives = { λ _ e. e ≡ Short };

    fn from(_e: NoRoom) -> JoinError {
        JoinError::Short
    }
}

// Writes an entry and a separator behind it from the place `at` on, and returns the place past both.
fn put_entry(e: &[u8], separator: u8, out: &mut [u8], at: usize) -> usize
    requires { at + length e.now < length out.old }
    ensures value { result ≡ at + length e.now + 1 }
    ensures out_after { out.new ≡ over_at at (e.now ++ separator ∷ []) out.old }
{
    let behind = at + e.len();
    let _ = copy(e, &mut out[at..behind]);
    out[behind] = separator;
    behind + 1
}

impl<'a> Entries<'a> {
    // Whether the entries and a separator between each two fit into so much room.
    fn fits(self, separator: u8, room: usize) -> bool
        ensures { result ≡ leb (length (joined separator (entries_of self.entry))) room }
    {
        let [.., end] = self.ends else {
            return true;
        };
        *end <= room && self.ends.len() - 1 <= room - *end
    }

    // Writes the entries at the start of the output, the last with no separator behind it, and returns how many bytes they took.
    fn fill(self, separator: u8, out: &mut [u8]) -> usize
        requires { length (joined separator (entries_of self)) ≤ length out.old }
        ensures value { result ≡ length (joined separator (entries_of self.entry)) }
        ensures out_after { out.new ≡ over (joined separator (entries_of self.entry)) out.old }
    {
        if self.ends.is_empty() {
            return 0;
        }
        let many = self.ends.len() - 1;
        let mut at = 0;
        for i in 0..many {
            let e = self.get(i);
            at = put_entry(e, separator, out, at);
        }
        let last = self.get(many);
        let end = at + last.len();
        let _ = copy(last, &mut out[at..end]);
        end
    }

    // Writes the entries at the start of the output, with a separator between each two, or nothing where they don't fit. Answers how
    // many bytes were written.
    pub fn put(self, separator: u8, out: &mut [u8]) -> Result<usize, NoRoom>
        ensures { PutsList separator self.entry out.old result out.new }
    {
        if !self.fits(separator, out.len()) {
            return Err(NoRoom);
        }
        Ok(self.fill(separator, out))
    }
}

// Writes the entries of a list at the start of the output, with a separator between each two. Answers how many bytes were written.
pub fn put_joined(
    text: &[u8],
    ends: &[usize],
    separator: u8,
    out: &mut [u8],
) -> Result<usize, JoinError>
    ensures { JoinsList separator text.now ends.now out.old result out.new }
{
    let list = Entries::new(text, ends)?;
    Ok(list.put(separator, out)?)
}
