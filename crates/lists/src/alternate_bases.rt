// The ALT column.
ghost use Rattle.std.specs.Prelude.{◌≡◌};
ghost use Rattle.lists.specs.Judge.{inside_fine, symbol_fine, alt_fine};
ghost use Rattle.lists.specs.Write.{WritesListAt};
ghost use Rattle.lists.specs.Promises.{CountsAlts, JudgesEntry};
ghost use Rattle.lists.specs.declared.write.Kind.TheVariants.{Alts};

use crate::write::{Fault, Kind, WriteError, write_list};
use pieces::count::{count_byte, count_pieces};

// How many alternate alleles an ALT column has: none where it is `.` or empty, else its commas plus one.
pub fn alt_count(column: &[u8]) -> usize
    ensures { CountsAlts column.now result }
{
    if column == b".".as_slice() {
        return 0;
    }
    count_pieces(column, b',')
}

// Whether the inside of `<` and `>` is not empty and holds neither.
fn is_inside(inside: &[u8]) -> bool
    ensures { result ≡ inside_fine inside.now }
{
    !inside.is_empty() && count_byte(inside, b'<') == 0 && count_byte(inside, b'>') == 0
}

// Whether an entry that begins with `<` and ends with `>` has such an inside. Any other need not, as `<` alone.
fn is_symbol(alt: &[u8]) -> bool
    ensures { result ≡ symbol_fine alt.now }
{
    match alt {
        [b'<', inside @ .., b'>'] => is_inside(inside),
        _ => true,
    }
}

// What the bytes of an ALT entry say: it is not empty, holds no comma, and is no bad symbol.
pub(crate) fn is_fine(alt: &[u8]) -> bool
    ensures { result ≡ alt_fine alt.now }
{
    !alt.is_empty() && count_byte(alt, b',') == 0 && is_symbol(alt)
}

// Judges one ALT entry: 5, or 15, or fine.
pub fn judge_alt(alt: &[u8]) -> Result<(), Fault>
    ensures { JudgesEntry Alts alt.now result }
{
    Kind::Alts.judge(alt)
}

// Writes ALT entries, given as an entry list, with `,` between, from the place `at` on.
pub fn write_alts(
    text: &[u8],
    ends: &[usize],
    out: &mut [u8],
    at: usize,
) -> Result<usize, WriteError>
    ensures { WritesListAt Alts text.now ends.now out.old at result out.new }
{
    write_list(Kind::Alts, text, ends, out, at)
}
