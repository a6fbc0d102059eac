// The FILTER column.
ghost use Rattle.std.specs.Prelude.{◌≡◌};
ghost use Rattle.lists.specs.Judge.{filter_fine};
ghost use Rattle.lists.specs.Write.{WritesListAt};
ghost use Rattle.lists.specs.Promises.{JudgesEntry};
ghost use Rattle.lists.specs.declared.write.Kind.TheVariants.{Filters};

use crate::write::{Fault, Kind, WriteError, write_list};
use pieces::count::count_byte;

// What the bytes of a filter say: it is not empty, `.` or `0`, and holds no `;`.
pub(crate) fn is_fine(filter: &[u8]) -> bool
    ensures { result ≡ filter_fine filter.now }
{
    !filter.is_empty()
        && filter != b".".as_slice()
        && filter != b"0".as_slice()
        && count_byte(filter, b';') == 0
}

// Judges one filter: 5, or 14, or fine.
pub fn judge_filter(filter: &[u8]) -> Result<(), Fault>
    ensures { JudgesEntry Filters filter.now result }
{
    Kind::Filters.judge(filter)
}

// Writes filters, given as an entry list, with `;` between, from the place `at` on.
pub fn write_filters(
    text: &[u8],
    ends: &[usize],
    out: &mut [u8],
    at: usize,
) -> Result<usize, WriteError>
    ensures { WritesListAt Filters text.now ends.now out.old at result out.new }
{
    write_list(Kind::Filters, text, ends, out, at)
}
