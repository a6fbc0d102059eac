// Filters, ALT entries and the columns of a line. A list comes as one text and the end of each entry: the first starts at 0, each
// later one at the end before it.
ghost use Rattle.std.specs.Prelude.{◌≡◌};
ghost use Rattle.lists.specs.Kind.{invalid_of};
ghost use Rattle.lists.specs.Paper.{verdict_paper, write_paper};
ghost use Rattle.join.specs.Paper.{joined_paper};
ghost use Rattle.exports.specs.Told.{Judges, Tells};
ghost use Rattle.exports.specs.Promises.{JudgesFilter, JudgesAlt, CountsAlts, WritesFilters, WritesAlts, JoinsColumns};

use crate::told::{VALUES, tell};
use join::columns::{JoinError, join};
use lists::alternate_bases;
use lists::alternate_bases::{judge_alt, write_alts};
use lists::filters::{judge_filter, write_filters};
use lists::write::{Fault, Kind, WriteError};
use record::ending::Ending;

// The number of an invalid entry.
fn invalid(kind: Kind) -> u64
    ensures { result ≡ invalid_of kind }
{
    match kind {
        Kind::Filters => 14,
        Kind::Alts => 15,
    }
}

fn verdict_number(kind: Kind, verdict: Result<(), Fault>) -> u64
    ensures { Judges (verdict_paper kind verdict) result }
{
    match verdict {
        Ok(()) => 0,
        Err(Fault::NotUtf8) => 5,
        Err(Fault::Invalid) => invalid(kind),
    }
}

// Whether a filter is valid: 0, 5 or 14. It has no values.
#[unsafe(no_mangle)]
pub extern "C" fn bruncadorza_judge_filter(filter: &[u8]) -> u64
    ensures { JudgesFilter filter.now result }
{
    verdict_number(Kind::Filters, judge_filter(filter))
}

// Whether an ALT entry is valid: 0, 5 or 15. It has no values.
#[unsafe(no_mangle)]
pub extern "C" fn bruncadorza_judge_alt(alt: &[u8]) -> u64
    ensures { JudgesAlt alt.now result }
{
    verdict_number(Kind::Alts, judge_alt(alt))
}

// How many alternate alleles an ALT column has: the count itself.
#[unsafe(no_mangle)]
pub extern "C" fn bruncadorza_alt_count(column: &[u8]) -> u64
    ensures { CountsAlts column.now result }
{
    alternate_bases::alt_count(column) as u64
}

fn tell_write(kind: Kind, write: Result<usize, WriteError>, values: &mut [u64; VALUES]) -> u64
    ensures { Tells (write_paper kind write) values.old result values.new }
{
    match write {
        Ok(n) => tell(0, &[n], values),
        Err(WriteError::NotUtf8(i)) => tell(5, &[i], values),
        Err(WriteError::Beyond) => tell(6, &[], values),
        Err(WriteError::Invalid(i)) => tell(invalid(kind), &[i], values),
        Err(WriteError::Wrong) => tell(16, &[], values),
        Err(WriteError::Short) => tell(17, &[], values),
    }
}

// Writes filters with `;` between, from the place `at` of the output on: 0, 5, 6, 14, 16 or 17. One value at most: how many bytes
// were written, or with 5 and 14 the index of the filter. Only 0 changes the output.
#[unsafe(no_mangle)]
pub extern "C" fn bruncadorza_write_filters(
    text: &[u8],
    ends: &[usize],
    out: &mut [u8],
    at: usize,
    values: &mut [u64; VALUES],
) -> u64
    ensures { WritesFilters text.now ends.now out.old at values.old result out.new values.new }
{
    tell_write(Kind::Filters, write_filters(text, ends, out, at), values)
}

// Writes ALT entries with `,` between, from the place `at` of the output on: 0, 5, 6, 15, 16 or 17. One value at most: how many
// bytes were written, or with 5 and 15 the index of the entry. Only 0 changes the output.
#[unsafe(no_mangle)]
pub extern "C" fn bruncadorza_write_alts(
    text: &[u8],
    ends: &[usize],
    out: &mut [u8],
    at: usize,
    values: &mut [u64; VALUES],
) -> u64
    ensures { WritesAlts text.now ends.now out.old at values.old result out.new values.new }
{
    tell_write(Kind::Alts, write_alts(text, ends, out, at), values)
}

fn tell_joined(joined: Result<usize, JoinError>, values: &mut [u64; VALUES]) -> u64
    ensures { Tells (joined_paper joined) values.old result values.new }
{
    match joined {
        Ok(n) => tell(0, &[n], values),
        Err(JoinError::NotUtf8(i)) => tell(5, &[i], values),
        Err(JoinError::Beyond) => tell(6, &[], values),
        Err(JoinError::Wrong) => tell(16, &[], values),
        Err(JoinError::Short) => tell(17, &[], values),
        Err(JoinError::Bad(i)) => tell(18, &[i], values),
        Err(JoinError::Few) => tell(19, &[], values),
    }
}

// Writes columns with tabs between and the ending with the number `ending`, 0 for nothing, 1 for LF, 2 for CR LF, from the place
// `at` of the output on: 10 where that number is above 2; else 0, 5, 6, 16, 17, 18 or 19. One value at most: how many bytes were
// written, or with 5 and 18 the index of the column. Only 0 changes the output.
#[unsafe(no_mangle)]
pub extern "C" fn bruncadorza_join(
    text: &[u8],
    ends: &[usize],
    ending: u64,
    out: &mut [u8],
    at: usize,
    values: &mut [u64; VALUES],
) -> u64
    ensures { JoinsColumns text.now ends.now ending out.old at values.old result out.new values.new }
{
    if ending > 2 {
        return tell(10, &[], values);
    }
    tell_joined(
        join(text, ends, Ending::by_size(ending as usize), out, at),
        values,
    )
}
