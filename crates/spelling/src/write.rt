// Writing a list of alleles that comes as three slices of one length.
ghost use Rattle.std.specs.Prelude.{◌≡◌, ◌≤◌, length};
ghost use Rattle.spelling.specs.Row.{list_of};
ghost use Rattle.text.specs.Over.{over};
ghost use Rattle.spelling.specs.Permitted.{from44};
ghost use Rattle.spelling.specs.Inner.{tally_of, planned_text, WritesList};
ghost use Rattle.spelling.specs.Write.{WritesRow, SmallWhereDone};

use crate::put::put_one;
use crate::row::Row;
use crate::tally::{Plan, Tally};

// Why a list is not written.
#[derive(Clone, Copy, Debug, PartialEq, Eq)]
pub enum WriteError {
    // 6: the place lies beyond the output.
    Beyond,
    // 11: the list is empty.
    Empty,
    // 12: the allele with this index is missing and has a number.
    Bad(usize),
    // 13: the first phasing is not the implied one, below 4.4.
    Phasing,
    // 16: the slices' lengths differ.
    Lengths,
    // 17: the spelling does not fit.
    Short,
}

// The tally of the whole list.
fn tally_row(row: Row, room: usize) -> Tally
    ensures { result ≡ tally_of room (list_of row.entry) }
{
    let mut tally = Tally::new(room);
    for k in 0..row.len() {
        tally.add(row.at(k), k);
    }
    tally
}

// Writes the whole list at the start of the output, as planned.
fn put_row(row: Row, plan: Plan, out: &mut [u8])
    requires { length (planned_text plan (list_of row)) ≤ length out.old }
    ensures { out.new ≡ over (planned_text plan (list_of row.entry)) out.old }
{
    let mut at = 0;
    for k in 0..row.len() {
        at = put_one(out, at, row.at(k), Ok(plan), k);
    }
}

// Writes the shortest permitted spelling at the start of the output.
fn write_rest(row: Row, major: u32, minor: u32, out: &mut [u8]) -> Result<usize, WriteError>
    ensures { WritesList (list_of row.entry) (from44 major minor) out.old result out.new }
{
    let tally = tally_row(row, out.len());
    let plan = tally.plan(row.len(), major, minor)?;
    put_row(row, plan, out);
    Ok(plan.size())
}

// Writes the shortest spelling that a file format permits, from the place `at` on, and returns how many bytes that takes.
pub fn write_genotype(
    numbers: &[u64],
    missing: &[u8],
    phased: &[u8],
    major: u32,
    minor: u32,
    out: &mut [u8],
    at: usize,
) -> Result<usize, WriteError>
    ensures writes_row { WritesRow numbers.now missing.now phased.now major minor out.old at result out.new }
    ensures small_where_done { SmallWhereDone numbers.now result }
{
    if at > out.len() {
        return Err(WriteError::Beyond);
    }
    let Some(row) = Row::new(numbers, missing, phased) else {
        return Err(WriteError::Lengths);
    };
    write_rest(row, major, minor, &mut out[at..])
}
