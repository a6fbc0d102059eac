// Writing a row of alleles.
ghost use Rattle.std.specs.Prelude.{◌≡◌, ◌≤◌, length};
ghost use Rattle.text.specs.Over.{over};
ghost use Rattle.spelling.specs.Permitted.{from44};
ghost use Rattle.spelling.specs.Inner.{tally_of, planned_text, WritesList};
ghost use Rattle.spelling.specs.Demands.{Fitting};
ghost use Rattle.alleles.specs.Write.{WritesAlleles};

use allele::allele::Allele;
use spelling::put::put_one;
use spelling::tally::{Plan, Tally};
use spelling::write::WriteError;

// A number that is passed has 64 bits.
fn note_number(number: u64)
    ensures { number ≤ 18446744073709551615 }
{}

// So has that of each record behind a reference. Nothing is done: the compiler leaves nothing of the loop.
// Kept: `WritesAlleles` promises it, in its field `small`, and the checker tells the range of a field only where it is passed.
fn note_numbers(row: &[Allele])
    ensures { Fitting row.now }
{
    for allele in row {
        note_number(allele.number);
    }
}

// The tally of the whole row.
fn tally_row(row: &[Allele], room: usize) -> Tally
    ensures { result ≡ tally_of room row.now }
{
    let mut tally = Tally::new(room);
    for (i, allele) in row.iter().enumerate() {
        tally.add(*allele, i);
    }
    tally
}

// Writes the whole row at the start of the output, as planned.
fn put_row(row: &[Allele], plan: Plan, out: &mut [u8])
    requires { length (planned_text plan row.now) ≤ length out.old }
    ensures { out.new ≡ over (planned_text plan row.now) out.old }
{
    let mut at = 0;
    for (i, allele) in row.iter().enumerate() {
        at = put_one(out, at, *allele, Ok(plan), i);
    }
}

// Writes the shortest permitted spelling at the start of the output.
fn write_rest(row: &[Allele], major: u32, minor: u32, out: &mut [u8]) -> Result<usize, WriteError>
    ensures { WritesList row.now (from44 major minor) out.old result out.new }
{
    let tally = tally_row(row, out.len());
    let plan = tally.plan(row.len(), major, minor)?;
    put_row(row, plan, out);
    Ok(plan.size())
}

// Writes the shortest spelling that a file format permits, from the place `at` on, and returns how many bytes that takes.
pub fn write_alleles(
    row: &[Allele],
    major: u32,
    minor: u32,
    out: &mut [u8],
    at: usize,
) -> Result<usize, WriteError>
    ensures { WritesAlleles row.now major minor out.old at result out.new }
{
    note_numbers(row);
    if at > out.len() {
        return Err(WriteError::Beyond);
    }
    write_rest(row, major, minor, &mut out[at..])
}
