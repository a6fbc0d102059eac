// Writing a row that is passed by value, for callers that have none to lend.
ghost use Rattle.own.specs.Write.{WritesOwn};

use allele::allele::Allele;
use alleles::write::write_alleles;
use spelling::write::WriteError;

// Writes the records from `from` on, none where `from` is 64 or more.
pub fn write_own(
    row: [Allele; 64],
    from: usize,
    major: u32,
    minor: u32,
    out: &mut [u8],
    at: usize,
) -> Result<usize, WriteError>
    ensures { WritesOwn row from major minor out.old at result out.new }
{
    write_alleles(&row[from.min(64)..], major, minor, out, at)
}
