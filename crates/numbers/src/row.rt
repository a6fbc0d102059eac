// A line of the table: the number of a genotype, a tab, the genotype, LF.
ghost use Rattle.std.specs.Prelude.{◌≡◌, ◌∷◌, ◌+◌, ◌≤◌, length};
ghost use Rattle.decimal.specs.Shortest.{shortest};
ghost use Rattle.numbers.specs.Table.{row_text, PutsRow};
ghost use Rattle.numbers.specs.Inner.{behind, Puts, Starts, LineFits};
ghost use Rattle.numbers.specs.declared.row.RowError.TheVariants.{Full};

use decimal::print::print_decimal;
use numbering::genotype::genotype_of;
use text::copy::{NoRoom, copy};

// Why no line is put.
#[derive(Clone, Copy, Debug, PartialEq, Eq)]
pub enum RowError {
    // 6: the place lies beyond the output.
    Beyond,
    // 23: there is no such genotype.
    NoGenotype,
    // 17: the output has no room for the line.
    Full,
}

impl From<NoRoom> for RowError {
    ghost from_gives = { λ _ e. e ≡ Full };

    fn from(_e: NoRoom) -> RowError {
        RowError::Full
    }
}

// Puts a byte and a number from the place `at` on, and returns the place past them.
fn put_number(b: u8, n: u64, line: &mut [u8], at: usize) -> usize
    requires { at + length (b ∷ shortest n) ≤ length line.old }
    ensures { Puts at (b ∷ shortest n) line.old result line.new }
{
    let written = print_decimal(n, &mut line[at + 1..]);
    line[at] = b;
    match written {
        Ok(len) => at + 1 + len,
        Err(_) => at,
    }
}

// Puts a tab and a genotype from the place `at` on, and returns the place past them.
fn put_genotype(genotype: &[u64], line: &mut [u8], at: usize) -> usize
    requires { at + length (behind 9 genotype.now) ≤ length line.old }
    ensures { Puts at (behind 9 genotype.now) line.old result line.new }
{
    let mut next = at;
    let mut mark = b'\t';
    for &k in genotype {
        next = put_number(mark, k, line, next);
        mark = b'/';
    }
    next
}

// Puts a whole line at the start, and returns how many bytes it has.
fn put_line(number: u64, genotype: &[u64], line: &mut [u8]) -> usize
    requires { LineFits number genotype.now line.old }
    ensures { Starts (row_text number genotype.now) line.old result line.new }
{
    let Ok(len) = print_decimal(number, line) else {
        return 0;
    };
    let end = put_genotype(genotype, line, len);
    line[end] = b'\n';
    end + 1
}

// Puts the line of a genotype, asked by its number, into the output from the place `at` on, and answers how many bytes it has. It is
// made apart, so that a refusal writes nothing.
pub fn put_row(
    number: u64,
    ploidy: u64,
    alleles: u64,
    out: &mut [u8],
    at: usize,
) -> Result<usize, RowError>
    ensures { PutsRow number ploidy alleles out.old at result out.new }
{
    if at > out.len() {
        return Err(RowError::Beyond);
    }
    let mut genotype = [0u64; 8];
    let Ok(_) = genotype_of(number, ploidy, alleles, &mut genotype) else {
        return Err(RowError::NoGenotype);
    };
    let mut line = [0u8; 64];
    let len = put_line(number, &genotype[..ploidy as usize], &mut line);
    Ok(copy(&line[..len], &mut out[at..])?)
}
