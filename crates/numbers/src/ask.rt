// What the program's two arguments ask for.
ghost use Rattle.std.specs.Prelude.{◌≡◌};
ghost use Rattle.std.proofs.Math.Option.{some};
ghost use Rattle.allele.specs.Reading.{reading_of};
ghost use Rattle.numbering.specs.Answers.{number_answer};
ghost use Rattle.numbers.specs.Paper.{ask_paper};
ghost use Rattle.numbers.specs.Ask.{has_mark, all_answer, one_answer, Asks};

use decimal::read::read_decimal;
use genotype::read::read_genotype;
use numbering::counts::count_of;
use numbering::number::number_of;
use pieces::count::count_byte;

// What is asked for, both with the number 0; where nothing of this is, the number is 23.
#[derive(Clone, Copy)]
pub enum Ask {
    // All genotypes: the ploidy, the allele count, and how many there are.
    All(u64, u64, u64),
    // The number of one.
    One(u64),
}

// Whether a text holds a `/` or a `|`.
fn has_mark(t: &[u8]) -> bool
    ensures { result ≡ has_mark t.now }
{
    count_byte(t, b'/') > 0 || count_byte(t, b'|') > 0
}

// All genotypes of a ploidy over so many alleles.
fn ask_all(ploidy: u64, alleles: u64) -> Option<Ask>
    ensures { ask_paper result ≡ all_answer (some ploidy) (some alleles) }
{
    let count = count_of(ploidy, alleles).ok()?;
    Some(Ask::All(ploidy, alleles, count))
}

// The number of one genotype.
fn ask_number(alleles: u64, genotype: &[u64]) -> Option<Ask>
    ensures { ask_paper result ≡ number_answer alleles genotype.now }
{
    let number = number_of(genotype, alleles).ok()?;
    Some(Ask::One(number))
}

// The same of a genotype text. More than eight alleles have no number.
fn ask_one(alleles: u64, text: &[u8]) -> Option<Ask>
    ensures { ask_paper result ≡ one_answer (some alleles) (reading_of text.now) }
{
    let mut numbers = [0u64; 8];
    let mut missing = [0u8; 8];
    let mut phased = [0u8; 8];
    let n = read_genotype(text, &mut numbers, &mut missing, &mut phased).ok()?;
    if count_byte(&missing[..n], 1) > 0 {
        return None;
    }
    ask_number(alleles, &numbers[..n])
}

// What two arguments ask for: a ploidy and an allele count, or an allele count and a genotype with a mark.
pub fn asked(first: &[u8], second: &[u8]) -> Option<Ask>
    ensures { Asks first.now second.now result }
{
    let n = read_decimal(first).ok()?;
    if has_mark(second) {
        return ask_one(n, second);
    }
    let alleles = read_decimal(second).ok()?;
    ask_all(n, alleles)
}
