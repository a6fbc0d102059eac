// The allele that stands at a place of a genotype text.
ghost use Rattle.std.specs.Prelude.{◌≡◌, ◌+◌, ◌-◌, ◌≤◌, ◌<◌, length, drop};
ghost use Rattle.decimal.specs.Decimal.{fault_of};
ghost use Rattle.allele.specs.Reading.{head_of, implied_by, bodied, allele_answer};
ghost use Rattle.allele.specs.Paper.{step_paper};
ghost use Rattle.allele.specs.Promises.{TellsMark, TakesStep};

use crate::allele::Allele;
use decimal::read::read_decimal;

// Why a step from a place finds no allele.
#[derive(Clone, Copy, Debug, PartialEq, Eq)]
pub enum NoAllele {
    // 6: the place lies beyond the text.
    Beyond,
    // 10: the place is the text's end.
    Nothing,
    // 11: the text is empty.
    Empty,
    // 12: what stands there is no allele. The place, in the text, of the byte at fault.
    Bad(usize),
}

// Whether a byte is `|` or `/`. No branch goes by which of them it is.
pub fn is_mark(b: u8) -> bool
    ensures { TellsMark b result }
{
    (b == b'|') | (b == b'/')
}

// The index of the first `|` or `/` at or after `from`, or the text's length.
fn next_mark(text: &[u8], from: usize) -> usize
    requires { from ≤ length text.now }
    ensures value { result ≡ from + length (head_of (drop from text.now)) }
    ensures upper_bound { result ≤ length text.now }
{
    for i in from..text.len() {
        if is_mark(text[i]) {
            return i;
        }
    }
    text.len()
}

// The phasing that the marks from `from` on imply: unphased where any is `/`, not only the nearest.
fn implied(text: &[u8], from: usize) -> bool
    requires { from ≤ length text.now }
    ensures { result ≡ implied_by (drop from text.now) }
{
    !text[from..].contains(&b'/')
}

// A piece without its mark, which ends at the place `next`: `.` or a decimal. Where it starts is reckoned only for a fault.
fn read_body(body: &[u8], phased: bool, next: usize) -> Result<(Allele, usize), NoAllele>
    requires { length body.now ≤ next }
    ensures { step_paper result ≡ allele_answer next (next - length body.now + fault_of body.now) (bodied phased body.now) }
{
    if body == b".".as_slice() {
        let dot = Allele {
            number: 0,
            missing: true,
            phased,
        };
        return Ok((dot, next));
    }
    match read_decimal(body) {
        Ok(number) => {
            let allele = Allele {
                number,
                missing: false,
                phased,
            };
            Ok((allele, next))
        }
        Err(bad) => {
            let start = next - body.len();
            Err(NoAllele::Bad(start + bad.at))
        }
    }
}

// The allele that starts at the place `at`, as the first allele of the text from there on, and the place past it.
pub fn step_at(text: &[u8], at: usize) -> Result<(Allele, usize), NoAllele>
    ensures { TakesStep text.now at result }
{
    if at > text.len() {
        return Err(NoAllele::Beyond);
    }
    if text.is_empty() {
        return Err(NoAllele::Empty);
    }
    if at == text.len() {
        return Err(NoAllele::Nothing);
    }
    let end = next_mark(text, at + 1);
    match text[at] {
        b'|' => read_body(&text[at + 1..end], true, end),
        b'/' => read_body(&text[at + 1..end], false, end),
        _ => read_body(&text[at..end], implied(text, at + 1), end),
    }
}
