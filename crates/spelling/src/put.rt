// Writing one allele at a place of the output.
ghost use Rattle.std.specs.Prelude.{◌≡◌};
ghost use Rattle.text.specs.Over.{Writes};
ghost use Rattle.allele.specs.Means.{mark_byte};
ghost use Rattle.spelling.specs.Spelling.{body_text, allele_text};
ghost use Rattle.spelling.specs.Inner.{PutsAt};
ghost use Rattle.spelling.specs.Promises.{PutsOne};

use crate::tally::Plan;
use crate::write::WriteError;
use allele::allele::Allele;
use decimal::print::print_decimal;
use text::copy::{NoRoom, copy};

// Writes an allele without its mark at the start of the output: `.` or its number.
fn put_body(a: Allele, out: &mut [u8]) -> Result<usize, NoRoom>
    ensures { Writes (body_text a) out.old result out.new }
{
    if a.missing {
        copy(b".", out)
    } else {
        print_decimal(a.number, out)
    }
}

// A phasing's mark.
fn mark_byte(phased: bool) -> u8
    ensures { result ≡ mark_byte phased }
{
    if phased { b'|' } else { b'/' }
}

// Writes an allele, without its mark where it is bare, at the place `at`, and returns the place past it; where it does not
// fit there, nothing is written and the place is returned.
fn put_allele(a: Allele, bare: bool, out: &mut [u8], at: usize) -> usize
    ensures { PutsAt (allele_text bare a) at out.old result out.new }
{
    if at > out.len() {
        return at;
    }
    if bare {
        let Ok(n) = put_body(a, &mut out[at..]) else {
            return at;
        };
        return at + n;
    }
    if at == out.len() {
        return at;
    }
    let body = at + 1;
    let Ok(n) = put_body(a, &mut out[body..]) else {
        return at;
    };
    out[at] = mark_byte(a.phased);
    body + n
}

// Writes the allele with index k of a list at the place `at`, as planned, and returns the place past it. Nothing is written
// where it does not fit there, or where the list is refused.
pub fn put_one(
    out: &mut [u8],
    at: usize,
    a: Allele,
    plan: Result<Plan, WriteError>,
    k: usize,
) -> usize
    ensures { PutsOne a plan k out.old at result out.new }
{
    match plan {
        Ok(Plan::Bare(_)) => put_allele(a, k == 0, out, at),
        Ok(Plan::Marked(_)) => put_allele(a, false, out, at),
        Err(_) => at,
    }
}
