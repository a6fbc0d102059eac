// The verbs of the genotype readers over parallel slices, and of one step.
use crate::case_words::{Text, hex, place, size, two_hex, word};
use crate::output::{Buffer, Said};
use crate::parts::front;
use allele::allele::Allele;
use allele::step::{NoAllele, step_at};
use genotype::read::{ReadError, read_checked, read_genotype};

// The most alleles of a row.
pub const ROW: usize = 64;

pub fn answer(case: &[u8], arguments: usize, text: &mut Text, out: &mut Buffer) -> Option<()> {
    match (word(case, 0), arguments) {
        (b"read", 2) => {
            let n = size(case, 1, ROW)?;
            read(hex(case, 2, text)?, None, n, out);
        }
        (b"readalt", 3) => {
            let n = size(case, 1, ROW)?;
            let (s, alt) = two_hex(case, 2, text)?;
            read(s, Some(alt), n, out);
        }
        (b"unequal", 4) => answer_unequal(case, text, out)?,
        (b"gtstep", 2) => {
            let from = place(case, 2)?;
            put_step(step_at(hex(case, 1, text)?, from), out);
        }
        _ => return None,
    }
    Some(())
}

// A genotype read into n alleles, and checked against an ALT column where one is given.
fn read(s: &[u8], alt: Option<&[u8]>, n: usize, out: &mut Buffer) {
    let mut numbers = [7u64; ROW];
    let mut missing = [7u8; ROW];
    let mut phased = [7u8; ROW];
    let numbers = front(&mut numbers, n);
    let missing = front(&mut missing, n);
    let phased = front(&mut phased, n);
    let read = match alt {
        Some(alt) => read_checked(s, alt, numbers, missing, phased),
        None => read_genotype(s, numbers, missing, phased),
    };
    out.put_said(said(read));
    then_row(numbers, missing, phased, out);
}

pub fn said(read: Result<usize, ReadError>) -> Said {
    match read {
        Ok(n) => Said::With(0, n as u64),
        Err(ReadError::Empty) => Said::Alone(11),
        Err(ReadError::Bad(k, at)) => Said::WithTwo(12, k as u64, at as u64),
        Err(ReadError::Lengths) => Said::Alone(16),
        Err(ReadError::Short) => Said::Alone(17),
        Err(ReadError::Above(k)) => Said::With(20, k as u64),
    }
}

// A space and `number:missing:phased` for each record, or a space and `-` for none.
pub fn then_row(numbers: &[u64], missing: &[u8], phased: &[u8], out: &mut Buffer) {
    if numbers.is_empty() {
        out.then_bytes(b"-");
    }
    for ((number, missing), phased) in numbers.iter().zip(missing).zip(phased) {
        then_allele(*number, *missing, *phased, out);
    }
}

fn then_allele(number: u64, missing: u8, phased: u8, out: &mut Buffer) {
    out.then_number(number);
    out.put(b':');
    out.put_number(u64::from(missing));
    out.put(b':');
    out.put_number(u64::from(phased));
}

pub fn then_record(a: Allele, out: &mut Buffer) {
    then_allele(a.number, u8::from(a.missing), u8::from(a.phased), out);
}

// Three slices whose lengths may differ.
fn answer_unequal(case: &[u8], text: &mut Text, out: &mut Buffer) -> Option<()> {
    let mut numbers = [7u64; ROW];
    let mut missing = [7u8; ROW];
    let mut phased = [7u8; ROW];
    let numbers = front(&mut numbers, size(case, 1, ROW)?);
    let missing = front(&mut missing, size(case, 2, ROW)?);
    let phased = front(&mut phased, size(case, 3, ROW)?);
    let read = read_genotype(hex(case, 4, text)?, numbers, missing, phased);
    out.put_said(said(read));
    out.then_numbers(numbers);
    out.then_numbers(missing);
    out.then_numbers(phased);
    Some(())
}

fn put_step(step: Result<(Allele, usize), NoAllele>, out: &mut Buffer) {
    match step {
        Ok((allele, past)) => {
            out.put_said(Said::With(0, past as u64));
            then_record(allele, out);
        }
        Err(NoAllele::Beyond) => out.put_number(6),
        Err(NoAllele::Nothing) => out.put_number(10),
        Err(NoAllele::Empty) => out.put_number(11),
        Err(NoAllele::Bad(at)) => out.put_said(Said::With(12, at as u64)),
    }
}
