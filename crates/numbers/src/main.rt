// The numbers of genotypes, from the command line: all of a ploidy and an allele count, or that of one genotype.

#![tactic(auto)]

mod ask;
mod print;
mod row;

use ask::{Ask, asked};
use std::env::{Env, FillError};
use std::io;

// So long may an argument be.
const LONGEST: usize = 256;

fn say_usage<E: Eprint>(rt: &E) -> io::Result<()> {
    rt.eprintln(
        "numbering: usage: ./numbering PLOIDY ALLELES or ./numbering ALLELES GENOTYPE: ploidy 1 to 8, alleles 1 to 64, a genotype as 0/1 or /1 with alleles below ALLELES that never fall",
    )
}

// What the arguments ask for. There are to be two, and none is cut short.
fn read_arguments<E: Env>(rt: &E) -> Option<Ask> {
    let mut first = [0u8; LONGEST];
    let first_len = rt.arg(1, &mut first).ok()?;
    let mut second = [0u8; LONGEST];
    let second_len = rt.arg(2, &mut second).ok()?;
    let mut third = [0u8; LONGEST];
    let Err(FillError::NotPresent) = rt.arg(3, &mut third) else {
        return None;
    };
    asked(&first[..first_len], &second[..second_len])
}

fn main(rt: HostRuntime) -> io::Result<()> {
    match read_arguments(&rt) {
        Some(Ask::All(ploidy, alleles, count)) => {
            print::print_all(&mut rt.stdout(), ploidy, alleles, count)
        }
        Some(Ask::One(number)) => print::print_one(&mut rt.stdout(), number),
        None => say_usage(&rt),
    }
}
