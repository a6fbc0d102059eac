// What is known of a list of alleles after some of them, so that one pass judges it: alleles come one by one, from slices or
// from a row of records.
ghost use Rattle.std.specs.Prelude.{◌≡◌, ◌≤◌, length};
ghost use Rattle.spelling.specs.Spelling.{body_text};
ghost use Rattle.spelling.specs.Permitted.{from44};
ghost use Rattle.spelling.specs.Inner.{room_left};
ghost use Rattle.spelling.specs.Promises.{Begins, Adds, Plans, Sizes};

use crate::row::is_sound;
use crate::write::WriteError;
use allele::allele::Allele;
use decimal::print::decimal_len;

#[derive(Clone, Copy)]
pub struct Tally {
    // The index of the first allele that is missing and has a number.
    pub bad: Option<usize>,
    // The first phasing, and whether each later one is phased.
    pub first: bool,
    pub later: bool,
    // The room that it began with, and what the spelling, its first allele without a mark, leaves of it: nothing where it does
    // not fit.
    pub room: usize,
    pub left: Option<usize>,
}

// How a list is to be written: the first allele without its mark, or with it; and how many bytes that takes.
#[derive(Clone, Copy)]
pub enum Plan {
    Bare(usize),
    Marked(usize),
}

impl Plan {
    // How many bytes it takes.
    pub fn size(self) -> usize
        ensures { Sizes self result }
    {
        match self {
            Plan::Bare(n) => n,
            Plan::Marked(n) => n,
        }
    }
}

// How many bytes an allele takes without its mark.
fn body_len(a: Allele) -> usize
    ensures value { result ≡ length (body_text a) }
    ensures upper_bound { result ≤ 20 }
{
    if a.missing { 1 } else { decimal_len(a.number) }
}

// Whether the file format is 4.4 or later.
fn from_44(major: u32, minor: u32) -> bool
    ensures { result ≡ from44 major minor }
{
    major > 4 || (major == 4 && minor >= 4)
}

// What n more bytes leave. Lengths are never added up: those of 2^60 alleles would pass 64 bits.
fn shorten(left: Option<usize>, n: usize) -> Option<usize>
    ensures { result ≡ room_left left n }
{
    left?.checked_sub(n)
}

impl Tally {
    // Before the first allele, with so much room.
    pub fn new(room: usize) -> Tally
        ensures { Begins room result }
    {
        Tally {
            bad: None,
            first: true,
            later: true,
            room,
            left: Some(room),
        }
    }

    // After the allele with index k. The first is counted without its mark.
    pub fn add(&mut self, a: Allele, k: usize)
        ensures { Adds self.old a k self.new }
    {
        if self.bad.is_some() {
            return;
        }
        if !is_sound(a) {
            self.bad = Some(k);
            return;
        }
        let n = body_len(a);
        if k == 0 {
            self.first = a.phased;
            self.left = shorten(self.left, n);
            return;
        }
        self.later &= a.phased;
        self.left = shorten(self.left, n + 1);
    }

    // How a list of `count` alleles with this tally is to be written. The first mark takes a byte more.
    pub fn plan(self, count: usize, major: u32, minor: u32) -> Result<Plan, WriteError>
        ensures { Plans self count major minor result }
    {
        if count == 0 {
            return Err(WriteError::Empty);
        }
        if let Some(k) = self.bad {
            return Err(WriteError::Bad(k));
        }
        if self.first == self.later {
            let Some(left) = self.left else {
                return Err(WriteError::Short);
            };
            return Ok(Plan::Bare(self.room.saturating_sub(left)));
        }
        if !from_44(major, minor) {
            return Err(WriteError::Phasing);
        }
        match self.left {
            Some(left) if left > 0 => Ok(Plan::Marked(self.room.saturating_sub(left) + 1)),
            _ => Err(WriteError::Short),
        }
    }
}
