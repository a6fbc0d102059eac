// A list of alleles that comes as three slices of one length.
ghost use Rattle.std.specs.Prelude.{◌≡◌};
ghost use Rattle.allele.specs.Row.{Parallel, is_sound};

use allele::allele::Allele;

#[derive(Clone, Copy)]
pub struct Row<'a> {
    pub numbers: &'a [u64],
    pub missing: &'a [u8],
    pub phased: &'a [u8],
    ghost parallel: { Parallel numbers.now missing.now phased.now },
}

impl<'a> Row<'a> {
    ghost use Rattle.spelling.specs.Row.{MakesRow};
    ghost use Rattle.spelling.specs.Promises.{Counts, GivesAt};

    // The list, where the slices have one length.
    pub fn new(numbers: &'a [u64], missing: &'a [u8], phased: &'a [u8]) -> Option<Row<'a>>
        ensures { MakesRow numbers.entry missing.entry phased.entry result }
    {
        if numbers.len() != missing.len() || numbers.len() != phased.len() {
            return None;
        }
        Some(Row {
            numbers,
            missing,
            phased,
        })
    }

    // How many alleles it has.
    pub fn len(self) -> usize
        ensures { Counts self.entry result }
    {
        self.numbers.len()
    }

    // The allele with index k, and beyond the last one an allele that is missing. Any number but 0 marks it as missing, or as
    // phased.
    pub fn at(self, k: usize) -> Allele
        ensures { GivesAt self.entry k result }
    {
        if k >= self.numbers.len() {
            return Allele {
                number: 0,
                missing: true,
                phased: false,
            };
        }
        Allele {
            number: self.numbers[k],
            missing: self.missing[k] != 0,
            phased: self.phased[k] != 0,
        }
    }
}

// Whether an allele has no number beside a missing mark.
pub fn is_sound(a: Allele) -> bool
    ensures { result ≡ is_sound a }
{
    !a.missing || a.number == 0
}
