// A row of alleles that is lent as three slices of one length: each allele's number, whether it is missing, and whether it is phased.
ghost use Rattle.allele.specs.Row.{Parallel};

use crate::allele::Allele;

#[derive(Drop)]
pub struct RowMut<'a> {
    pub numbers: &'a mut [u64],
    pub missing: &'a mut [u8],
    pub phased: &'a mut [u8],
    ghost parallel: { Parallel numbers.now missing.now phased.now },
}

impl<'a> RowMut<'a> {
    ghost use Rattle.allele.specs.Slices.{SameSlices, StoresIn};

    // Stores an allele at an index, where the row has it.
    pub fn store(&mut self, k: usize, allele: Allele)
        ensures same_slices { SameSlices self.old self.new }
        ensures stores { StoresIn allele k self.old self.new }
    {
        if k >= self.numbers.len() {
            return;
        }
        self.numbers[k] = allele.number;
        self.missing[k] = u8::from(allele.missing);
        self.phased[k] = u8::from(allele.phased);
    }
}
