// The lines that vcflist prints, and what its last line counts.
ghost use Rattle.std.specs.Prelude.{◌≤◌, ◌+◌, length, [], ◌∷◌};
ghost use Rattle.text.specs.Answer.{says};
ghost use Rattle.listing.specs.Output.{row_bytes, total_bytes};
ghost use Rattle.listing.specs.Paper.{row_paper};
ghost use Rattle.listing.specs.Inner.{spaced, Put, Sizes, Lays, Counts};

use crate::turn::{ReadRow, Refusal};
use decimal::print::{decimal_len, print_decimal};
use text::copy::NoRoom;

// How many lines were read, and how many refused.
#[derive(Clone, Copy)]
pub struct Totals {
    pub read: u64,
    pub refused: u64,
}

// Puts bytes into the output from a place on, and answers the place behind them.
fn put(out: &mut [u8], at: usize, s: &[u8]) -> usize
    requires { at + length s.now ≤ length out.old }
    ensures { Put at s.now out.old result out.new }
{
    let end = at + s.len();
    out[at..end].copy_from_slice(s);
    end
}

// Puts a space and a number.
fn put_number(out: &mut [u8], at: usize, n: u64) -> usize
    requires { at + length (spaced n) ≤ length out.old }
    ensures { Put at (spaced n) out.old result out.new }
{
    let len = print_decimal(n, &mut out[at + 1..]).unwrap();
    out[at] = b' ';
    at + 1 + len
}

// How many bytes a space and a number are.
fn number_size(n: u64) -> usize
    ensures { Sizes n result }
{
    1 + decimal_len(n)
}

impl ReadRow {
    fn print(self, out: &mut [u8], at: usize) -> Result<usize, NoRoom>
        ensures { Lays at (row_bytes (row_paper (Ok self))) out.old result out.new }
    {
        let columns = self.columns as u64;
        let infos = self.infos as u64;
        let samples = self.samples as u64;
        let size = 3 + number_size(columns) + number_size(infos) + number_size(samples);
        if size > out.len().saturating_sub(at) {
            return Err(NoRoom);
        }
        let word = put(out, at, b"ok");
        let first = put_number(out, word, columns);
        let second = put_number(out, first, infos);
        let third = put_number(out, second, samples);
        Ok(put(out, third, b"\n"))
    }
}

impl Refusal {
    fn print(self, out: &mut [u8], at: usize) -> Result<usize, NoRoom>
        ensures { Lays at (row_bytes (row_paper (Err self))) out.old result out.new }
    {
        let number = self.number();
        let size = 8 + number_size(number);
        if size > out.len().saturating_sub(at) {
            return Err(NoRoom);
        }
        let word = put(out, at, b"refused");
        let last = put_number(out, word, number);
        Ok(put(out, last, b"\n"))
    }
}

// Prints a row behind the first `at` bytes of the output.
pub(crate) fn print_row(
    row: Result<ReadRow, Refusal>,
    out: &mut [u8],
    at: usize,
) -> Result<usize, NoRoom>
    ensures { Lays at (row_bytes (row_paper row)) out.old result out.new }
{
    match row {
        Ok(read) => read.print(out, at),
        Err(why) => why.print(out, at),
    }
}

impl Totals {
    // Prints the last line behind the first `at` bytes of the output.
    pub(crate) fn print(self, out: &mut [u8], at: usize) -> Result<usize, NoRoom>
        ensures { Lays at (total_bytes self.read self.refused) out.old result out.new }
    {
        let size = 13 + number_size(self.read) + number_size(self.refused);
        if size > out.len().saturating_sub(at) {
            return Err(NoRoom);
        }
        let first = put(out, at, b"read");
        let second = put_number(out, first, self.read);
        let third = put(out, second, b" refused");
        let last = put_number(out, third, self.refused);
        Ok(put(out, last, b"\n"))
    }

    // The totals after one more row, where 64 bits hold them.
    pub(crate) fn count(self, row: Result<ReadRow, Refusal>) -> Totals
        ensures { Counts self (row_paper row) result }
    {
        match row {
            Ok(_) => Totals {
                read: self.read.saturating_add(1),
                ..self
            },
            Err(_) => Totals {
                refused: self.refused.saturating_add(1),
                ..self
            },
        }
    }
}
