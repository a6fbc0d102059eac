// Characters and decimal numbers.
ghost use Rattle.text.specs.Paper.{written_paper, space_paper};
ghost use Rattle.decimal.specs.Paper.{number_paper};
ghost use Rattle.exports.specs.Told.{Tells};
ghost use Rattle.exports.specs.Promises.{ChecksUtf8, FindsSpace, ReadsDecimal, PrintsDecimal};

use crate::told::{VALUES, tell};
use decimal::print::print_decimal;
use decimal::read::{BadDecimal, read_decimal};
use text::copy::NoRoom;
use text::space::find_space;
use text::utf8::{NotUtf8, check_utf8};

// Whether the text is UTF-8: 0, or 5. It has no values.
#[unsafe(no_mangle)]
pub extern "C" fn bruncadorza_check_utf8(text: &[u8]) -> u64
    ensures { ChecksUtf8 text.now result }
{
    match check_utf8(text) {
        Ok(()) => 0,
        Err(_) => 5,
    }
}

fn tell_space(space: Result<bool, NotUtf8>, values: &mut [u64; VALUES]) -> u64
    ensures { Tells (space_paper space) values.old result values.new }
{
    match space {
        Ok(held) => tell(0, &[usize::from(held)], values),
        Err(_) => tell(5, &[], values),
    }
}

// Whether the text holds white space: 0, or 5. One value at most: 1 where it does, else 0.
#[unsafe(no_mangle)]
pub extern "C" fn bruncadorza_find_space(text: &[u8], values: &mut [u64; VALUES]) -> u64
    ensures { FindsSpace text.now values.old result values.new }
{
    tell_space(find_space(text), values)
}

fn tell_number(number: Result<u64, BadDecimal>, values: &mut [u64; VALUES]) -> u64
    ensures { Tells (number_paper number) values.old result values.new }
{
    match number {
        Ok(n) => tell(0, &[n as usize], values),
        Err(bad) => tell(12, &[bad.at], values),
    }
}

// Reads a decimal text: 0, or 12. One value: what it is worth, or the place of the byte at fault.
#[unsafe(no_mangle)]
pub extern "C" fn bruncadorza_read_decimal(text: &[u8], values: &mut [u64; VALUES]) -> u64
    ensures { ReadsDecimal text.now values.old result values.new }
{
    tell_number(read_decimal(text), values)
}

fn tell_written(written: Result<usize, NoRoom>, values: &mut [u64; VALUES]) -> u64
    ensures { Tells (written_paper written) values.old result values.new }
{
    match written {
        Ok(n) => tell(0, &[n], values),
        Err(_) => tell(17, &[], values),
    }
}

// Writes the shortest decimal of `n` at the start of `out`: 0, or 17 where it does not fit. One value at most: how many
// bytes were written.
#[unsafe(no_mangle)]
pub extern "C" fn bruncadorza_print_decimal(
    n: u64,
    out: &mut [u8],
    values: &mut [u64; VALUES],
) -> u64
    ensures { PrintsDecimal n out.old values.old result out.new values.new }
{
    tell_written(print_decimal(n, out), values)
}
