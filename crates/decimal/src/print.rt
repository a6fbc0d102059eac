// Printing a number of up to 64 bits as its shortest decimal.
ghost use Rattle.std.specs.Prelude.{◌≡◌, ◌≤◌, ◌+◌, length};
ghost use Rattle.text.specs.Over.{over, Writes};
ghost use Rattle.decimal.specs.Shortest.{shortest};
ghost use Rattle.decimal.specs.Promises.{CountsDigits};
ghost use Rattle.decimal.specs.Inner.{Sizes};

use text::copy::NoRoom;

// How many digits a number has, and the power of ten that the first of them counts: 1 for numbers below ten.
#[derive(Clone, Copy)]
struct Size {
    len: usize,
    power: u64,
}

// No power passes the number, so none passes 64 bits.
fn size_of(n: u64) -> Size
    ensures { Sizes n result }
{
    // Kept: `len` counts digits while the number falls, which no range tells before.
    let mut len = 1;
    let mut power = 1;
    let mut m = n;
    while m >= 10 {
        m /= 10;
        power *= 10;
        len += 1;
    }
    Size { len, power }
}

// How many digits a number has.
pub fn decimal_len(n: u64) -> usize
    ensures { CountsDigits n result }
{
    size_of(n).len
}

// The digit that a number below ten is written as.
fn digit(d: u64) -> u8
    requires { d ≤ 9 }
    ensures { result ≡ 48 + d }
{
    b'0' + d as u8
}

// Writes the digits of a number of this size, from the first to the last, which needs no division.
fn put_digits(n: u64, size: Size, out: &mut [u8])
    requires sizes { Sizes n size }
    requires len_in_bounds { size.len ≤ length out.old }
    ensures { out.new ≡ over (shortest n) out.old }
{
    let last = size.len - 1;
    let mut rest = n;
    let mut power = size.power;
    for i in 0..last {
        out[i] = digit(rest / power);
        rest %= power;
        power /= 10;
    }
    out[last] = digit(rest);
}

// Writes a number's shortest decimal at the start of the output. Answers how many bytes were written.
pub fn print_decimal(n: u64, out: &mut [u8]) -> Result<usize, NoRoom>
    ensures { Writes (shortest n) out.old result out.new }
{
    let size = size_of(n);
    if size.len > out.len() {
        return Err(NoRoom);
    }
    put_digits(n, size, out);
    Ok(size.len)
}
