// One entry in its bytes, the lowest first.
ghost use Rattle.std.specs.Prelude.{◌≡◌, ◌≤◌, ◌<◌, ◌+◌, ◌*◌, ◌/◌, ◌%◌, length, get_or, take, drop};
ghost use Rattle.text.specs.Over.{over_at};
ghost use Rattle.bcf.specs.Layout.{size, little_of};
ghost use Rattle.bcf.specs.Reading.{number_by, entries_in};

use crate::width::Width;

// The number whose two bytes begin at `at`.
fn two_from(bytes: &[u8], at: usize) -> u64
    requires { at + 2 ≤ length bytes.now }
    ensures value { result ≡ number_by (take 2 (drop at bytes.now)) }
    ensures upper_bound { result ≤ 65535 }
{
    let low = u64::from(bytes[at]);
    let high = u64::from(bytes[at + 1]);
    low + 256 * high
}

// The number whose four bytes begin at `at`.
fn four_from(bytes: &[u8], at: usize) -> u64
    requires { at + 4 ≤ length bytes.now }
    ensures { result ≡ number_by (take 4 (drop at bytes.now)) }
{
    let low = two_from(bytes, at);
    let high = two_from(bytes, at + 2);
    low + 65536 * high
}

// Writes the lowest byte of a number.
fn put_byte(number: u64, out: &mut [u8], at: usize)
    requires { at < length out.old }
    ensures { out.new ≡ over_at at (little_of 1 number) out.old }
{
    out[at] = (number % 256) as u8;
}

// Writes the lowest two bytes of a number.
fn put_two(number: u64, out: &mut [u8], at: usize)
    requires { at + 2 ≤ length out.old }
    ensures { out.new ≡ over_at at (little_of 2 number) out.old }
{
    put_byte(number, out, at);
    put_byte(number / 256, out, at + 1);
}

// Writes the lowest four bytes of a number.
fn put_four(number: u64, out: &mut [u8], at: usize)
    requires { at + 4 ≤ length out.old }
    ensures { out.new ≡ over_at at (little_of 4 number) out.old }
{
    put_two(number, out, at);
    put_two(number / 65536, out, at + 2);
}

impl Width {
    // The entry with index k.
    pub(crate) fn entry_at(self, bytes: &[u8], k: usize) -> u64
        requires { k < length bytes.now / size self }
        ensures { result ≡ get_or (entries_in self bytes.now) k 0 }
    {
        match self {
            Width::W8 => u64::from(bytes[k]),
            Width::W16 => two_from(bytes, 2 * k),
            Width::W32 => four_from(bytes, 4 * k),
        }
    }

    // Writes the entry with index k.
    pub(crate) fn put_entry(self, entry: u64, out: &mut [u8], k: usize)
        requires { k < length out.old / size self }
        ensures { out.new ≡ over_at (k * size self) (little_of (size self) entry) out.old }
    {
        match self {
            Width::W8 => put_byte(entry, out, k),
            Width::W16 => put_two(entry, out, 2 * k),
            Width::W32 => put_four(entry, out, 4 * k),
        }
    }
}
