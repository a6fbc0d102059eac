// Writing columns that were judged, with tabs between.
ghost use Rattle.std.specs.Prelude.{◌≡◌, true, [], ◌∷◌, ◌++◌, ◌+◌, ◌-◌, ◌<◌, ◌≤◌, length, take, drop};
ghost use Rattle.text.specs.Over.{over, over_at};
ghost use Rattle.pieces.specs.Pieces.{joined};
ghost use Rattle.entries.specs.Entries.{rising, entry_list};
ghost use Rattle.join.specs.Inner.{Lies, Short, Puts};

use crate::simple::last_end;
use text::copy::copy;

// Copies the first 16 bytes of a text. Through a block of their own they are moved at once, since it shares no memory with either side.
fn put_sixteen(from: &[u8], out: &mut [u8], at: usize)
    requires from_in_bounds { 16 ≤ length from.now }
    requires at_in_bounds { at + 16 ≤ length out.old }
    ensures { out.new ≡ over_at at (take 16 from.now) out.old }
{
    let mut block = [0u8; 16];
    block.copy_from_slice(&from[..16]);
    out[at..at + 16].copy_from_slice(&block);
}

// Whether a column, the first n bytes of a text, can be copied as 16 bytes: those past its end are written over by the columns
// behind it.
fn is_short(from: &[u8], n: usize) -> bool
    ensures { result ≡ true → Short n from.now }
{
    n <= 16 && from.len() >= 16
}

// Copies a column, the first n bytes of a text, to the place `at`, and maybe bytes past its end, where the columns behind it are
// written next.
fn put_part(from: &[u8], n: usize, out: &mut [u8], at: usize)
    requires { Lies n from.now at out.old }
    ensures { Puts (take n from.now) (length from.now - n) at out.old out.new }
{
    if is_short(from, n) {
        put_sixteen(from, out, at);
    } else {
        let _ = copy(&from[..n], &mut out[at..at + n]);
    }
}

// Writes a column and a tab behind it from the place `at` on, and returns the place past both.
fn put_column(from: &[u8], n: usize, out: &mut [u8], at: usize) -> usize
    requires { Lies n from.now at out.old }
    ensures value { result ≡ at + n + 1 }
    ensures puts { Puts (take n from.now ++ 9 ∷ []) (length from.now - n) at out.old out.new }
{
    put_part(from, n, out, at);
    out[at + n] = b'\t';
    at + n + 1
}

// Writes the columns at the start of the output with tabs between.
pub(crate) fn put_columns(text: &[u8], ends: &[usize], out: &mut [u8])
    requires text_value { rising 0 ends.now (length text.now) ≡ true }
    requires ends_nonzero { 0 < length ends.now }
    requires ends_in_bounds { length (joined 9 (entry_list text.now ends.now)) ≤ length out.old }
    ensures { out.new ≡ over (joined 9 (entry_list text.now ends.now)) out.old }
{
    let last = last_end(ends);
    let mut start = 0;
    let mut at = 0;
    for i in 0..ends.len() - 1 {
        let end = ends[i];
        at = put_column(&text[start..last], end - start, out, at);
        start = end;
    }
    let _ = copy(&text[start..last], &mut out[at..at + (last - start)]);
}
