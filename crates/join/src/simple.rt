// What is seen of all columns of a list at once: where they end, and which bytes they hold.
ghost use Rattle.std.specs.Prelude.{◌≡◌, true, ◌<◌, length};
ghost use Rattle.entries.specs.Inner.{start_of};
ghost use Rattle.join.specs.Inner.{Marks, AllSimple, Apart};

// Where the last column ends, of at least one.
pub(crate) fn last_end(ends: &[usize]) -> usize
    requires { 0 < length ends.now }
    ensures { result ≡ start_of ends.now (length ends.now) }
{
    ends[ends.len() - 1]
}

// 1 for a tab, an LF and a byte that is not ASCII, else 0.
fn mark(b: u8) -> u8
    ensures { Marks b result }
{
    match b {
        b'\t' | b'\n' | 0x80..=0xff => 1,
        _ => 0,
    }
}

// Whether a text has no such byte. With no way out before the last byte the loop becomes vector code.
// Kept: `all` is no vector code, and misses the speed bar.
pub(crate) fn is_simple(s: &[u8]) -> bool
    ensures { result ≡ true → AllSimple s.now (length s.now) }
{
    let mut marks = 0;
    for &b in s {
        marks |= mark(b);
    }
    marks == 0
}

// Whether each column ends above its start, so that none is empty.
pub(crate) fn are_apart(ends: &[usize]) -> bool
    ensures { result ≡ true → Apart ends.now (length ends.now) }
{
    let mut start = 0;
    for &end in ends {
        if end <= start {
            return false;
        }
        start = end;
    }
    true
}
