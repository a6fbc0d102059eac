// Parts of a slice by any numbers, so that who asks for one has nothing to prove.
use text::range::Range;

// The bytes from one place up to another; none where these are no places of s in this order.
pub fn part(s: &[u8], from: usize, end: usize) -> &[u8] {
    s.get(from..end).unwrap_or(&[])
}

// The bytes of a range, or as many of them as s has.
pub fn text_at(s: &[u8], range: Range) -> &[u8] {
    first(part(s, range.start, s.len()), range.len)
}

// The first n, or all where there are fewer.
pub fn first<T>(s: &[T], n: usize) -> &[T] {
    &s[..n.min(s.len())]
}

// The same, to be written.
pub fn front<T>(s: &mut [T], n: usize) -> &mut [T] {
    let end = n.min(s.len());
    &mut s[..end]
}
