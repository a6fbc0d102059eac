// Whether bytes are UTF-8.
ghost use Rattle.std.specs.Prelude.{◌≡◌, [], ◌∷◌, ◌+◌, ◌<◌, ◌≤◌, length, get_or};
ghost use Rattle.text.specs.Pick.{within};
ghost use Rattle.text.specs.Flags.{Plain, TellsOf};
ghost use Rattle.text.specs.Utf8.{char_size};
ghost use Rattle.text.specs.Promises.{ChecksUtf8};
ghost use Rattle.text.specs.Inner.{Second, CharAt, Passes};

// 5: the bytes are not UTF-8.
#[derive(Clone, Copy, Debug, PartialEq, Eq)]
pub struct NotUtf8;

// Whether a byte may stand third or fourth in a character.
fn is_further(b: u8) -> bool
    ensures { result ≡ within 0x80 0xbf b }
{
    matches!(b, 0x80..=0xbf)
}

// Whether b may stand second in a character of three bytes, behind a.
fn is_second_of_three(a: u8, b: u8) -> bool
    requires { (0xe0 ≤ a) × (a ≤ 0xef) }
    ensures { Second 3 a b result }
{
    match a {
        0xe0 => matches!(b, 0xa0..=0xbf),
        0xed => matches!(b, 0x80..=0x9f),
        _ => is_further(b),
    }
}

// Whether b may stand second in a character of four bytes, behind a.
fn is_second_of_four(a: u8, b: u8) -> bool
    requires { (0xf0 ≤ a) × (a ≤ 0xf4) }
    ensures { Second 4 a b result }
{
    match a {
        0xf0 => matches!(b, 0x90..=0xbf),
        0xf4 => matches!(b, 0x80..=0x8f),
        _ => is_further(b),
    }
}

// The size of the character that four bytes begin with, or 0 where they begin with none. The first byte chooses the length and the
// bounds of the second; what few bytes tell is asked first.
fn size_by(a: u8, b: u8, c: u8, d: u8) -> usize
    ensures { result ≡ char_size (a ∷ b ∷ c ∷ d ∷ []) }
{
    match a {
        0x00..=0x7f => 1,
        0xc2..=0xdf => { if is_further(b) { 2 } else { 0 } }
        0xe0..=0xef => {
            if is_second_of_three(a, b) && is_further(c) {
                3
            } else {
                0
            }
        }
        // Kept: a way out behind each byte. As one `&&` the check takes a seventh longer over such characters.
        0xf0..=0xf4 => {
            if !is_second_of_four(a, b) {
                return 0;
            }
            if !is_further(c) {
                return 0;
            }
            if is_further(d) { 4 } else { 0 }
        }
        _ => 0,
    }
}

// The byte k places on, or 0 where the text ends before it: no byte of a character behind its first is 0.
fn byte_at(s: &[u8], at: usize, k: usize) -> u8
    requires { at < length s.now }
    ensures { result ≡ get_or s.now (at + k) 0 }
{
    if s.len() - at > k { s[at + k] } else { 0 }
}

// The size of the character that starts at `at`, or 0 where none does.
// Kept: 0 and not None, as the definition `char_size` in specs/Utf8.antt says it.
pub(crate) fn char_size(s: &[u8], at: usize) -> usize
    requires { at < length s.now }
    ensures { CharAt s.now at result }
{
    let a = s[at];
    if a < 0x80 {
        return 1;
    }
    size_by(a, byte_at(s, at, 1), byte_at(s, at, 2), byte_at(s, at, 3))
}

// The same where four bytes are left.
fn size_within(s: &[u8], at: usize) -> usize
    requires { at + 4 ≤ length s.now }
    ensures { CharAt s.now at result }
{
    size_by(s[at], s[at + 1], s[at + 2], s[at + 3])
}

// Whether the n bytes from `at` on are ASCII. With no way out before the last byte the loop becomes vector code.
fn is_ascii(s: &[u8], at: usize, n: usize) -> bool
    requires { at + n ≤ length s.now }
    ensures { TellsOf n Plain s.now at result }
{
    let mut h: u8 = 0;
    for i in 0..n {
        h |= s[at + i];
    }
    h < 128
}

// The size of the characters from `at` on, up to the first that ends 64 bytes on or further, or to where none starts.
fn chars_size(s: &[u8], at: usize) -> usize
    requires { at + 68 ≤ length s.now }
    ensures { Passes s.now at (at + result) }
{
    let mut n = 0;
    while n < 64 {
        let size = size_within(s, at + n);
        if size == 0 {
            return n;
        }
        n += size;
    }
    n
}

// The size of some characters from `at` on: 64 of a byte each, or as many as `chars_size` finds.
fn block_size(s: &[u8], at: usize) -> usize
    requires { at + 68 ≤ length s.now }
    ensures { Passes s.now at (at + result) }
{
    if is_ascii(s, at, 64) {
        return 64;
    }
    chars_size(s, at)
}

// A place behind whole characters: fewer than 68 bytes are left there, or no character starts.
fn past_blocks(s: &[u8]) -> usize
    ensures { Passes s.now 0 result }
{
    let mut i = 0;
    while s.len() - i >= 68 {
        let n = block_size(s, i);
        if n == 0 {
            return i;
        }
        i += n;
    }
    i
}

// The place past the ASCII from `at` on, by eight bytes at a time.
fn past_ascii(s: &[u8], at: usize) -> usize
    requires { at ≤ length s.now }
    ensures { Passes s.now at result }
{
    // Kept: where the eights end is the answer, which a chain over chunks would have to add up again.
    let mut i = at;
    while s.len() - i >= 8 && is_ascii(s, i, 8) {
        i += 8;
    }
    i
}

// Judges whether bytes are UTF-8: by blocks, and the last ones, or those from where a block found no character on, one by one.
pub fn check_utf8(s: &[u8]) -> Result<(), NotUtf8>
    ensures { ChecksUtf8 s.now result }
{
    let mut i = past_ascii(s, past_blocks(s));
    while i < s.len() {
        let n = char_size(s, i);
        if n == 0 {
            return Err(NotUtf8);
        }
        i += n;
    }
    Ok(())
}
