// Whether a text holds white space.
ghost use Rattle.std.specs.Prelude.{◌≡◌, ◌+◌, ◌≤◌, ◌<◌, length, take, drop};
ghost use Rattle.text.specs.Space.{code_point, is_space};
ghost use Rattle.text.specs.Promises.{FindsSpace};

use crate::utf8::{NotUtf8, char_size, check_utf8};

// The code point that the `size` bytes at `at` mean, one to four of them.
fn code_point(s: &[u8], at: usize, size: usize) -> u32
    requires le_size { (1 ≤ size) × (size ≤ 4) }
    requires size_in_bounds { at + size ≤ length s.now }
    ensures { result ≡ code_point (take size (drop at s.now)) }
{
    let a = u32::from(s[at]);
    if size == 1 {
        return a;
    }
    let b = u32::from(s[at + 1]) % 64;
    if size == 2 {
        return a % 32 * 64 + b;
    }
    let c = u32::from(s[at + 2]) % 64;
    if size == 3 {
        return (a % 16 * 64 + b) * 64 + c;
    }
    let d = u32::from(s[at + 3]) % 64;
    ((a % 8 * 64 + b) * 64 + c) * 64 + d
}

fn is_space(p: u32) -> bool
    ensures { result ≡ is_space p }
{
    matches!(
        p,
        0x0009..=0x000d
            | 0x0020
            | 0x0085
            | 0x00a0
            | 0x1680
            | 0x2000..=0x200a
            | 0x2028..=0x2029
            | 0x202f
            | 0x205f
            | 0x3000
    )
}

// Whether some character is white space, looked for character by character. Where one is, the rest must still be UTF-8.
pub fn find_space(s: &[u8]) -> Result<bool, NotUtf8>
    ensures { FindsSpace s.now result }
{
    let mut i = 0;
    while i < s.len() {
        let n = char_size(s, i);
        if n == 0 {
            return Err(NotUtf8);
        }
        if is_space(code_point(s, i, n)) {
            check_utf8(&s[i..])?;
            return Ok(true);
        }
        i += n;
    }
    Ok(false)
}
