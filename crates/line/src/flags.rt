// Flags of 64 bytes: each block is gone through to its end, so that it can be compared as a whole.
ghost use Rattle.std.specs.Prelude.{ℕ, ◌≡◌, ◌+◌, ◌<◌, ◌≤◌, length, get_or};
ghost use Rattle.text.specs.Flags.{Tells, Plain};
ghost use Rattle.line.specs.Scan.{Smooth, Calm, FlagsOf, Gathers};

// The flags of 64 bytes by their places, gathered by `|`. There is no way out before the last, so that the loop becomes vector code.
fn flags64<F: Fn(usize) -> u8>(s: &[u8], at: usize, flag: F) -> u8
    requires in_bounds { at + 64 ≤ length s.now }
    requires callable { (k : ℕ) → at ≤ k → k < at + 64 → F.pre flag k }
    ensures { Gathers (F.post flag) at (at + 64) result }
{
    let mut h: u8 = 0;
    for i in 0..64 {
        h = h | flag(at + i);
    }
    h
}

// 0 for a byte that is no tab and no LF, and below 80 hex.
fn quiet_flag(s: &[u8], k: usize) -> u8
    requires { k < length s.now }
    ensures { FlagsOf Smooth s.now k result }
{
    let b = s[k];
    u8::from(b == b'\t') | u8::from(b == b'\n') | u8::from(b > 127)
}

// 0 for a byte that is no LF and no tab behind a tab, and below 80 hex.
fn calm_flag(s: &[u8], k: usize) -> u8
    requires { (1 ≤ k) × (k < length s.now) }
    ensures { FlagsOf Calm s.now k result }
{
    let b = s[k];
    u8::from(b == b'\n') | (u8::from(s[k - 1] == b'\t') & u8::from(b == b'\t')) | u8::from(b > 127)
}

// Whether 64 bytes have no tab and no LF, and are below 80 hex.
pub(crate) fn quiet64(s: &[u8], at: usize) -> bool
    requires { at + 64 ≤ length s.now }
    ensures { Tells Smooth s.now at result }
{
    flags64(s, at, |k| quiet_flag(s, k)) == 0
}

// Whether 64 bytes have no LF and no tab behind a tab, and are below 80 hex.
pub(crate) fn calm64(s: &[u8], at: usize) -> bool
    requires { (1 ≤ at) × (at + 64 ≤ length s.now) }
    ensures { Tells Calm s.now at result }
{
    flags64(s, at, |k| calm_flag(s, k)) == 0
}

// Whether 64 bytes are below 80 hex.
pub(crate) fn ascii64(s: &[u8], at: usize) -> bool
    requires { at + 64 ≤ length s.now }
    ensures { Tells Plain s.now at result }
{
    flags64(s, at, |k| s[k]) < 128
}
