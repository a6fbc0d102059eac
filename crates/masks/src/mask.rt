// Where two bytes stand among 64, as the bits of a number: each byte keeps its weight or loses it, and eight weights are the bits
// of one byte of the number. The loop goes through all 64, so that they can be compared as a whole.
ghost use Rattle.std.specs.Prelude.{◌≡◌, ◌+◌, ◌*◌, ◌≤◌, length, take, drop};
ghost use Rattle.masks.specs.Mask.{hit, mask_of};
ghost use Rattle.masks.specs.Inner.{eight_of, sum_of, Light, Lights};
ghost use Rattle.masks.specs.Promises.{MasksBlock, FindsLow, ClearsLow};

// The weight of a byte that is a or b, and 0 of any other.
fn kept(a: u8, b: u8, x: u8, w: u8) -> u8
    ensures { result ≡ hit a b x * w }
{
    if x == a || x == b { w } else { 0 }
}

// The sum of eight weights.
fn eight(t: &[u8], i: usize) -> u64
    requires { Light t.now i }
    ensures value { result ≡ eight_of t.now i }
    ensures upper_bound { result ≤ 255 }
{
    u64::from(t[i] + t[i + 1] + t[i + 2] + t[i + 3] + t[i + 4] + t[i + 5] + t[i + 6] + t[i + 7])
}

// Eight such sums, as the bytes of a number.
fn sum(t: &[u8]) -> u64
    requires { Lights t.now }
    ensures { result ≡ sum_of t.now }
{
    eight(t, 0)
        + eight(t, 8) * 0x100
        + eight(t, 16) * 0x10000
        + eight(t, 24) * 0x1000000
        + eight(t, 32) * 0x100000000
        + eight(t, 40) * 0x10000000000
        + eight(t, 48) * 0x1000000000000
        + eight(t, 56) * 0x100000000000000
}

const WEIGHTS: [u8; 64] = [
    1, 2, 4, 8, 16, 32, 64, 128, 1, 2, 4, 8, 16, 32, 64, 128, 1, 2, 4, 8, 16, 32, 64, 128, 1, 2, 4,
    8, 16, 32, 64, 128, 1, 2, 4, 8, 16, 32, 64, 128, 1, 2, 4, 8, 16, 32, 64, 128, 1, 2, 4, 8, 16,
    32, 64, 128, 1, 2, 4, 8, 16, 32, 64, 128,
];

// Bit l is set where the byte at + l is a or b.
fn block_mask(s: &[u8], a: u8, b: u8, at: usize) -> u64
    requires { at + 64 ≤ length s.now }
    ensures { result ≡ mask_of a b (take 64 (drop at s.now)) }
{
    let mut t = WEIGHTS;
    for l in 0..64 {
        t[l] = kept(a, b, s[at + l], t[l]);
    }
    sum(&t)
}

// The same of any place: 0 where no 64 bytes stand from it on.
pub fn mask(s: &[u8], a: u8, b: u8, at: usize) -> u64
    ensures { MasksBlock a b s.now at result }
{
    if s.len().saturating_sub(at) < 64 {
        return 0;
    }
    block_mask(s, a, b, at)
}

// The place of the lowest bit that is set, 64 where none is.
pub fn low(m: u64) -> usize
    ensures { FindsLow m result }
{
    m.trailing_zeros() as usize
}

// The bits but the lowest that is set.
pub fn rest(m: u64) -> u64
    ensures { ClearsLow m result }
{
    if m == 0 { 0 } else { m & (m - 1) }
}
