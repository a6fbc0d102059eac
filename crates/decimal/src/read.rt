// Reading a decimal number of up to 64 bits.
ghost use Rattle.std.specs.Prelude.{◌≡◌};
ghost use Rattle.decimal.specs.Promises.{ReadsDigits, ReadsNumber};

// 12: no decimal, or one that is worth too much. The place of the first byte that is not allowed, or of the digit at which the value
// passes the limit; or the text's length, where a digit is missing.
#[derive(Clone, Copy, Debug, PartialEq, Eq)]
pub struct BadDecimal {
    pub at: usize,
}

// The greatest number, and a tenth of it.
const MOST: u64 = u64::MAX;

const TENTH: u64 = MOST / 10;

// One or more digits and no sign, worth at most MOST.
pub fn read_digits(s: &[u8]) -> Result<u64, BadDecimal>
    ensures { ReadsDigits s.now result }
{
    if s.is_empty() {
        return Err(BadDecimal { at: 0 });
    }
    let mut acc = 0;
    for (i, b) in s.iter().enumerate() {
        if !b.is_ascii_digit() {
            return Err(BadDecimal { at: i });
        }
        let d = u64::from(*b - b'0');
        if acc > TENTH || d > MOST - acc * 10 {
            return Err(BadDecimal { at: i });
        }
        acc = acc * 10 + d;
    }
    Ok(acc)
}

// An optional plus sign, and such digits.
pub fn read_decimal(s: &[u8]) -> Result<u64, BadDecimal>
    ensures { ReadsNumber s.now result }
{
    let [b'+', digits @ ..] = s else {
        return read_digits(s);
    };
    read_digits(digits).map_err(|e| BadDecimal { at: e.at + 1 })
}
