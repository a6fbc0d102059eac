// POS: a position from 1 on, or none.
ghost use Rattle.std.specs.Prelude.{◌≡◌};
ghost use Rattle.fields.specs.Promises.{ReadsPos};

use decimal::read::{BadDecimal, read_decimal};

// 21: a POS text is bad. The place of the decimal's fault, or the text's length where it is worth 0.
#[derive(Clone, Copy, Debug, PartialEq, Eq)]
pub struct BadPosition {
    pub at: usize,
}

impl From<BadDecimal> for BadPosition {
    ghost from_gives = { λ e r. r.at ≡ e.at };

    fn from(e: BadDecimal) -> BadPosition {
        BadPosition { at: e.at }
    }
}

// Reads a POS text: a position, or none for `0`.
pub fn read_pos(s: &[u8]) -> Result<Option<u64>, BadPosition>
    ensures { ReadsPos s.now result }
{
    // Kept: as a `match` on the value, with a guard for `0`, it takes a third more time.
    let n = read_decimal(s)?;
    if n > 0 {
        return Ok(Some(n));
    }
    if s.len() == 1 {
        return Ok(None);
    }
    Err(BadPosition { at: s.len() })
}
