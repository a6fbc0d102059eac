// The line at a place: where its text ends, how it ended, and where the next one starts.
ghost use Rattle.line.specs.Promises.{FindsLine};

use crate::ending::text_end;
use pieces::either::find_either;
use record::ending::Ending;

// The line found at a place (0): where its text ends, how it ended, and the next place.
#[derive(Clone, Copy)]
pub struct Extent {
    pub end: usize,
    pub ending: Ending,
    pub next: usize,
}

// 6: the place lies beyond the input.
#[derive(Clone, Copy, Debug, PartialEq, Eq)]
pub struct Beyond;

// Finds the line at a place. Its LF is sought by blocks at once, since few lines are shorter than 32 bytes.
pub fn line_at(s: &[u8], at: usize) -> Result<Extent, Beyond>
    ensures { FindsLine s.now at result }
{
    if at > s.len() {
        return Err(Beyond);
    }
    let stop = find_either(s, b'\n', b'\n', at);
    let end = text_end(s, at, stop);
    if stop == s.len() {
        return Ok(Extent {
            end,
            ending: Ending::Nothing,
            next: stop,
        });
    }
    let next = stop + 1;
    let ending = Ending::by_size(next - end);
    Ok(Extent { end, ending, next })
}
