// The plain line reader.
ghost use Rattle.exports.specs.Promises.{ReadsLine};

use crate::lines::tell_read;
use crate::told::LINE_VALUES;
use splitter::split::split_line;

// Answers as `bruncadorza_read_line` does, whatever it is given, in three plain steps. It is slower, and goes to the end of the line
// also where an early column is refused.
#[unsafe(no_mangle)]
pub extern "C" fn bruncadorza_split_line(
    s: &[u8],
    at: usize,
    values: &mut [u64; LINE_VALUES],
) -> u64
    ensures { ReadsLine s.now at values.old result values.new }
{
    tell_read(split_line(s, at), values)
}
