// How many entries an INFO column claims.
ghost use Rattle.info.specs.Promises.{CountsEntries};

use pieces::count::count_pieces;

// Semicolons plus one, 0 for the empty column. A scan may take fewer steps, or more.
pub fn count(column: &[u8]) -> usize
    ensures { CountsEntries column.now result }
{
    count_pieces(column, b';')
}
