// Copying bytes to the start of lent output.
ghost use Rattle.text.specs.Over.{Writes};

// 17: the output is too short.
#[derive(Clone, Copy, Debug, PartialEq, Eq)]
pub struct NoRoom;

// Writes the bytes of `from` at the start of `out`, or nothing where they don't fit. Answers how many were written.
pub fn copy(from: &[u8], out: &mut [u8]) -> Result<usize, NoRoom>
    ensures { Writes from.now out.old result out.new }
{
    if from.len() > out.len() {
        return Err(NoRoom);
    }
    // Kept: a loop, since `copy_from_slice` calls `memmove`, which the archive for C would need from outside.
    for i in 0..from.len() {
        out[i] = from[i];
    }
    Ok(from.len())
}
