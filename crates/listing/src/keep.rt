// What is left of a window, kept for the next read.
ghost use Rattle.std.specs.Prelude.{◌≤◌, length};
ghost use Rattle.listing.specs.Inner.{Keeps};

// Moves the bytes from one place up to another to the front of the buffer, and answers how many they are.
pub(crate) fn keep_rest(buffer: &mut [u8], from: usize, end: usize) -> usize
    requires from_le_end { from ≤ end }
    requires end_in_bounds { end ≤ length buffer.old }
    ensures { Keeps from end buffer.old result buffer.new }
{
    buffer.copy_within(from..end, 0);
    end - from
}
