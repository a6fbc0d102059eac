// Where a line's text ends.
ghost use Rattle.std.specs.Prelude.{◌≤◌, length};
ghost use Rattle.line.specs.Inner.{TextEnd};

// Where a text that starts at `start` and stops at an LF, or at the end of the input, has its end: before an LF, and before
// one CR that stands there. At the end of the input a CR belongs to the text.
pub(crate) fn text_end(s: &[u8], start: usize, stop: usize) -> usize
    requires { (start ≤ stop) × (stop ≤ length s.now) }
    ensures { TextEnd s.now start stop result }
{
    if stop < s.len() && start < stop && s[stop - 1] == b'\r' {
        return stop - 1;
    }
    stop
}
