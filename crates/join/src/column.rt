// One column, judged by its bytes.
ghost use Rattle.std.specs.Prelude.{◌≡◌, true, ◌&&◌, ◌||◌, length};
ghost use Rattle.text.specs.Utf8.{is_utf8};
ghost use Rattle.record.specs.Paper.{ending_of};
ghost use Rattle.join.specs.Join.{is_bad, loses_return};
ghost use Rattle.join.specs.Inner.{AllSimple};

use crate::simple::is_simple;
use pieces::either::find_either;
use record::ending::Ending;
use text::utf8::check_utf8;

// Whether a last column would lose the CR at its end: before an LF it would be read as part of the ending.
pub(crate) fn loses_return(c: &[u8], ending: Ending) -> bool
    ensures { result ≡ loses_return (ending_of ending) c.now }
{
    match ending {
        Ending::Feed => matches!(c, [.., b'\r']),
        Ending::Nothing | Ending::ReturnFeed => false,
    }
}

// A column's bytes, and whether it was seen at once that they are simple, so that no more need be asked of them.
#[derive(Clone, Copy)]
pub(crate) struct Column<'a> {
    pub(crate) bytes: &'a [u8],
    pub(crate) simple: bool,
    ghost known: { simple ≡ true → AllSimple bytes.now (length bytes.now) },
}

impl<'a> Column<'a> {
    pub(crate) fn new(bytes: &'a [u8]) -> Column<'a>
        ensures { result.bytes.now ≡ bytes.now }
    {
        Column {
            bytes,
            simple: is_simple(bytes),
        }
    }

    // Whether it is empty, or holds a tab or an LF.
    fn is_bad(self) -> bool
        ensures { result ≡ is_bad self.entry.bytes.now }
    {
        let c = self.bytes;
        c.is_empty() || (!self.simple && find_either(c, b'\t', b'\n', 0) < c.len())
    }

    // Whether it is refused by 18.
    pub(crate) fn is_refused(self, last: bool, ending: Ending) -> bool
        ensures { result ≡ (is_bad self.entry.bytes.now || (last && loses_return (ending_of ending) self.entry.bytes.now)) }
    {
        self.is_bad() || (last && loses_return(self.bytes, ending))
    }

    pub(crate) fn is_utf8(self) -> bool
        ensures { result ≡ is_utf8 self.entry.bytes.now }
    {
        self.simple || check_utf8(self.bytes).is_ok()
    }
}
