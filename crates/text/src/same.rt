// Equal texts.
ghost use Rattle.text.specs.Promises.{Compares};

// Whether two texts are the same bytes.
pub fn same_bytes(s: &[u8], t: &[u8]) -> bool
    ensures { Compares s.now t.now result }
{
    s == t
}
