// An entry list. The methods stand in entries.rt and joined.rt, since their contracts name definitions that name the struct.
ghost use Rattle.std.specs.Prelude.{◌≡◌, true, length};
ghost use Rattle.entries.specs.Entries.{rising};

// A text and the end of each entry: the ends never fall and never pass the text.
#[derive(Clone, Copy)]
pub struct Entries<'a> {
    pub text: &'a [u8],
    pub ends: &'a [usize],
    ghost rise: { rising 0 ends.now (length text.now) ≡ true },
}
