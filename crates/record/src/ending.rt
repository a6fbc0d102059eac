// How a line ended.
ghost use Rattle.record.specs.Promises.{SizesEnding, NamesEnding};

#[derive(Clone, Copy)]
pub enum Ending {
    // The end of the input.
    Nothing,
    // LF.
    Feed,
    // CR LF.
    ReturnFeed,
}

// Kept as methods, and not From: their names say what number it is, and `by_size` takes every number above 2 for 2.
impl Ending {
    // How many bytes an ending has, which is also the number that an answer says for it.
    pub fn size(self) -> usize
        ensures { SizesEnding self result }
    {
        match self {
            Ending::Nothing => 0,
            Ending::Feed => 1,
            Ending::ReturnFeed => 2,
        }
    }

    // The ending with a number up to 2, which is also how many bytes it has; any other number is taken for 2.
    pub fn by_size(n: usize) -> Ending
        ensures { NamesEnding n result }
    {
        match n {
            0 => Ending::Nothing,
            1 => Ending::Feed,
            _ => Ending::ReturnFeed,
        }
    }
}
