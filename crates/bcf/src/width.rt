// The width of an entry, and its numbers.
ghost use Rattle.std.specs.Prelude.{◌≡◌, ◌/◌, ◌%◌};
ghost use Rattle.bcf.specs.Layout.{size, padding};
ghost use Rattle.bcf.specs.Reading.{negative};
ghost use Rattle.bcf.specs.Writing.{width_for};

#[derive(Clone, Copy)]
pub enum Width {
    // One byte.
    W8,
    // Two bytes.
    W16,
    // Four bytes.
    W32,
}

impl Width {
    // The smallest that holds a number, or the widest where none does.
    pub(crate) fn holding(number: u64) -> Width
        ensures { result ≡ width_for number }
    {
        if number <= 62 {
            Width::W8
        } else if number <= 16382 {
            Width::W16
        } else {
            Width::W32
        }
    }

    // How many bytes an entry has.
    pub(crate) fn size(self) -> usize
        ensures { result ≡ size self }
    {
        match self {
            Width::W8 => 1,
            Width::W16 => 2,
            Width::W32 => 4,
        }
    }

    // How many whole entries so many bytes hold.
    pub(crate) fn whole_in(self, bytes: usize) -> usize
        ensures { result ≡ bytes / size self }
    {
        match self {
            Width::W8 => bytes,
            Width::W16 => bytes / 2,
            Width::W32 => bytes / 4,
        }
    }

    // How many bytes are left over.
    pub(crate) fn left_over(self, bytes: usize) -> usize
        ensures { result ≡ bytes % size self }
    {
        match self {
            Width::W8 => 0,
            Width::W16 => bytes % 2,
            Width::W32 => bytes % 4,
        }
    }

    // The first value whose sign bit is set.
    pub(crate) fn negative(self) -> u64
        ensures { result ≡ negative self }
    {
        match self {
            Width::W8 => 128,
            Width::W16 => 32768,
            Width::W32 => 2147483648,
        }
    }

    pub(crate) fn padding(self) -> u64
        ensures { result ≡ padding self }
    {
        match self {
            Width::W8 => 129,
            Width::W16 => 32769,
            Width::W32 => 2147483649,
        }
    }
}
