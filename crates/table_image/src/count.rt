//! The sizes of the counts before lists.

ghost use Rattle.std.specs.Prelude.{◌≡◌};
ghost use Rattle.table_image.specs.Counts.{count_len, size_of};

/// The number of bytes of a count.
#[derive(Clone, Copy, Debug)]
pub enum CountSize {
    One,
    Two,
}

impl CountSize {
    /// The number of bytes.
    pub fn len(self) -> usize
        ensures { result ≡ count_len (size_of self) }
    {
        match self {
            CountSize::One => 1,
            CountSize::Two => 2,
        }
    }
}
