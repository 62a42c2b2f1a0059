//! What is wrong with an image.

use at_base::Cause;

/// The flaw of an image: its cause, and the offset from the image's first byte at which it is
/// reported.
#[derive(Clone, Copy, Debug, PartialEq, Eq)]
pub struct Flaw {
    pub place: usize,
    pub cause: Cause,
}

/// A flaw as a reader of a part finds it: its cause, and the number of input bytes left from the
/// byte on at which it is reported. A reader doesn't know that byte's offset.
#[derive(Clone, Copy, Debug, PartialEq, Eq)]
pub struct Fault {
    pub left: usize,
    pub cause: Cause,
}
