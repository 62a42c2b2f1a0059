//! What the blocks of a capture are, by its form.

/// What the fractions of a second are in, in a classic capture.
#[derive(Clone, Copy, Debug, PartialEq, Eq)]
pub enum Fraction {
    /// Microseconds.
    Micros,
    /// Nanoseconds.
    Nanos,
}

/// What a block is.
#[derive(Clone, Copy, Debug, PartialEq, Eq)]
pub enum Item {
    /// A block of a pcapng capture, of this type.
    Block(u32),
    /// The header of a classic capture.
    Header(Fraction),
    /// A record of a classic capture: a packet.
    Record,
}
