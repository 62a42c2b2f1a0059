//! The forms of captures.

use crate::order::Order;

/// The forms of captures that are read.
#[derive(Clone, Copy, Debug, PartialEq, Eq)]
pub enum Forms {
    /// Captures in the pcapng format alone.
    Pcapng,
    /// Captures in the pcapng format, and classic ones.
    Either,
}

/// What a capture began as.
#[derive(Clone, Copy, Debug, PartialEq, Eq)]
pub enum Began {
    /// Nothing of it was read; it may have one of these forms.
    Nothing(Forms),
    /// A pcapng capture, in a section of this order of bytes.
    Pcapng(Order),
    /// A classic capture, in this order of bytes.
    Classic(Order),
}
