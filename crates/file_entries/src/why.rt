//! The reasons why a value is wrong.

/// Why a value, a key or a table is wrong.
#[derive(Clone, Copy, Debug, PartialEq, Eq)]
pub enum Why {
    /// The table doesn't have the key.
    Missing,
    /// The table may not have the key.
    Unknown,
    /// The value isn't a table.
    NoTable,
    /// The value isn't a list.
    NoList,
    /// The value isn't an integer.
    NoInteger,
    /// The value is neither true nor false.
    NoTruth,
    /// The value isn't a text.
    NoText,
    /// The integer is outside these bounds.
    Outside {
        /// The least that it may be.
        low: u32,
        /// The greatest that it may be.
        high: u32,
    },
    /// There is nothing with this number, from 1, among so many.
    Absent {
        /// How many there are.
        count: usize,
    },
    /// The text has fewer or more bytes.
    Length {
        /// The least number of bytes.
        low: usize,
        /// The greatest number of bytes.
        high: usize,
    },
    /// The list has fewer or more values.
    Count {
        /// The least number of values.
        low: usize,
        /// The greatest number of values.
        high: usize,
    },
    /// The list isn't one of two networks.
    NoPair,
    /// The first number of a range is above the last.
    Reversed,
    /// The text isn't the name of a zone.
    NoZone,
    /// The text isn't an address.
    NoAddress,
    /// The text isn't a hardware address.
    NoHardware,
    /// The text isn't an even number of hexadecimal digits.
    NoDigits,
    /// The text isn't one of these words.
    NoWord {
        /// The words, as they are written in a sentence.
        words: Words,
    },
    /// No station of the cable may try the address.
    Untried,
    /// The cable has a network in common with that of an earlier port.
    Overlaps {
        /// The number of the earlier port, from 1.
        port: u32,
    },
    /// The object or the type can't be registered.
    NoEntity,
    /// An earlier name has the same object and the same type.
    Repeated,
    /// The bytes aren't all 20 to 7E.
    Unprintable,
    /// The item doesn't come after the one before it.
    Falls {
        /// The key that the items rise by.
        by: Rising,
    },
    /// Version 1 of the image has no such list.
    NeedsVersion2,
}

/// The words that a key may have.
#[derive(Clone, Copy, Debug, PartialEq, Eq)]
pub enum Words {
    /// What a node does.
    Actions,
    /// The state of a row.
    States,
}

/// The key by which the tables of a list rise.
#[derive(Clone, Copy, Debug, PartialEq, Eq)]
pub enum Rising {
    /// The first network of the range.
    Range,
    /// The address.
    Address,
    /// The enumerator.
    Enumerator,
}
