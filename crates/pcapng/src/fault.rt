//! What may be wrong with a block.

/// Why a block is refused.
#[derive(Clone, Copy, Debug, PartialEq, Eq)]
pub enum Fault {
    /// It is too short for its fields.
    Cut,
    /// Its length isn't a multiple of four, or less than 12, or its two lengths differ; or a record
    /// of a classic capture has a length of more than 32 bits.
    Length,
    /// It is no beginning of a capture, though nothing began yet, or its section header has no order
    /// of bytes.
    Order,
    /// Its section isn't of version 1, or its classic capture not of version 2.4.
    Version,
    /// It names an interface that wasn't described, or describes one more than 256.
    Interface,
}
