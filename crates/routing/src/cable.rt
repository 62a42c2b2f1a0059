//! The cables of a router's ports.

/// A cable as the capture of a router describes it.
#[derive(Debug, Drop)]
pub struct Cable {
    /// Its index in the file, from 0.
    pub index: u8,
    /// The first network of its range.
    pub start: u16,
    /// The last network.
    pub end: u16,
}
