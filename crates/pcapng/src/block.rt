//! What blocks say.

use crate::interface::Interface;
use crate::options::Described;

/// A packet, in place.
#[derive(Clone, Copy, Debug)]
pub struct Seen<'a> {
    /// The number of its interface, from 0, in the order of the section's descriptions.
    pub interface: u32,
    /// When it was seen, in microseconds from the beginning of 1970.
    pub time: u64,
    /// Whether it is an Ethernet frame.
    pub ethernet: bool,
    /// Whether all of it was captured.
    pub whole: bool,
    /// Whether the frame was lost: the block has the comment `lost`.
    pub lost: bool,
    /// The bytes that were captured.
    pub bytes: &'a [u8],
}

/// What a block says. It borrows the block's bytes.
#[derive(Clone, Copy, Debug)]
pub enum Block<'a> {
    /// A section begins; its interfaces are numbered anew.
    Section,
    /// A classic capture begins, and this is its one interface, number 0. It has no name.
    Classic(Interface),
    /// An interface is described: the next one of its section.
    Interface(Described<'a>),
    /// A packet was seen.
    Packet(Seen<'a>),
    /// Statistics of an interface, by its number: a heartbeat, of which only the time counts, in
    /// microseconds from the beginning of 1970.
    Heartbeat(u32, u64),
    /// A packet whose block, or record, is too long to be read.
    TooLong,
    /// Anything else.
    Other,
}
