//! What may be wrong with a frame.

/// Why bytes aren't a frame that holds a datagram or an AARP packet: the first fault, from left to
/// right.
#[derive(Clone, Copy, Debug, PartialEq, Eq)]
pub enum Fault {
    /// The bytes end within the frame.
    Cut,
    /// The length isn't 8 to 1,500, as where an Ethernet type stands in its place.
    Length,
    /// The LLC header isn't that of SNAP.
    Header,
    /// The SNAP protocol is neither that of datagrams nor that of AARP packets.
    Protocol,
}
