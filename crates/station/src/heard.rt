//! The frames that a station receives.

/// The kind of packet in a frame.
///
/// Inside AppleTalk, the chapters on DDP and AARP.
#[derive(Clone, Copy, Debug, PartialEq, Eq)]
pub enum Kind {
    /// A datagram.
    Ddp,
    /// An AARP packet.
    Aarp,
}

/// The address that a frame was sent to, as the receiving station sees it.
///
/// Inside AppleTalk, the chapters on AARP and NBP.
#[derive(Clone, Copy, Debug, PartialEq, Eq)]
pub enum Link {
    /// The station's own hardware address.
    Own,
    /// All stations of the cable.
    All,
    /// The stations of this group, 0 to 252.
    Group(u8),
}

/// A frame that a station receives. It borrows the bytes.
#[derive(Clone, Copy, Debug)]
pub struct Heard<'a> {
    /// The index, from 0, of the port on which the frame was received.
    pub port: u8,
    /// The address that the frame was sent to.
    pub link: Link,
    /// The kind of packet in the frame.
    pub kind: Kind,
    /// The datagram or packet, and any padding after it.
    pub bytes: &'a [u8],
}
