//! Frames.

use at_base::Hw;
use station::Kind;

/// The most bytes of a packet in a frame: a frame's length is at most 1,500, and counts the LLC
/// header and the SNAP protocol, 8 bytes.
pub const MAX_BYTES: usize = 1_492;

/// The bytes of a frame in front of its packet: the addresses, the length and the headers.
pub const HEADERS_LEN: u32 = 22;

/// The LLC header: SNAP as both access points, and unnumbered information.
pub(crate) const LLC: [u8; 3] = [0xAA, 0xAA, 0x03];

/// The SNAP protocol of a datagram.
pub(crate) const DDP: [u8; 5] = [0x08, 0x00, 0x07, 0x80, 0x9B];

/// The SNAP protocol of an AARP packet.
pub(crate) const AARP: [u8; 5] = [0x00, 0x00, 0x00, 0x80, 0xF3];

/// A frame. It borrows the packet.
///
/// Inside AppleTalk, the chapter on EtherTalk.
#[derive(Clone, Copy, Debug)]
pub struct Frame<'a> {
    /// The target.
    pub to: Hw,
    /// The source.
    pub from: Hw,
    /// Whether the packet is a datagram or an AARP packet.
    pub kind: Kind,
    /// The packet, up to 1,492 bytes. Padding after the frame's length isn't part of it.
    pub packet: &'a [u8],
}
