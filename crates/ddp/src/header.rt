//! The header fields that the sender of a datagram sets.

use at_base::Addr;

/// The length of a long header, in bytes.
pub const HEADER_LEN: usize = 13;

/// The greatest length of a datagram, in bytes, header and data.
pub const MAX_LEN: usize = 599;

/// The types of datagrams: the protocol of the data (Inside AppleTalk, the chapter on DDP).
pub mod kind {
    pub const RTMP_DATA: u8 = 1;

    pub const NBP: u8 = 2;

    pub const ATP: u8 = 3;

    pub const AEP: u8 = 4;

    pub const RTMP_REQUEST: u8 = 5;

    pub const ZIP: u8 = 6;
}

/// The well-known sockets of the protocols (Inside AppleTalk, the chapter on DDP).
pub mod socket {
    pub const RTMP: u8 = 1;

    pub const NAMES: u8 = 2;

    pub const ECHO: u8 = 4;

    pub const ZIP: u8 = 6;
}

/// The header of a datagram to be written. Its hop count is written as 0, and its length is
/// computed from the data.
///
/// Inside AppleTalk, the chapter on DDP.
#[derive(Clone, Copy, Debug, PartialEq, Eq)]
pub struct Header {
    /// Whether the datagram carries a checksum.
    pub summed: bool,
    /// The destination node.
    pub target: Addr,
    /// The sending node.
    pub source: Addr,
    pub target_socket: u8,
    pub source_socket: u8,
    /// The protocol of the data, as in `kind`.
    pub kind: u8,
}
