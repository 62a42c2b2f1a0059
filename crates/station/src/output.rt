//! The outputs of a station.

use at_base::{Addr, Bytes, Hw};

/// The next station or stations of a datagram, on the cable of a port.
///
/// Inside AppleTalk, the chapters on DDP and NBP.
#[derive(Clone, Copy, Debug, PartialEq, Eq)]
pub enum Next {
    /// The station with this address.
    Station(Addr),
    /// All stations of the cable.
    All,
    /// The stations whose zone has this group, 0 to 252.
    Group(u8),
}

/// Why a router drops a datagram.
///
/// Inside AppleTalk, the chapters on DDP and RTMP.
#[derive(Clone, Copy, Debug, PartialEq, Eq)]
pub enum DropCause {
    /// The router has no usable row for the target's network.
    NoRoute,
    /// The datagram was forwarded 15 times already.
    HopLimit,
}

/// An output of a station, or what it did with a datagram that it received. The bytes are a
/// datagram without padding, or in `Wire` an AARP packet. Ports are counted from 0.
#[derive(Debug, Drop)]
pub enum Output {
    /// A datagram that the station made.
    Made { port: u8, next: Next, bytes: Bytes },
    /// A datagram that a router forwards, with one hop more.
    Passed { port: u8, next: Next, bytes: Bytes },
    /// A datagram that a router keeps, since it ends on the cable of this port.
    Kept { port: u8, bytes: Bytes },
    /// A datagram that a router drops.
    Dropped { cause: DropCause, bytes: Bytes },
    /// An AARP packet for this hardware address.
    Wire { port: u8, to: Hw, bytes: Bytes },
}
