//! Entries of a transcript. They name bytes by number.

use at_base::{Addr, Hw};
use station::{DropCause, Kind};

/// How a datagram reached the cable of its target.
#[derive(Clone, Copy, Debug, PartialEq, Eq)]
pub enum How {
    /// In a frame to the station that it is addressed to.
    Station,
    /// In a frame to all stations of the cable.
    All,
    /// By the router that it is addressed to, which keeps it.
    Own,
    /// Without a frame, since no station on the cable has its address.
    Absent,
    /// Without a frame yet, since the hardware address of its station isn't known yet.
    Held,
}

/// An entry of a transcript. Cables and stations are counted from 0; `bytes` is the number by which
/// `Cables::bytes` returns the datagram or packet.
#[derive(Clone, Copy, Debug, PartialEq, Eq)]
pub enum Entry {
    /// A station made a datagram.
    Sent {
        station: u16,
        bytes: u32,
    },
    /// A frame was put on a cable. Stamps count frames and held datagrams from 0.
    Put {
        stamp: u32,
        cable: u8,
        sender: u16,
        to: Hw,
        kind: Kind,
        bytes: u32,
    },
    /// A station took a frame.
    Took {
        stamp: u32,
        station: u16,
    },
    /// A datagram reached the cable of its target, where this station put or kept it.
    Reached {
        cable: u8,
        station: u16,
        how: How,
        bytes: u32,
    },
    /// A router dropped a datagram.
    Dropped {
        router: u16,
        cause: DropCause,
        bytes: u32,
    },
    /// A frame was lost for all stations that hadn't taken it, or a held datagram was given up.
    Lost {
        stamp: u32,
    },
    /// A station holds a datagram until the hardware address of its next station is known. The
    /// datagram's frame will have this stamp.
    Hold {
        stamp: u32,
        cable: u8,
        station: u16,
        next: Addr,
        bytes: u32,
    },
}
