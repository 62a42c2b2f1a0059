//! Seats: a station's place on a cable.

use at_base::Hw;

/// A station's seat on a cable: its port there, and the addresses that it receives frames for.
/// Cables, stations and ports are counted from 0.
#[derive(Clone, Copy, Debug, PartialEq, Eq)]
pub struct Seat {
    /// The cable.
    pub cable: u8,
    /// The station.
    pub station: u16,
    /// The port of the station.
    pub port: u8,
    /// The station's hardware address on the cable.
    pub hw: Hw,
    /// The group of the station's zone, 0 to 252, if the station is a node.
    pub group: Option<u8>,
}
