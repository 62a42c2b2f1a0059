//! Where a datagram leaves.

/// A station, and the cable on which its datagram leaves.
#[derive(Clone, Copy, Debug)]
pub struct Outlet {
    /// The cable.
    pub cable: u8,
    /// The station.
    pub station: u16,
}
