//! Datagrams that wait for a hardware address.

use at_base::Addr;

/// A datagram of the sending station that is to be held, since the hardware address of its next
/// station isn't known.
#[derive(Clone, Copy, Debug)]
pub struct Waiting {
    /// The cable on which the datagram is to leave.
    pub cable: u8,
    /// The station that it goes to next, on that cable.
    pub next: Addr,
    /// The number of its bytes.
    pub bytes: u32,
}
