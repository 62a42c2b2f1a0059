//! A packet of a capture, without its bytes.

ghost use Rattle.pcapng.specs.Captures.{FitsPacket};

use at_base::Hw;
use station::Kind;

/// What a capture says of a packet beside its bytes.
#[derive(Clone, Copy, Debug, PartialEq, Eq)]
pub struct Packet {
    /// The index, from 0, of the interface that the packet was seen on: the number of interfaces
    /// that were described before it.
    pub interface: u8,
    /// When the packet was seen, in microseconds from the beginning of 1970.
    pub time: u64,
    /// Who gets the frame.
    pub to: Hw,
    /// Who sends the frame.
    pub from: Hw,
    /// Whether the packet is a datagram or an AARP packet.
    pub kind: Kind,
    /// Whether the frame was lost; the block then has the comment `lost`.
    pub lost: bool,
}

/// The numbers of a packet fit their types: a law for callers that read back what was printed. The
/// function does nothing.
pub fn recall_fits(packet: &Packet)
    ensures { FitsPacket packet.now }
{
    let _interface = packet.interface;
    let _time = packet.time;
    let _to = packet.to.as_slice();
    let _from = packet.from.as_slice();
}
