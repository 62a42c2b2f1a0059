//! AARP packets.

ghost use Rattle.std.specs.Prelude.{◌≡◌, ◌<◌, length};
ghost use Rattle.at_base.specs.Packets.{packets};
ghost use Rattle.at_base.specs.Reading as spec;
ghost use Rattle.at_base.specs.Reading.{Gives, Reads};
ghost use Rattle.at_base.specs.Spelling.{Spells};
ghost use Rattle.aarp.specs.Packets.{packet, whole, written, function_of, head_bytes};
ghost use Rattle.aarp.specs.Packets.{station_bytes};

use at_base::packet::{address_at, byte_at, hardware_at, u16_only, u16_within};
use at_base::{Addr, Error, Field, Hw};
use byteorder::{BigEndian, ByteOrder};

/// The length of an AARP packet, in bytes.
pub const PACKET_LEN: usize = 28;

/// The hardware type of Ethernet.
const ETHERNET: u16 = 1;

/// The protocol type of AppleTalk.
const APPLETALK: u16 = 0x809B;

/// The lengths of a hardware address, 6 bytes, and of a protocol address, 4 bytes.
const LENGTHS: u16 = 0x0604;

/// The function of an AARP packet.
///
/// Inside AppleTalk, the chapter on AARP.
#[derive(Clone, Copy, Debug, PartialEq, Eq)]
pub enum Function {
    /// The sender asks which station has the target address.
    Request,
    /// The sender has the source address.
    Response,
    /// The sender wants to use the target address.
    Probe,
}

/// An AARP packet.
///
/// Inside AppleTalk, the chapter on AARP.
#[derive(Clone, Copy, Debug, PartialEq, Eq)]
pub struct Packet {
    pub function: Function,
    /// The sender's hardware address.
    pub source_hw: Hw,
    /// The sender's address; in a probe, the one that it wants to use.
    pub source: Addr,
    /// The receiver's hardware address; zeros in a request and a probe.
    pub target_hw: Hw,
    /// The address that a request or probe is about; in a response, the address that the response
    /// goes to.
    pub target: Addr,
}

/// The bytes before the source: hardware and protocol type, the lengths of both kinds of addresses,
/// and the function.
fn head(function: Function) -> [u8; 8]
    ensures { result ≡ head_bytes function }
{
    let number = match function {
        Function::Request => 1,
        Function::Response => 2,
        Function::Probe => 3,
    };
    let mut bytes = [0; 8];
    BigEndian::write_u16(&mut bytes, ETHERNET);
    BigEndian::write_u16(&mut bytes[2..], APPLETALK);
    BigEndian::write_u16(&mut bytes[4..], LENGTHS);
    BigEndian::write_u16(&mut bytes[6..], number);
    bytes
}

/// The bytes of a station: its hardware address, a 0, and its address.
fn station(hw: Hw, addr: Addr) -> [u8; 10]
    ensures bytes { result ≡ station_bytes hw addr }
    ensures fits { (length hw.0 ≡ 6) × (addr.net < 65536) × (addr.node < 256) }
{
    let Hw([a, b, c, d, e, f]) = hw;
    let mut bytes = [a, b, c, d, e, f, 0, 0, 0, addr.node];
    BigEndian::write_u16(&mut bytes[7..], addr.net);
    bytes
}

/// The function of a number from 1 to 3.
fn named(number: u16) -> Function
    ensures { result ≡ function_of number }
{
    match number {
        1 => Function::Request,
        2 => Function::Response,
        _ => Function::Probe,
    }
}

/// A packet, the first bytes of its two protocol addresses, and the bytes after the packet.
#[tactic(auto, unfolding(crate::specs::Packets::packet))]
fn whole_at(bytes: &[u8]) -> Result<(Packet, u8, u8, &[u8]), Error>
    ensures { Gives (λ x. (whole x.0 x.1 x.2, x.3.now)) result
        (spec.read packets packet bytes.now) }
{
    if bytes.len() < PACKET_LEN {
        return Err(Error::Truncated);
    }
    let (_, rest) = u16_only(bytes, ETHERNET, Field::HardwareType)?;
    let (_, rest) = u16_only(rest, APPLETALK, Field::ProtocolType)?;
    let (_, rest) = u16_only(rest, LENGTHS, Field::Lengths)?;
    let (function, rest) = u16_within(rest, 1, 3, Field::Function)?;
    let (source_hw, rest) = hardware_at(rest)?;
    let (source_first, rest) = byte_at(rest)?;
    let (source, rest) = address_at(rest)?;
    let (target_hw, rest) = hardware_at(rest)?;
    let (target_first, rest) = byte_at(rest)?;
    let (target, rest) = address_at(rest)?;
    let packet = Packet {
        function: named(function),
        source_hw,
        source,
        target_hw,
        target,
    };
    Ok((packet, source_first, target_first, rest))
}

impl Packet {
    /// The packet at the front of the bytes. Bytes after the 28th are ignored, and so is the first
    /// byte of each protocol address. Allocates nothing.
    ///
    /// Errors: `Truncated` below 28 bytes; else `BadField` of the first field that is wrong:
    /// `HardwareType`, `ProtocolType`, `Lengths`, `Function`.
    pub fn read(bytes: &[u8]) -> Result<Packet, Error>
        ensures { Reads packets packet (λ w. w.packet) (λ p. p) bytes.now result }
    {
        match whole_at(bytes) {
            Ok((packet, _, _, _)) => Ok(packet),
            Err(error) => Err(error),
        }
    }

    /// The bytes of the packet. Allocates nothing.
    pub fn write(&self) -> [u8; PACKET_LEN]
        ensures { Spells packet result (written self.now) }
    {
        let mut bytes = [0; PACKET_LEN];
        bytes[..8].copy_from_slice(&head(self.function));
        bytes[8..18].copy_from_slice(&station(self.source_hw, self.source));
        bytes[18..].copy_from_slice(&station(self.target_hw, self.target));
        bytes
    }
}
