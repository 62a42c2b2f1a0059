//! Blocks.

ghost use Rattle.std.specs.Prelude.{◌≡◌, ◌++◌, ◌+◌, ◌≤◌, ◌/◌, ◌%◌, ◌^◌, ◌<◌, codes, length, OnOk};
ghost use Rattle.at_base.specs.Spelling.{bytes_of};
ghost use Rattle.ethertalk.specs.Frames.{frame, max_bytes};
ghost use Rattle.pcapng.specs.Blocks as spec;
ghost use Rattle.pcapng.specs.Blocks.{interface, interface_total, options};
ghost use Rattle.pcapng.specs.Captures.{frame_of, heartbeat_bytes, packet_bytes, section_bytes};
ghost use Rattle.pcapng.specs.Fields.{filling, four_bytes, two_bytes};

use crate::fields::{filled, put_bytes, put_filling, put_four, put_two};
use crate::packet::{Packet, recall_fits};
use ethertalk::{Frame, HEADERS_LEN, put_frame};
use std::alloc::AllocError;

/// The section header block.
const SECTION: [u8; 28] = [
    0x0A, 0x0D, 0x0D, 0x0A, // its type
    0x00, 0x00, 0x00, 0x1C, // its length
    0x1A, 0x2B, 0x3C, 0x4D, // the order of bytes
    0x00, 0x01, 0x00, 0x00, // version 1.0
    0xFF, 0xFF, 0xFF, 0xFF, 0xFF, 0xFF, 0xFF, 0xFF, // the length of the section isn't known
    0x00, 0x00, 0x00, 0x1C, // the block's length again
];

/// Appends the section header block.
pub(crate) fn put_section(text: &mut Vec<u8>) -> Result<(), AllocError>
    ensures { OnOk result (text.new.items ≡ text.old.items ++ section_bytes) }
{
    put_bytes(text, &SECTION)
}

/// Appends what an interface description block has in front of its options: its type and length,
/// Ethernet, and no limit.
fn put_interface_front(text: &mut Vec<u8>, total: u32) -> Result<(), AllocError>
    ensures { OnOk result (text.new.items ≡ text.old.items
        ++ (four_bytes 1 ++ four_bytes total ++ two_bytes 1 ++ two_bytes 0 ++ four_bytes 0)) }
{
    put_four(text, 1)?;
    put_four(text, total)?;
    text.extend_from_slice(&[0, 1, 0, 0, 0, 0, 0, 0])
}

/// Appends the option of an interface's name.
fn put_name(text: &mut Vec<u8>, name: &[u8]) -> Result<(), AllocError>
    requires { length name.now < 2 ^ 16 }
    ensures { OnOk result (text.new.items ≡ text.old.items
        ++ (two_bytes 2 ++ two_bytes (length name.now) ++ name.now ++ filling (length name.now))) }
{
    put_two(text, 2)?;
    put_two(text, name.len() as u16)?;
    text.extend_from_slice(name)?;
    put_filling(text, name.len() as u32)
}

/// Appends the interface description block of an interface with a name.
pub(crate) fn put_interface(text: &mut Vec<u8>, name: &[u8]) -> Result<(), AllocError>
    requires { length name.now < 2 ^ 16 }
    ensures { OnOk result (text.new.items ≡ text.old.items ++ bytes_of interface name.now) }
{
    let total = 28 + filled(name.len() as u32);
    put_interface_front(text, total)?;
    put_name(text, name)?;
    put_four(text, 0)?;
    put_four(text, total)
}

/// The length of the block of a packet of a length.
fn packet_total(len: u32, lost: bool) -> u32
    requires { len < 2 ^ 31 }
    ensures { result ≡ spec.packet_total len lost }
{
    let options = if lost { 12 } else { 0 };
    32 + filled(len) + options
}

/// Appends when a packet was seen.
fn put_time(text: &mut Vec<u8>, time: u64) -> Result<(), AllocError>
    ensures { OnOk result (text.new.items ≡ text.old.items
        ++ (four_bytes (time / 2 ^ 32) ++ four_bytes (time % 2 ^ 32))) }
{
    put_four(text, (time / 0x1_0000_0000) as u32)?;
    put_four(text, (time % 0x1_0000_0000) as u32)
}

/// What the block of a packet has in front of the packet: its type and length, the interface, the
/// time, and the packet's length twice, as captured and as it was.
fn packet_front(total: u32, interface: u8, time: u64, len: u32) -> [u8; 28]
    ensures { result ≡ four_bytes 6 ++ four_bytes total ++ four_bytes interface
        ++ (four_bytes (time / 2 ^ 32) ++ four_bytes (time % 2 ^ 32))
        ++ four_bytes len ++ four_bytes len }
{
    let [k0, k1, k2, k3] = 6u32.to_be_bytes();
    let [t0, t1, t2, t3] = total.to_be_bytes();
    let [i0, i1, i2, i3] = u32::from(interface).to_be_bytes();
    let [h0, h1, h2, h3] = ((time / 0x1_0000_0000) as u32).to_be_bytes();
    let [w0, w1, w2, w3] = ((time % 0x1_0000_0000) as u32).to_be_bytes();
    let [l0, l1, l2, l3] = len.to_be_bytes();
    [
        k0, k1, k2, k3, t0, t1, t2, t3, i0, i1, i2, i3, h0, h1, h2, h3, w0, w1, w2, w3, l0, l1, l2,
        l3, l0, l1, l2, l3,
    ]
}

/// Appends the options of a packet, if it was lost.
fn put_options(text: &mut Vec<u8>, lost: bool) -> Result<(), AllocError>
    ensures { OnOk result (text.new.items ≡ text.old.items ++ bytes_of (options lost) lost) }
{
    if lost {
        put_bytes(text, b"\0\x01\0\x04lost\0\0\0\0")
    } else {
        Ok(())
    }
}

/// Appends the frame of a packet.
fn put_packet_frame(text: &mut Vec<u8>, packet: &Packet, bytes: &[u8]) -> Result<(), AllocError>
    requires { length bytes.now ≤ max_bytes }
    ensures { OnOk result (text.new.items
        ≡ text.old.items ++ bytes_of frame (frame_of packet.now bytes.now)) }
{
    let frame = Frame {
        to: packet.to,
        from: packet.from,
        kind: packet.kind,
        packet: bytes,
    };
    put_frame(text, &frame)
}

/// Appends the block of a packet.
pub(crate) fn put_packet(
    text: &mut Vec<u8>,
    packet: &Packet,
    bytes: &[u8],
) -> Result<(), AllocError>
    requires { length bytes.now ≤ max_bytes }
    ensures { OnOk result (text.new.items ≡ text.old.items ++ packet_bytes packet.now bytes.now) }
{
    recall_fits(packet);
    let len = HEADERS_LEN + bytes.len() as u32;
    let total = packet_total(len, packet.lost);
    let front = packet_front(total, packet.interface, packet.time, len);
    put_bytes(text, &front)?;
    put_packet_frame(text, packet, bytes)?;
    put_filling(text, len)?;
    put_options(text, packet.lost)?;
    put_four(text, total)
}

/// Appends what a heartbeat has between its two lengths: the interface, which is the first one, and
/// the time.
fn put_statistics(text: &mut Vec<u8>, time: u64) -> Result<(), AllocError>
    ensures { OnOk result (text.new.items ≡ text.old.items
        ++ (four_bytes 0 ++ (four_bytes (time / 2 ^ 32) ++ four_bytes (time % 2 ^ 32)))) }
{
    put_four(text, 0)?;
    put_time(text, time)
}

/// Appends a heartbeat.
pub(crate) fn put_heartbeat(text: &mut Vec<u8>, time: u64) -> Result<(), AllocError>
    ensures { OnOk result (text.new.items ≡ text.old.items ++ heartbeat_bytes time) }
{
    put_four(text, 5)?;
    put_four(text, 24)?;
    put_statistics(text, time)?;
    put_four(text, 24)
}
