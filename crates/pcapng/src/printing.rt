//! Printing the blocks of a capture file.

ghost use Rattle.std.specs.Prelude.{◌≤◌, length, OnOk};
ghost use Rattle.pcapng.specs.Captures.{heartbeat_bytes, interface_bytes, packet_bytes, section_bytes};
ghost use Rattle.ethertalk.specs.Frames.{max_bytes};
ghost use Rattle.text.specs.Going.{Goes};
ghost use Rattle.text.specs.Writing.{Prints};

use crate::blocks::{put_heartbeat, put_interface, put_packet, put_section};
use crate::names::name_of;
use crate::packet::Packet;
use at_base::Error;
use std::io::Write;
use text::Output;

/// Prints the section header, with which a capture file begins. All numbers after it are
/// big-endian.
///
/// Errors: `Memory`; `WriteFault`, only if the writer failed.
pub fn print_section<W: Write>(output: &mut Output<W>) -> Result<(), Error>
    ensures gone { OnOk result (Goes (W.contents output.old.writer) output.old.text.items
        section_bytes (W.contents output.new.writer) output.new.text.items) }
    ensures prints { Prints output.old.faults output.new.faults result }
{
    put_section(&mut output.text)?;
    output.pass_on()
}

/// Prints the description of a cable as an interface: its index, from 0, and the first and the last
/// network of its range. Its name is `cable 2, 20-29`, with the number from 1. Interfaces are
/// numbered in the order of their descriptions, from 0.
///
/// Errors: `Memory`; `WriteFault`, only if the writer failed. After an error, a part of the block
/// may have been written.
pub fn print_interface<W: Write>(
    output: &mut Output<W>,
    cable: u8,
    start: u16,
    end: u16,
) -> Result<(), Error>
    ensures gone { OnOk result (Goes (W.contents output.old.writer) output.old.text.items
        (interface_bytes cable start end) (W.contents output.new.writer) output.new.text.items) }
    ensures prints { Prints output.old.faults output.new.faults result }
{
    let name = name_of(*output.text.allocator(), cable, start, end)?;
    put_interface(&mut output.text, name.as_slice())?;
    output.pass_on()
}

/// Prints a packet with these bytes, in an Ethernet frame that isn't padded. A frame holds up to
/// 1,492 bytes after its SNAP header.
///
/// Errors: `Memory`; `WriteFault`, only if the writer failed. After an error, a part of the block
/// may have been written.
pub fn print_packet<W: Write>(
    output: &mut Output<W>,
    packet: &Packet,
    bytes: &[u8],
) -> Result<(), Error>
    requires few { length bytes.now ≤ max_bytes }
    ensures gone { OnOk result (Goes (W.contents output.old.writer) output.old.text.items
        (packet_bytes packet.now bytes.now) (W.contents output.new.writer) output.new.text.items) }
    ensures prints { Prints output.old.faults output.new.faults result }
{
    put_packet(&mut output.text, packet, bytes)?;
    output.pass_on()
}

/// Prints a heartbeat: statistics of the first interface, which say only that it is this time, in
/// microseconds.
///
/// Errors: `Memory`; `WriteFault`, only if the writer failed. After an error, a part of the block
/// may have been written.
pub fn print_heartbeat<W: Write>(output: &mut Output<W>, time: u64) -> Result<(), Error>
    ensures gone { OnOk result (Goes (W.contents output.old.writer) output.old.text.items
        (heartbeat_bytes time) (W.contents output.new.writer) output.new.text.items) }
    ensures prints { Prints output.old.faults output.new.faults result }
{
    put_heartbeat(&mut output.text, time)?;
    output.pass_on()
}
