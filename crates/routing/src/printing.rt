//! The capture of what a station puts.

ghost use Rattle.std.specs.Prelude.{◌≡◌, ◌≤◌, length, slice_get, take, OnOk};
ghost use Rattle.std.specs.List.{flat_map};
ghost use Rattle.ethertalk.specs.Frames.{max_bytes};
ghost use Rattle.cabled.specs.Putting.{kind_of};
ghost use Rattle.routing.specs.Streams as spec;
ghost use Rattle.text.specs.Going.{Goes};
ghost use Rattle.text.specs.Writing.{Prints};

use crate::cable::Cable;
use at_base::{Error, Hw};
use cabled::{Carried, Put};
use ethertalk::MAX_BYTES;
use pcapng::{Packet, print_interface, print_packet, print_section};
use port::Port;
use station::Kind;
use std::io::Write;
use text::Output;

/// As many of the bytes as a frame of Ethernet holds.
fn front_of(bytes: &[u8]) -> &[u8]
    ensures front { result.now ≡ take max_bytes bytes.now }
    ensures few { length result.now ≤ max_bytes }
{
    if bytes.len() > MAX_BYTES {
        &bytes[..MAX_BYTES]
    } else {
        bytes
    }
}

/// The hardware address of a port, and one of zeros where there is no such port.
fn hardware(ports: &[Port], port: u8) -> Hw
    ensures { result ≡ spec.hardware (slice_get ports.now port) }
{
    match ports.get(port as usize) {
        Some(port) => port.hw(),
        None => Hw([0; 6]),
    }
}

/// What is carried: a datagram, or an AARP packet.
fn carried_kind(carried: &Carried) -> Kind
    ensures { result ≡ kind_of carried.now }
{
    match carried {
        Carried::Datagram(_) => Kind::Ddp,
        Carried::Written(_) => Kind::Aarp,
        Carried::Packet(_) => Kind::Aarp,
    }
}

/// A packet that is put at a time, as a capture tells it.
fn packet_put(ports: &[Port], time: u64, put: &Put) -> Packet
    ensures { result ≡ spec.packet_put ports.now time put.now }
{
    Packet {
        interface: put.port,
        time,
        to: put.to,
        from: hardware(ports, put.port),
        kind: carried_kind(&put.carried),
        lost: false,
    }
}

/// Prints the block of a packet that is put.
fn print_put<W: Write>(
    output: &mut Output<W>,
    ports: &[Port],
    time: u64,
    put: &Put,
) -> Result<(), Error>
    ensures gone { OnOk result (Goes (W.contents output.old.writer) output.old.text.items
        (spec.put_bytes ports.now time put.now)
        (W.contents output.new.writer) output.new.text.items) }
    ensures prints { Prints output.old.faults output.new.faults result }
{
    let packet = packet_put(ports, time, put);
    match &put.carried {
        Carried::Datagram(bytes) => print_packet(output, &packet, front_of(bytes.as_slice())),
        Carried::Written(bytes) => print_packet(output, &packet, front_of(bytes.as_slice())),
        Carried::Packet(sent) => print_packet(output, &packet, front_of(&sent.write())),
    }
}

/// Prints the blocks of packets that are put at a time, in order.
pub(crate) fn print_puts<W: Write>(
    output: &mut Output<W>,
    ports: &[Port],
    time: u64,
    puts: &[Put],
) -> Result<(), Error>
    ensures gone { OnOk result (Goes (W.contents output.old.writer) output.old.text.items
        (spec.puts_bytes ports.now time puts.now)
        (W.contents output.new.writer) output.new.text.items) }
    ensures prints { Prints output.old.faults output.new.faults result }
{
    match puts {
        [] => Ok(()),
        [put, rest @ ..] => {
            print_put(output, ports, time, put)?;
            // Most events put one packet.
            if rest.is_empty() {
                return Ok(());
            }
            print_puts(output, ports, time, rest)
        }
    }
}

/// Prints the description of a port's cable.
fn print_cable<W: Write>(output: &mut Output<W>, cable: &Cable) -> Result<(), Error>
    ensures gone { OnOk result (Goes (W.contents output.old.writer) output.old.text.items
        (spec.cable_bytes cable.now) (W.contents output.new.writer) output.new.text.items) }
    ensures prints { Prints output.old.faults output.new.faults result }
{
    print_interface(output, cable.index, cable.start, cable.end)
}

/// Prints the descriptions of cables, in order.
fn print_cables<W: Write>(output: &mut Output<W>, cables: &[Cable]) -> Result<(), Error>
    ensures gone { OnOk result (Goes (W.contents output.old.writer) output.old.text.items
        (flat_map spec.cable_bytes cables.now)
        (W.contents output.new.writer) output.new.text.items) }
    ensures prints { Prints output.old.faults output.new.faults result }
{
    match cables {
        [] => Ok(()),
        [cable, rest @ ..] => {
            print_cable(output, cable)?;
            print_cables(output, rest)
        }
    }
}

/// Prints what stands before the first packet: the section header, and an interface for each port.
pub(crate) fn print_head<W: Write>(output: &mut Output<W>, cables: &[Cable]) -> Result<(), Error>
    ensures gone { OnOk result (Goes (W.contents output.old.writer) output.old.text.items
        (spec.head_bytes cables.now) (W.contents output.new.writer) output.new.text.items) }
    ensures prints { Prints output.old.faults output.new.faults result }
{
    print_section(output)?;
    print_cables(output, cables)
}
