//! The line of an entry, without its line feed.

ghost use Rattle.std.specs.Prelude.{◌≡◌, ◌+◌, ◌++◌, [], OnOk, codes};
ghost use Rattle.cable_model.specs.Transcript.{Sent, Put, Took, Reached, Dropped, Hold};
ghost use Rattle.std.specs.Fmt.{decimal};
ghost use Rattle.ddp.specs.Bodies.{body};
ghost use Rattle.at_base.specs.Texts.{address_text};
ghost use Rattle.trace_lines.specs.Lines as spec;
ghost use Rattle.trace_lines.specs.Lines.{line, who_text};
ghost use Rattle.trace_lines.specs.Said.{entry_with};
ghost use Rattle.trace_lines.specs.Stations.{address_on};

use crate::stations::Stations;
use crate::words::{put_body, put_cause, put_how, put_who};
use at_base::{Addr, Hw};
use cable_model::{Entry, How};
use station::{DropCause, Kind};
use std::alloc::AllocError;
use text::{put_address, put_decimal, put_hex};

/// A frame on a cable.
#[derive(Clone, Copy)]
struct Frame {
    stamp: u32,
    cable: u8,
    sender: u16,
    to: Hw,
    kind: Kind,
}

/// Appends the number of a cable, counted from 1, and the address of a station there.
fn put_place(
    text: &mut Vec<u8>,
    stations: &Stations,
    cable: u8,
    station: u16,
) -> Result<(), AllocError>
    ensures { OnOk result (text.new.items
        ≡ text.old.items ++ (codes "cable " ++ decimal (cable + 1) ++ codes " "
        ++ address_text (address_on stations.now station cable))) }
{
    text.extend_from_slice(b"cable ")?;
    put_decimal(text, u32::from(cable) + 1)?;
    text.extend_from_slice(b" ")?;
    put_address(text, stations.address_on(station, cable))
}

/// Appends the receiver of a frame, with the words around it.
fn put_target(text: &mut Vec<u8>, stations: &Stations, cable: u8, to: &Hw) -> Result<(), AllocError>
    ensures { OnOk result (text.new.items
        ≡ text.old.items ++ (codes " to " ++ who_text stations.now cable to.now ++ codes " ")) }
{
    text.extend_from_slice(b" to ")?;
    put_who(text, stations, cable, to)?;
    text.extend_from_slice(b" ")
}

/// Appends the line of a datagram that a station made.
fn put_sent(
    text: &mut Vec<u8>,
    stations: &Stations,
    station: u16,
    bytes: &[u8],
) -> Result<(), AllocError>
    ensures { OnOk result (text.new.items
        ≡ text.old.items ++ line stations.now [] (Sent station (body bytes.now))) }
{
    text.extend_from_slice(b"sent ")?;
    put_address(text, stations.address_of(station))?;
    text.extend_from_slice(b" ")?;
    put_body(text, bytes)
}

/// Appends a frame's stamp, its cable and the address of its sender there.
fn put_sender(text: &mut Vec<u8>, stations: &Stations, frame: &Frame) -> Result<(), AllocError>
    ensures { OnOk result (text.new.items ≡ text.old.items
        ++ (codes "put " ++ decimal frame.now.stamp ++ codes " cable "
        ++ decimal (frame.now.cable + 1) ++ codes " "
        ++ address_text (address_on stations.now frame.now.sender frame.now.cable))) }
{
    text.extend_from_slice(b"put ")?;
    put_decimal(text, frame.stamp)?;
    text.extend_from_slice(b" ")?;
    put_place(text, stations, frame.cable, frame.sender)
}

/// Appends the line of a frame that was put on a cable.
fn put_frame(
    text: &mut Vec<u8>,
    stations: &Stations,
    frame: &Frame,
    bytes: &[u8],
) -> Result<(), AllocError>
    ensures { OnOk result (text.new.items
        ≡ text.old.items ++ line stations.now [] (Put (record {
          stamp = frame.now.stamp;
          cable = frame.now.cable;
          sender = frame.now.sender;
          to = frame.now.to;
          kind = frame.now.kind;
          bytes = bytes.now;
        }))) }
{
    put_sender(text, stations, frame)?;
    put_target(text, stations, frame.cable, &frame.to)?;
    put_hex(text, bytes)
}

/// The address of a station on the cable of a frame, and 0.0 if the frame was never printed.
fn at_frame(stations: &Stations, cables: &[u8], station: u16, stamp: u32) -> Addr
    ensures { result ≡ spec.at_frame stations.now cables.now station stamp }
{
    match cables.get(stamp as usize) {
        Some(cable) => stations.address_on(station, *cable),
        None => Addr::NONE,
    }
}

/// Appends the line of a station that took a frame.
fn put_took(
    text: &mut Vec<u8>,
    stations: &Stations,
    cables: &[u8],
    stamp: u32,
    station: u16,
) -> Result<(), AllocError>
    ensures { OnOk result (text.new.items
        ≡ text.old.items ++ line stations.now cables.now (Took stamp station)) }
{
    text.extend_from_slice(b"took ")?;
    put_decimal(text, stamp)?;
    text.extend_from_slice(b" ")?;
    put_address(text, at_frame(stations, cables, station, stamp))
}

/// Appends the line of a datagram that reached a cable, where this station put or kept it.
fn put_reached(
    text: &mut Vec<u8>,
    stations: &Stations,
    cable: u8,
    station: u16,
    how: How,
    bytes: &[u8],
) -> Result<(), AllocError>
    ensures { OnOk result (text.new.items
        ≡ text.old.items ++ line stations.now [] (Reached cable station how (body bytes.now))) }
{
    text.extend_from_slice(b"reached ")?;
    put_place(text, stations, cable, station)?;
    text.extend_from_slice(b" ")?;
    put_how(text, how)?;
    text.extend_from_slice(b" ")?;
    put_body(text, bytes)
}

/// Appends the line of a datagram that a router dropped.
fn put_dropped(
    text: &mut Vec<u8>,
    stations: &Stations,
    router: u16,
    cause: DropCause,
    bytes: &[u8],
) -> Result<(), AllocError>
    ensures { OnOk result (text.new.items
        ≡ text.old.items ++ line stations.now [] (Dropped router cause (body bytes.now))) }
{
    text.extend_from_slice(b"dropped ")?;
    put_address(text, stations.address_of(router))?;
    text.extend_from_slice(b" ")?;
    put_cause(text, cause)?;
    text.extend_from_slice(b" ")?;
    put_body(text, bytes)
}

/// Appends the line of a frame that was lost, or of a held datagram that was given up.
fn put_lost(text: &mut Vec<u8>, stamp: u32) -> Result<(), AllocError>
    ensures { OnOk result (text.new.items ≡ text.old.items ++ (codes "lost " ++ decimal stamp)) }
{
    text.extend_from_slice(b"lost ")?;
    put_decimal(text, stamp)
}

/// Appends the stamp of a held datagram, its cable and the address of its station there.
fn put_holder(
    text: &mut Vec<u8>,
    stations: &Stations,
    stamp: u32,
    cable: u8,
    station: u16,
) -> Result<(), AllocError>
    ensures { OnOk result (text.new.items ≡ text.old.items
        ++ (codes "hold " ++ decimal stamp ++ codes " cable " ++ decimal (cable + 1) ++ codes " "
        ++ address_text (address_on stations.now station cable))) }
{
    text.extend_from_slice(b"hold ")?;
    put_decimal(text, stamp)?;
    text.extend_from_slice(b" ")?;
    put_place(text, stations, cable, station)
}

/// Appends the line of a datagram that a station holds.
fn put_hold(
    text: &mut Vec<u8>,
    stations: &Stations,
    stamp: u32,
    cable: u8,
    station: u16,
    next: Addr,
    bytes: &[u8],
) -> Result<(), AllocError>
    ensures { OnOk result (text.new.items ≡ text.old.items ++ line stations.now [] (Hold (record {
      stamp = stamp;
      cable = cable;
      station = station;
      next = next;
      bytes = bytes.now;
    }))) }
{
    put_holder(text, stations, stamp, cable, station)?;
    text.extend_from_slice(b" to ")?;
    put_address(text, next)?;
    text.extend_from_slice(b" ")?;
    put_hex(text, bytes)
}

/// Appends the line of an entry. `cables` has the cable of each stamp so far.
pub(crate) fn put_entry(
    text: &mut Vec<u8>,
    stations: &Stations,
    cables: &[u8],
    entry: &Entry,
    bytes: &[u8],
) -> Result<(), AllocError>
    ensures { OnOk result (text.new.items
        ≡ text.old.items ++ line stations.now cables.now (entry_with bytes.now entry.now)) }
{
    match *entry {
        Entry::Sent { station, .. } => put_sent(text, stations, station, bytes),
        Entry::Put {
            stamp,
            cable,
            sender,
            to,
            kind,
            ..
        } => {
            let frame = Frame {
                stamp,
                cable,
                sender,
                to,
                kind,
            };
            put_frame(text, stations, &frame, bytes)
        }
        Entry::Took { stamp, station } => put_took(text, stations, cables, stamp, station),
        Entry::Reached {
            cable,
            station,
            how,
            ..
        } => put_reached(text, stations, cable, station, how, bytes),
        Entry::Dropped { router, cause, .. } => put_dropped(text, stations, router, cause, bytes),
        Entry::Lost { stamp } => put_lost(text, stamp),
        Entry::Hold {
            stamp,
            cable,
            station,
            next,
            ..
        } => put_hold(text, stations, stamp, cable, station, next, bytes),
    }
}
