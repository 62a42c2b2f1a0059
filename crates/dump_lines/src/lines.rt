//! The lines of entries.

use at_base::{Addr, Hw};
use cable_model::{DropCause, Entry, How};
use std::alloc::AllocError;
use text::{put_decimal, put_hex};

/// Appends a word and a number, counted from 1.
fn put_number(text: &mut Vec<u8>, word: &[u8], index: u16) -> Result<(), AllocError> {
    text.extend_from_slice(word)?;
    put_decimal(text, u32::from(index) + 1)
}

/// Appends a datagram in hexadecimal digits, with hop count 0, and a line feed.
fn put_body(text: &mut Vec<u8>, bytes: &[u8]) -> Result<(), AllocError> {
    text.extend_from_slice(b" ")?;
    match bytes {
        [] => {}
        [first, rest @ ..] => {
            // The hop count is between the two top bits and the two highest bits of the length.
            put_hex(text, &[*first & 0xC3])?;
            put_hex(text, rest)?;
        }
    }
    text.extend_from_slice(b"\n")
}

/// Appends the receiver of a frame: all, a group, or a hardware address.
fn put_who(text: &mut Vec<u8>, to: &Hw) -> Result<(), AllocError> {
    if to.is_all() {
        return text.extend_from_slice(b"all");
    }
    if let Some(group) = to.group() {
        text.extend_from_slice(b"group ")?;
        return put_decimal(text, u32::from(group));
    }
    put_hex(text, &to.0)
}

/// The word for how a datagram reached a cable.
fn how(how: How) -> &'static [u8] {
    match how {
        How::Station => b" station",
        How::All => b" all",
        How::Own => b" own",
        How::Absent => b" absent",
        How::Held => b" held",
    }
}

/// The word for why a datagram was dropped.
fn cause(cause: DropCause) -> &'static [u8] {
    match cause {
        DropCause::NoRoute => b" NoRoute",
        DropCause::HopLimit => b" HopLimit",
    }
}

/// Appends the line of a frame that was put on a cable.
fn put_frame(
    text: &mut Vec<u8>,
    stamp: u32,
    cable: u8,
    sender: u16,
    to: &Hw,
    bytes: &[u8],
) -> Result<(), AllocError> {
    text.extend_from_slice(b"put ")?;
    put_decimal(text, stamp)?;
    put_number(text, b" cable ", u16::from(cable))?;
    put_number(text, b" ", sender)?;
    text.extend_from_slice(b" to ")?;
    put_who(text, to)?;
    text.extend_from_slice(b" ")?;
    put_hex(text, bytes)?;
    text.extend_from_slice(b"\n")
}

/// Appends the line of a frame that was taken.
fn put_took(text: &mut Vec<u8>, stamp: u32, station: u16) -> Result<(), AllocError> {
    text.extend_from_slice(b"took ")?;
    put_decimal(text, stamp)?;
    put_number(text, b" ", station)?;
    text.extend_from_slice(b"\n")
}

/// Appends the line of a frame that was lost, or of a held datagram that was given up.
fn put_lost(text: &mut Vec<u8>, stamp: u32) -> Result<(), AllocError> {
    text.extend_from_slice(b"lost ")?;
    put_decimal(text, stamp)?;
    text.extend_from_slice(b"\n")
}

/// Appends an address, as `NET.NODE`.
fn put_address(text: &mut Vec<u8>, addr: Addr) -> Result<(), AllocError> {
    put_decimal(text, u32::from(addr.net))?;
    text.extend_from_slice(b".")?;
    put_decimal(text, u32::from(addr.node))
}

/// Appends the line of a datagram that is held.
fn put_hold(
    text: &mut Vec<u8>,
    stamp: u32,
    cable: u8,
    station: u16,
    next: Addr,
    bytes: &[u8],
) -> Result<(), AllocError> {
    text.extend_from_slice(b"hold ")?;
    put_decimal(text, stamp)?;
    put_number(text, b" cable ", u16::from(cable))?;
    put_number(text, b" ", station)?;
    text.extend_from_slice(b" to ")?;
    put_address(text, next)?;
    text.extend_from_slice(b" ")?;
    put_hex(text, bytes)?;
    text.extend_from_slice(b"\n")
}

/// Appends the line of a datagram that reached the cable of its target.
fn put_reached(
    text: &mut Vec<u8>,
    cable: u8,
    station: u16,
    reached: How,
    bytes: &[u8],
) -> Result<(), AllocError> {
    put_number(text, b"reached cable ", u16::from(cable))?;
    put_number(text, b" ", station)?;
    text.extend_from_slice(how(reached))?;
    put_body(text, bytes)
}

/// Appends the line of a datagram that a router dropped.
fn put_dropped(
    text: &mut Vec<u8>,
    router: u16,
    why: DropCause,
    bytes: &[u8],
) -> Result<(), AllocError> {
    put_number(text, b"dropped ", router)?;
    text.extend_from_slice(cause(why))?;
    put_body(text, bytes)
}

/// The number of the bytes that an entry names, if it names any.
#[must_use]
pub fn number_of(entry: &Entry) -> Option<u32> {
    match *entry {
        Entry::Sent { bytes, .. }
        | Entry::Put { bytes, .. }
        | Entry::Reached { bytes, .. }
        | Entry::Dropped { bytes, .. }
        | Entry::Hold { bytes, .. } => Some(bytes),
        Entry::Took { .. } | Entry::Lost { .. } => None,
    }
}

/// Appends the line of an entry. `bytes` are those of the number that the entry names.
///
/// Error: out of memory; then the text may end with a part of the line.
pub fn put_entry(text: &mut Vec<u8>, entry: &Entry, bytes: &[u8]) -> Result<(), AllocError> {
    match *entry {
        Entry::Sent { station, .. } => {
            put_number(text, b"sent ", station)?;
            put_body(text, bytes)
        }
        Entry::Put {
            stamp,
            cable,
            sender,
            to,
            ..
        } => put_frame(text, stamp, cable, sender, &to, bytes),
        Entry::Took { stamp, station } => put_took(text, stamp, station),
        Entry::Reached {
            cable,
            station,
            how: reached,
            ..
        } => put_reached(text, cable, station, reached, bytes),
        Entry::Dropped {
            router,
            cause: why,
            ..
        } => put_dropped(text, router, why, bytes),
        Entry::Lost { stamp } => put_lost(text, stamp),
        Entry::Hold {
            stamp,
            cable,
            station,
            next,
            ..
        } => put_hold(text, stamp, cable, station, next, bytes),
    }
}
