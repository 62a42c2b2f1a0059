//! What the data of a reply say.

use at_base::packet::text_at;
use ddp::kind;
use nbp::Function;

/// What a reply says.
#[derive(Drop)]
pub(crate) enum Said<'a> {
    /// Where names were found.
    Names(nbp::Packet<'a>),
    /// That the sender answers an echo, with this number of bytes.
    Echo(usize),
    /// Some zones.
    Zones(ZonePage<'a>),
}

/// A part of a zone list, as the response to a request for zones has it.
#[derive(Clone, Copy, Debug)]
pub(crate) struct ZonePage<'a> {
    /// Whether the list ends with these names.
    pub(crate) is_last: bool,
    /// The number of names: at least 1.
    pub(crate) count: u16,
    /// The names, each length-prefixed.
    pub(crate) names: &'a [u8],
}

/// What the data of a datagram of this type say, if they are one of these replies.
pub(crate) fn said_by(kind: u8, payload: &[u8]) -> Option<Said<'_>> {
    match kind {
        kind::NBP => names_in(payload),
        kind::AEP => echo_in(payload),
        kind::ATP => zones_in(payload),
        _ => None,
    }
}

/// The names in the reply to a lookup.
fn names_in(payload: &[u8]) -> Option<Said<'_>> {
    let packet = nbp::Packet::at(payload)?;
    if packet.function() == Function::Reply {
        Some(Said::Names(packet))
    } else {
        None
    }
}

/// The number of bytes in the reply to an echo.
fn echo_in(payload: &[u8]) -> Option<Said<'_>> {
    match payload {
        [echo::REPLY, rest @ ..] => Some(Said::Echo(rest.len())),
        _ => None,
    }
}

/// The zones in the response to a request for zones. Other responses of ATP may have any data: it
/// is one for zones if its user bytes and its data agree.
fn zones_in(payload: &[u8]) -> Option<Said<'_>> {
    let packet = atp::Packet::at(payload)?;
    let [last, zero, high, low] = packet.user;
    let count = u16::from_be_bytes([high, low]);
    if packet.is_response()
        && last <= 1
        && zero == 0
        && 1 <= count
        && are_names(count, packet.payload)
    {
        Some(Said::Zones(ZonePage {
            is_last: last == 1,
            count,
            names: packet.payload,
        }))
    } else {
        None
    }
}

/// Whether the bytes are this number of names of 1 to 32 bytes.
fn are_names(count: u16, bytes: &[u8]) -> bool {
    let mut rest = bytes;
    for _ in 0..count {
        match text_at(rest, 1) {
            Ok((_name, after)) => rest = after,
            Err(_) => return false,
        }
    }
    rest.is_empty()
}
