//! The questions of nodes.

use at_base::{Addr, Text32};
use ddp::{View, kind, socket};
use nbp::Function;
use zip_zones::ZoneFunction;

/// A name that is looked up. Its parts may be patterns.
#[derive(Clone, Copy)]
pub(crate) struct Sought {
    /// The ID that its replies have.
    pub(crate) id: u8,
    pub(crate) object: Text32,
    pub(crate) kind: Text32,
    pub(crate) zone: Text32,
}

/// What a node wants.
#[derive(Clone, Copy)]
pub(crate) enum Wanted {
    /// To know who has a name.
    Names(Sought),
    /// Its data back from a station.
    Echo(Addr),
    /// Zones from a router, in a transaction with this ID.
    Zones(Addr, u16),
}

/// A question.
#[derive(Clone, Copy)]
pub(crate) struct Question {
    /// The node that asks, counted from 0.
    pub(crate) node: usize,
    /// The address from which it asks.
    pub(crate) source: Addr,
    /// What it wants.
    pub(crate) wanted: Wanted,
    /// The number of the datagram.
    pub(crate) number: u32,
}

/// What the sender of a datagram wants, if that is a question.
pub(crate) fn wanted_by(view: &View<'_>) -> Option<Wanted> {
    match (view.kind(), view.target_socket()) {
        (kind::NBP, socket::NAMES) => sought_in(view.payload()),
        (kind::AEP, socket::ECHO) => match echo_data(view.payload()) {
            Some(_) => Some(Wanted::Echo(view.target())),
            None => None,
        },
        (kind::ATP, socket::ZIP) => zones_wanted(view.target(), view.payload()),
        _ => None,
    }
}

/// The name that a node asks a router to look up.
fn sought_in(payload: &[u8]) -> Option<Wanted> {
    let packet = nbp::Packet::at(payload)?;
    if packet.function() != Function::BroadcastRequest {
        return None;
    }
    let tuple = packet.first().copy();
    Some(Wanted::Names(Sought {
        id: packet.id(),
        object: tuple.object,
        kind: tuple.kind,
        zone: tuple.zone,
    }))
}

/// The data that an echo request wants back.
pub(crate) fn echo_data(payload: &[u8]) -> Option<&[u8]> {
    match payload {
        [echo::REQUEST, rest @ ..] => Some(rest),
        _ => None,
    }
}

/// The request for zones in these data.
fn zones_wanted(target: Addr, payload: &[u8]) -> Option<Wanted> {
    let packet = atp::Packet::at(payload)?;
    if packet.is_request() && ZoneFunction::asked(&packet.user).is_some() {
        Some(Wanted::Zones(target, packet.id))
    } else {
        None
    }
}
