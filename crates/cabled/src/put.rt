//! What a router puts on its cables.

use aarp::Packet;
use at_base::{Bytes, Hw};
use std::marker::Model;

/// The packet that is put on a cable.
#[derive(Debug, Drop)]
pub enum Carried {
    /// A datagram.
    Datagram(Bytes),
    /// An AARP packet, as bytes.
    Written(Bytes),
    /// An AARP packet that isn't written yet, so it needs no memory.
    Packet(Packet),
}

/// A packet that is put on a cable: by which port, counted from 0, and to which hardware address.
#[derive(Debug, Drop)]
pub struct Put {
    /// The port.
    pub port: u8,
    /// The target.
    pub to: Hw,
    /// The packet.
    pub carried: Carried,
}

impl Model for Put {
    ghost use Rattle.cabled.specs.Putting.{Put as PutValue, bytes_in, kind_of};

    ghost Value = { PutValue };

    ghost view = { λ p. record {
      port = p.port;
      to = p.to;
      kind = kind_of p.carried;
      bytes = bytes_in p.carried;
    } };
}
