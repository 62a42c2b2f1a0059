//! The calls of a node's users, for frozen and for live nodes.

ghost use Rattle.std.specs.Prelude.{◌≤◌};

use at_base::{Addr, Error, Text32};
use atp::Outcome;
use end_node::EndNode;
use live_node::LiveNode;
use station::Outputs;

/// The fields of a datagram to send.
#[derive(Clone, Copy)]
pub(crate) struct Sending {
    pub(crate) target: Addr,
    pub(crate) target_socket: u8,
    pub(crate) source_socket: u8,
    pub(crate) kind: u8,
    pub(crate) summed: bool,
}

/// The patterns of a lookup.
#[derive(Clone, Copy)]
pub(crate) struct Pattern {
    pub(crate) object: Text32,
    pub(crate) kind: Text32,
    pub(crate) zone: Text32,
}

/// A node as its users see it.
pub(crate) trait User: Drop {
    /// The node in its current state.
    fn held(&self) -> &EndNode;

    /// Sends a datagram.
    fn sends(&self, what: &Sending, payload: &[u8], outputs: &mut Outputs) -> Result<(), Error>;

    /// Sends a lookup for names.
    fn looks_up(&self, id: u8, name: &Pattern, outputs: &mut Outputs) -> Result<(), Error>;

    /// Registers a name for a socket.
    fn registers(&mut self, object: Text32, kind: Text32, socket: u8) -> Result<u8, Error>
        requires low { 1 ≤ socket }
        requires high { socket ≤ 254 };

    /// Sends a request for the zones from an index on.
    fn asks_for_zones(&mut self, start: u16, outputs: &mut Outputs) -> Result<u16, Error>;

    /// The outcome of a request for zones.
    fn zones_of(&mut self, id: u16) -> Result<Outcome, Error>;
}

impl User for EndNode {
    fn held(&self) -> &EndNode {
        self
    }

    fn sends(&self, what: &Sending, payload: &[u8], outputs: &mut Outputs) -> Result<(), Error> {
        let (target_socket, source_socket) = (what.target_socket, what.source_socket);
        self.send(
            what.target,
            target_socket,
            source_socket,
            what.kind,
            what.summed,
            payload,
            outputs,
        )
    }

    fn looks_up(&self, id: u8, name: &Pattern, outputs: &mut Outputs) -> Result<(), Error> {
        self.lookup(id, &name.object, &name.kind, &name.zone, outputs)
    }

    fn registers(&mut self, object: Text32, kind: Text32, socket: u8) -> Result<u8, Error> {
        self.register(object, kind, socket)
    }

    fn asks_for_zones(&mut self, start: u16, outputs: &mut Outputs) -> Result<u16, Error> {
        self.ask_zone_list(start, outputs)
    }

    fn zones_of(&mut self, id: u16) -> Result<Outcome, Error> {
        self.zone_list(id)
    }
}

impl User for LiveNode {
    fn held(&self) -> &EndNode {
        self.node()
    }

    fn sends(&self, what: &Sending, payload: &[u8], outputs: &mut Outputs) -> Result<(), Error> {
        let (target_socket, source_socket) = (what.target_socket, what.source_socket);
        self.send(
            what.target,
            target_socket,
            source_socket,
            what.kind,
            what.summed,
            payload,
            outputs,
        )
    }

    fn looks_up(&self, id: u8, name: &Pattern, outputs: &mut Outputs) -> Result<(), Error> {
        self.lookup(id, &name.object, &name.kind, &name.zone, outputs)
    }

    fn registers(&mut self, object: Text32, kind: Text32, socket: u8) -> Result<u8, Error> {
        self.register(object, kind, socket)
    }

    fn asks_for_zones(&mut self, start: u16, outputs: &mut Outputs) -> Result<u16, Error> {
        self.ask_zone_list(start, outputs)
    }

    fn zones_of(&mut self, id: u16) -> Result<Outcome, Error> {
        self.zone_list(id)
    }
}
