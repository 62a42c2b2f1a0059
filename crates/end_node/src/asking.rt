//! A node's lookups, the names that it registers, and the datagrams that it received.

ghost use Rattle.std.specs.Prelude.{◌≡◌, ◌↔◌, ◌≤◌, ◌&&◌, ◌⊎◌, ◌∷◌, ◌++◌, [], length, true, false};
ghost use Rattle.std.specs.Prelude.{IfErr, IfOk, IsOk, IsOkUnless, OnErr, OnOk};
ghost use Rattle.at_base.specs.declared.error.Field.TheVariants.{Taken};
ghost use Rattle.aarp.specs.Choosing.{settled};
ghost use Rattle.end_node.specs.Asking as spec;
ghost use Rattle.end_node.specs.Asking.{asked_by, asking_from, request_bytes};
ghost use Rattle.nbp.specs.Registered.{IsLeastFree, is_registrable, is_taken, with_name};
ghost use Rattle.station.specs.Lawful.{IsNext, PutsOut};
ghost use Rattle.station.specs.Making.{made};
ghost use Rattle.at_base.specs.Limits.{max_names};

use crate::lookups::{is_any, text_of};
use crate::node::{Datagram, EndNode};
use crate::sending::put_out;
use at_base::{Addr, Error, Text32, What};
use circular_buffer::HeapCircularBuffer;
use ddp::{Header, kind as types, socket as sockets};
use nbp::{Function, Tuple, write};
use station::{Next, Outputs, Way};

/// The socket at which a node receives the replies to its lookups.
const REPLIES: u8 = 253;

/// Adds copies of the datagrams, in order. Error: `Memory`.
fn put_copies(copies: &mut Vec<Datagram>, datagrams: &[Datagram]) -> Result<(), Error>
    ensures ok { OnOk result (copies.new.items ≡ copies.old.items ++ datagrams.now) }
    ensures refused { IsOkUnless result Error.Memory }
{
    match datagrams {
        [] => Ok(()),
        [datagram, rest @ ..] => {
            let copy = datagram.copy(*copies.allocator())?;
            copies.push(copy)?;
            put_copies(copies, rest)
        }
    }
}

/// Copies of the datagrams, in order. Error: `Memory`, which no datagrams never need.
fn copies_of(received: &HeapCircularBuffer<Datagram>) -> Result<Vec<Datagram>, Error>
    requires { received.now.capacity ≡ 64 }
    ensures ok { IfOk result (λ datagrams. datagrams.items ≡ received.now.items) }
    ensures few { IfOk result (λ datagrams. length datagrams.items ≤ 64) }
    ensures none { received.now.items ≡ [] → IsOk result }
    ensures refused { IsOkUnless result Error.Memory }
{
    let alloc = *received.allocator();
    if received.is_empty() {
        return Ok(Vec::new(alloc));
    }
    let mut copies = Vec::with_capacity(alloc, received.len())?;
    let (older, newer) = received.as_slices();
    put_copies(&mut copies, older)?;
    put_copies(&mut copies, newer)?;
    Ok(copies)
}

/// The way of a request of this type from one socket to another, from this address to the router.
pub(crate) fn request_way(
    kind: u8,
    target_socket: u8,
    source_socket: u8,
    own: Addr,
    router: Addr,
) -> Way
    ensures { result ≡ spec.way_to_router kind target_socket source_socket own router }
{
    Way {
        port: 0,
        next: Next::Station(router),
        header: Header {
            summed: false,
            target: router,
            source: own,
            target_socket,
            source_socket,
            kind,
        },
    }
}

impl EndNode {
    /// The way of a request of this type to the router, or why there is none.
    pub(crate) fn way_to_router(
        &self,
        kind: u8,
        target_socket: u8,
        source_socket: u8,
    ) -> Result<Way, Error>
        ensures value { result ≡ asking_from (spec.way_to_router kind target_socket source_socket)
            (settled self.now.port) self.now.router }
        ensures inside { IfOk result (λ way. (way.port ≡ 0) × IsNext way.next) }
    {
        let Some(own) = self.own() else {
            return Err(Error::NoSuch(What::Station));
        };
        let Some(router) = self.router else {
            return Err(Error::NoRouter);
        };
        Ok(request_way(kind, target_socket, source_socket, own, router))
    }

    /// The way of an NBP request to the router, or why there is none.
    fn asking(&self) -> Result<Way, Error>
        ensures value { result ≡ spec.asking self.now }
        ensures inside { IfOk result (λ way. (way.port ≡ 0) × IsNext way.next) }
    {
        self.way_to_router(types::NBP, sockets::NAMES, REPLIES)
    }

    /// The zone of a lookup: the node's own in place of an empty zone or `*`.
    fn zone_asked(&self, zone: &Text32) -> Text32
        ensures { result ≡ spec.zone_asked self.now zone.now }
    {
        if is_any(zone.as_slice()) {
            text_of(&self.zone)
        } else {
            *zone
        }
    }

    /// Asks the node's router for the names in a zone: a broadcast request is added to the outputs.
    /// In place of an empty zone or `*` it names the node's own zone.
    ///
    /// Inside AppleTalk, the chapter on NBP.
    ///
    /// Errors, in this order: `NoSuch(Station)` if the node has no address, `NoRouter` if it has no
    /// router, `Memory`. After an error the outputs are unchanged.
    pub fn lookup(
        &self,
        id: u8,
        object: &Text32,
        kind: &Text32,
        zone: &Text32,
        outputs: &mut Outputs,
    ) -> Result<(), Error>
        ensures sent { OnOk result (IfOk (spec.asking self.now) (λ way.
            PutsOut 1 outputs.old.items outputs.new.items (λ added. added ≡ made way
            (request_bytes id (asked_by way.header.source object.now kind.now
            (spec.zone_asked self.now zone.now))) ∷ []))) }
        ensures unsendable { IfErr (spec.asking self.now) (λ e. result ≡ Err e) }
        ensures refused { IfOk (spec.asking self.now) (λ _. IsOkUnless result Error.Memory) }
        ensures outputs_stay { OnErr result (outputs.new.items ≡ outputs.old.items) }
    {
        match self.asking() {
            Ok(way) => {
                let tuple = Tuple {
                    at: way.header.source,
                    socket: REPLIES,
                    enumerator: 0,
                    object: *object,
                    kind: *kind,
                    zone: self.zone_asked(zone),
                };
                let alloc = *self.received.allocator();
                let payload = write(alloc, Function::BroadcastRequest, id, &tuple)?;
                put_out(alloc, &way, payload.as_slice(), outputs)
            }
            Err(error) => Err(error),
        }
    }

    /// Copies of the datagrams that were received, the last 64 at most, the oldest first. Error:
    /// `Memory`.
    pub fn received(&self) -> Result<Vec<Datagram>, Error>
        ensures ok { IfOk result (λ datagrams. datagrams.items ≡ self.now.received) }
        ensures few { IfOk result (λ datagrams. length datagrams.items ≤ 64) }
        ensures none { self.now.received ≡ [] → IsOk result }
        ensures refused { IsOkUnless result Error.Memory }
    {
        copies_of(&self.received)
    }

    /// Registers a name for a socket, as `Names::register` does, and returns its enumerator: the
    /// least free one from 1. The caller ensures that the socket is 1 to 254.
    ///
    /// Inside AppleTalk, the chapter on NBP.
    ///
    /// Errors: `BadName`; `BadField(Taken)`; `Full` if there are 32 names; `Memory`. A refusal
    /// changes nothing.
    pub fn register(&mut self, object: Text32, kind: Text32, socket: u8) -> Result<u8, Error>
        requires low { 1 ≤ socket }
        requires high { socket ≤ 254 }
        ensures free { IfOk result (λ e. IsLeastFree self.old.names e) }
        ensures added { IfOk result (λ e. self.new ≡ record self.old {
          names = with_name (record {
            socket = socket;
            enumerator = e;
            object = object;
            kind = kind;
          }) self.old.names;
        }) }
        ensures bad { (result ≡ Err Error.BadName)
            ↔ ((is_registrable object && is_registrable kind) ≡ false) }
        ensures taken { (result ≡ Err (Error.BadField Taken))
            ↔ (((is_registrable object && is_registrable kind) ≡ true)
            × (is_taken object kind self.old.names ≡ true)) }
        ensures full { (result ≡ Err Error.Full)
            ↔ (((is_registrable object && is_registrable kind) ≡ true)
            × (is_taken object kind self.old.names ≡ false)
            × (max_names ≤ length self.old.names)) }
        ensures refused { IfErr result (λ e. (e ≡ Error.BadName) ⊎ (e ≡ Error.BadField Taken)
            ⊎ (e ≡ Error.Full) ⊎ (e ≡ Error.Memory)) }
        ensures kept { OnErr result (self.new ≡ self.old) }
    {
        self.names.register(object, kind, socket)
    }
}
