//! Zone lists, for which a node asks its router in ATP transactions.

ghost use Rattle.std.specs.Prelude.{◌≡◌, ◌≢◌, ◌↔◌, ◌⊎◌, ◌≤◌, ◌+◌, ◌%◌, ◌∷◌, [], ℕ, None, Some};
ghost use Rattle.std.specs.Prelude.{IfErr, IfOk, IfSome, IsOkUnless, OnErr, OnOk, length};
ghost use Rattle.std.specs.Prelude.{option_map};
ghost use Rattle.at_base.specs.declared.error.What.TheVariants.{Transaction as Missing};
ghost use Rattle.atp.specs.InPlace.{packet_value};
ghost use Rattle.atp.specs.Outcomes.{left_open, outcome_of};
ghost use Rattle.atp.specs.Requesting.{IsNextId, begun, known, open_count, sent};
ghost use Rattle.end_node.specs.Answers as answers_spec;
ghost use Rattle.end_node.specs.Answers.{AsksHearOwn, HearsAny};
ghost use Rattle.end_node.specs.Asking as asking_spec;
ghost use Rattle.end_node.specs.Asking.{ask_bytes};
ghost use Rattle.station.specs.Lawful.{IsNext, PutsOut};
ghost use Rattle.station.specs.Making.{made};
ghost use Rattle.at_base.specs.Limits.{max_data};

use crate::node::EndNode;
use crate::receive::TRANSACTIONS;
use crate::sending::put_out;
use at_base::{Addr, Bytes, Error};
use atp::{Ask, Outcome, Packet, Peer, Requester};
use ddp::{View, kind as types, socket as sockets};
use station::ways::is_to;
use station::{Outputs, Way};
use std::alloc::Global;

/// The function number of GetZoneList, the first user byte of a request.
const GET_ZONE_LIST: u8 = 8;

/// The transaction that asks the router for the zones from index `start` on.
fn zone_ask(alloc: Global, start: u16, router: Addr) -> Ask
    ensures { result ≡ asking_spec.zone_ask start router }
{
    let [high, low] = start.to_be_bytes();
    Ask {
        to: router,
        socket: sockets::ZIP,
        parts: 1,
        exactly_once: false,
        release: 0,
        user: [GET_ZONE_LIST, 0, high, low],
        payload: Bytes::from_vec(Vec::new(alloc)),
        every: 10,
        tries: 8,
    }
}

/// Begins a transaction that asks a router for the zones from index `start` on. Returns its ID and
/// the bytes of its first request, which counts as sent. Errors: `Full` if 32 transactions are
/// open, `Memory`.
fn begin(
    requester: &mut Requester,
    alloc: Global,
    start: u16,
    router: Addr,
) -> Result<(u16, Bytes), Error>
    ensures id { IfOk result (λ x. IsNextId requester.old.next requester.old.slots x.0) }
    ensures begun { IfOk result (λ x.
        known x.0 requester.new.slots ≡ Some (sent (begun x.0 (asking_spec.zone_ask start router)))) }
    ensures others { IfOk result (λ x. (other : ℕ) → other ≢ x.0
        → known other requester.new.slots ≡ known other requester.old.slots) }
    ensures next { IfOk result (λ x. requester.new.next ≡ (x.0 + 1) % 65536) }
    ensures bytes { IfOk result (λ x. x.1 ≡ ask_bytes x.0 (asking_spec.zone_ask start router)) }
    ensures short { IfOk result (λ x. length x.1 ≤ max_data) }
    ensures full { (result ≡ Err Error.Full) ↔ (32 ≤ open_count requester.old.slots) }
    ensures refused { IfErr result (λ e. (e ≡ Error.Full) ⊎ (e ≡ Error.Memory)) }
{
    let id = requester.begin(zone_ask(alloc, start, router))?;
    let bytes = requester.request(id)?;
    Ok((id, bytes))
}

/// The ATP packet in a datagram, if it is for the socket of the node's transactions.
fn brought_by<'a>(view: &View<'a>) -> Option<Packet<'a>>
    ensures { option_map packet_value result ≡ answers_spec.brought_by view.now }
{
    if is_to(view, types::ATP, TRANSACTIONS) {
        Packet::at(view.payload())
    } else {
        None
    }
}

/// Passes a packet, if there is one, to the transactions. Error: `Memory`; they don't change then.
///
/// A node sends no exactly-once requests, so no release is needed, and none is sent.
fn hear_any(requester: &mut Requester, from: Peer, packet: Option<Packet<'_>>) -> Result<(), Error>
    ensures ok { OnOk result
        (HearsAny from (option_map packet_value packet.entry) requester.old requester.new) }
    ensures refused { IsOkUnless result Error.Memory }
    ensures stay { OnErr result (requester.new ≡ requester.old) }
{
    if let Some(packet) = packet {
        requester.heard(from, &packet)?;
    }
    Ok(())
}

/// Passes a datagram that the node accepted to its transactions. Error: `Memory`; they don't change
/// then.
pub(crate) fn hear_answer(requester: &mut Requester, view: &View<'_>) -> Result<(), Error>
    ensures ok { OnOk result (AsksHearOwn view.now requester.old requester.new) }
    ensures refused { IsOkUnless result Error.Memory }
    ensures stay { OnErr result (requester.new ≡ requester.old) }
{
    let from = Peer {
        addr: view.source(),
        socket: view.source_socket(),
    };
    hear_any(requester, from, brought_by(view))
}

impl EndNode {
    /// The way of a request for zones to the router, or why there is none.
    fn asking_zones(&self) -> Result<Way, Error>
        ensures value { result ≡ asking_spec.zones_asking self.now }
        ensures inside { IfOk result (λ way. (way.port ≡ 0) × IsNext way.next) }
    {
        self.way_to_router(types::ATP, sockets::ZIP, TRANSACTIONS)
    }

    /// Asks the router to which a way goes for the zones from index `start` on, and returns the ID
    /// of the transaction. Errors: `Full` if 32 transactions are open, `Memory`; neither the node
    /// nor the outputs change then.
    fn ask_by(&mut self, way: &Way, start: u16, outputs: &mut Outputs) -> Result<u16, Error>
        requires port { way.now.port ≡ 0 }
        requires next { IsNext way.now.next }
        ensures id { IfOk result (λ id. IsNextId self.old.asks.next self.old.asks.slots id) }
        ensures begun { IfOk result (λ id. known id self.new.asks.slots
            ≡ Some (sent (begun id (asking_spec.zone_ask start way.now.header.target)))) }
        ensures others { IfOk result (λ id. (other : ℕ) → other ≢ id
            → known other self.new.asks.slots ≡ known other self.old.asks.slots) }
        ensures next { IfOk result (λ id. self.new.asks.next ≡ (id + 1) % 65536) }
        ensures left { OnOk result (self.new ≡ record self.old { asks = self.new.asks }) }
        ensures sent { IfOk result (λ id. PutsOut 1 outputs.old.items outputs.new.items
            (λ added. added ≡ made way.now
            (ask_bytes id (asking_spec.zone_ask start way.now.header.target)) ∷ [])) }
        ensures full { (result ≡ Err Error.Full) ↔ (32 ≤ open_count self.old.asks.slots) }
        ensures refused { IfErr result (λ e. (e ≡ Error.Full) ⊎ (e ≡ Error.Memory)) }
        ensures station_stays { OnErr result (self.new ≡ self.old) }
        ensures outputs_stay { OnErr result (outputs.new.items ≡ outputs.old.items) }
    {
        if self.requester.is_full() {
            return Err(Error::Full);
        }
        let alloc = *self.received.allocator();
        let mut requester = self.requester.copy()?;
        let (id, bytes) = begin(&mut requester, alloc, start, way.header.target)?;
        put_out(alloc, way, bytes.as_slice(), outputs)?;
        self.requester = requester;
        Ok(id)
    }

    /// Asks the node's router for the zones of the internet, from index `start` on: an ATP request
    /// with the user bytes of GetZoneList is added to the outputs. Returns the ID of its
    /// transaction, which is open then.
    ///
    /// Inside AppleTalk, the chapters on ATP and ZIP.
    ///
    /// Errors, in this order: `NoSuch(Station)` if the node has no address; `NoRouter` if it has no
    /// router; `Full` if 32 transactions are open; `Memory`. A refusal changes nothing.
    pub fn ask_zone_list(&mut self, start: u16, outputs: &mut Outputs) -> Result<u16, Error>
        ensures id { IfOk result (λ id. IsNextId self.old.asks.next self.old.asks.slots id) }
        ensures begun { IfOk result (λ id. IfOk (asking_spec.zones_asking self.old) (λ way.
            known id self.new.asks.slots
            ≡ Some (sent (begun id (asking_spec.zone_ask start way.header.target))))) }
        ensures others { IfOk result (λ id. (other : ℕ) → other ≢ id
            → known other self.new.asks.slots ≡ known other self.old.asks.slots) }
        ensures next { IfOk result (λ id. self.new.asks.next ≡ (id + 1) % 65536) }
        ensures left { OnOk result (self.new ≡ record self.old { asks = self.new.asks }) }
        ensures sent { IfOk result (λ id. IfOk (asking_spec.zones_asking self.old) (λ way.
            PutsOut 1 outputs.old.items outputs.new.items (λ added. added
            ≡ made way (ask_bytes id (asking_spec.zone_ask start way.header.target)) ∷ []))) }
        ensures unsendable { IfErr (asking_spec.zones_asking self.old) (λ e. result ≡ Err e) }
        ensures full { IfOk (asking_spec.zones_asking self.old) (λ _.
            (result ≡ Err Error.Full) ↔ (32 ≤ open_count self.old.asks.slots)) }
        ensures refused { IfOk (asking_spec.zones_asking self.old) (λ _.
            IfErr result (λ e. (e ≡ Error.Full) ⊎ (e ≡ Error.Memory))) }
        ensures station_stays { OnErr result (self.new ≡ self.old) }
        ensures outputs_stay { OnErr result (outputs.new.items ≡ outputs.old.items) }
    {
        match self.asking_zones() {
            Ok(way) => self.ask_by(&way, start, outputs),
            Err(error) => Err(error),
        }
    }

    /// The outcome of a request for zones, by the ID of its transaction. Closes the transaction
    /// unless it still waits. Allocates nothing.
    ///
    /// Inside AppleTalk, the chapter on ATP.
    ///
    /// Error: `NoSuch(Transaction)` if no transaction with this ID is open. A refusal changes
    /// nothing.
    pub fn zone_list(&mut self, id: u16) -> Result<Outcome, Error>
        ensures ok { IfOk result (λ outcome. IfSome (known id self.old.asks.slots)
            (λ t. outcome ≡ outcome_of t)) }
        ensures after { OnOk result (known id self.new.asks.slots
            ≡ left_open (known id self.old.asks.slots)) }
        ensures others { (other : ℕ) → other ≢ id
            → known other self.new.asks.slots ≡ known other self.old.asks.slots }
        ensures next { self.new.asks.next ≡ self.old.asks.next }
        ensures left { self.new ≡ record self.old { asks = self.new.asks } }
        ensures unknown { (result ≡ Err (Error.NoSuch Missing))
            ↔ (known id self.old.asks.slots ≡ None) }
        ensures refused { IsOkUnless result (Error.NoSuch Missing) }
        ensures kept { OnErr result (self.new ≡ self.old) }
    {
        self.requester.result(id)
    }
}
