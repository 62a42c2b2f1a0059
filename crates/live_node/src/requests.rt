//! The calls of a live node's user: sending, lookups, names and zone lists.

ghost use Rattle.std.specs.Prelude.{◌≡◌, ◌≢◌, ◌↔◌, ◌⊎◌, ◌≤◌, ◌+◌, ◌%◌, ◌&&◌, ◌∷◌, [], ℕ, length};
ghost use Rattle.std.specs.Prelude.{true, false, None, Some};
ghost use Rattle.std.specs.Prelude.{IfErr, IfOk, IfSome, IsOkUnless, OnErr, OnOk};
ghost use Rattle.at_base.specs.declared.error.Field.TheVariants.{Taken};
ghost use Rattle.at_base.specs.declared.error.What.TheVariants.{Transaction as Missing};
ghost use Rattle.atp.specs.Outcomes.{left_open, outcome_of};
ghost use Rattle.atp.specs.Requesting.{IsNextId, begun, known, open_count, sent};
ghost use Rattle.end_node.specs.Asking.{ask_bytes, asked_by, asking, request_bytes};
ghost use Rattle.end_node.specs.Asking.{zone_ask, zone_asked, zones_asking};
ghost use Rattle.end_node.specs.Sending.{header_to, sending};
ghost use Rattle.nbp.specs.Registered.{IsLeastFree, is_registrable, is_taken, with_name};
ghost use Rattle.station.specs.Lawful.{PutsOut};
ghost use Rattle.station.specs.Making.{made};
ghost use Rattle.at_base.specs.Limits.{max_names};

use crate::live::LiveNode;
use at_base::{Addr, Error, Text32};
use atp::Outcome;
use station::Outputs;

impl LiveNode {
    /// Sends a datagram: it is added to the outputs.
    ///
    /// Inside AppleTalk, the chapter on DDP.
    ///
    /// Errors, in this order: `NoSuch(Station)` if the node has no address, or if the target's
    /// network is 0 and its node isn't 255; `TooLong` above 586 bytes; `NoRouter` if the datagram
    /// has to go to a router and the node has none; `Memory`. After an error the outputs are
    /// unchanged.
    pub fn send(
        &self,
        target: Addr,
        target_socket: u8,
        source_socket: u8,
        kind: u8,
        summed: bool,
        payload: &[u8],
        outputs: &mut Outputs,
    ) -> Result<(), Error>
        ensures sent { OnOk result (IfOk (sending self.now.node
            (header_to target target_socket source_socket kind summed)
            (length payload.now)) (λ way. PutsOut 1 outputs.old.items outputs.new.items
            (λ added. added ≡ made way payload.now ∷ []))) }
        ensures unsendable { IfErr (sending self.now.node
            (header_to target target_socket source_socket kind summed)
            (length payload.now)) (λ e. result ≡ Err e) }
        ensures refused { IfOk (sending self.now.node
            (header_to target target_socket source_socket kind summed)
            (length payload.now)) (λ _. IsOkUnless result Error.Memory) }
        ensures outputs_stay { OnErr result (outputs.new.items ≡ outputs.old.items) }
    {
        self.node.send(
            target,
            target_socket,
            source_socket,
            kind,
            summed,
            payload,
            outputs,
        )
    }

    /// Asks the node's router for the names in a zone: a broadcast request is added to the outputs.
    /// In place of an empty zone or `*` it names the node's own zone.
    ///
    /// Inside AppleTalk, the chapter on NBP.
    ///
    /// Errors, in this order: `NoSuch(Station)` if the node has no address, `NoRouter` if it has no
    /// router, `Memory`. After an error the outputs are unchanged.
    pub fn lookup(
        &self,
        id: u8,
        object: &Text32,
        kind: &Text32,
        zone: &Text32,
        outputs: &mut Outputs,
    ) -> Result<(), Error>
        ensures sent { OnOk result (IfOk (asking self.now.node) (λ way.
            PutsOut 1 outputs.old.items outputs.new.items (λ added. added ≡ made way
            (request_bytes id (asked_by way.header.source object.now kind.now
            (zone_asked self.now.node zone.now))) ∷ []))) }
        ensures unsendable { IfErr (asking self.now.node) (λ e. result ≡ Err e) }
        ensures refused { IfOk (asking self.now.node) (λ _. IsOkUnless result Error.Memory) }
        ensures outputs_stay { OnErr result (outputs.new.items ≡ outputs.old.items) }
    {
        self.node.lookup(id, object, kind, zone, outputs)
    }

    /// Registers a name for a socket, as `Names::register` does, and returns its enumerator: the
    /// least free one from 1. The caller ensures that the socket is 1 to 254.
    ///
    /// Inside AppleTalk, the chapter on NBP.
    ///
    /// Errors: `BadName`; `BadField(Taken)`; `Full` if there are 32 names; `Memory`. A refusal
    /// changes nothing.
    pub fn register(&mut self, object: Text32, kind: Text32, socket: u8) -> Result<u8, Error>
        requires low { 1 ≤ socket }
        requires high { socket ≤ 254 }
        ensures free { IfOk result (λ e. IsLeastFree self.old.node.names e) }
        ensures added { IfOk result (λ e. self.new ≡ record self.old {
          node = record self.old.node {
            names = with_name (record {
              socket = socket;
              enumerator = e;
              object = object;
              kind = kind;
            }) self.old.node.names;
          };
        }) }
        ensures bad { (result ≡ Err Error.BadName)
            ↔ ((is_registrable object && is_registrable kind) ≡ false) }
        ensures taken { (result ≡ Err (Error.BadField Taken))
            ↔ (((is_registrable object && is_registrable kind) ≡ true)
            × (is_taken object kind self.old.node.names ≡ true)) }
        ensures full { (result ≡ Err Error.Full)
            ↔ (((is_registrable object && is_registrable kind) ≡ true)
            × (is_taken object kind self.old.node.names ≡ false)
            × (max_names ≤ length self.old.node.names)) }
        ensures refused { IfErr result (λ e. (e ≡ Error.BadName) ⊎ (e ≡ Error.BadField Taken)
            ⊎ (e ≡ Error.Full) ⊎ (e ≡ Error.Memory)) }
        ensures kept { OnErr result (self.new ≡ self.old) }
    {
        self.node.register(object, kind, socket)
    }

    /// Asks the node's router for the zones of the internet, from index `start` on: an ATP request
    /// with the user bytes of GetZoneList is added to the outputs. Returns the ID of its
    /// transaction, which is open then.
    ///
    /// Inside AppleTalk, the chapters on ATP and ZIP.
    ///
    /// Errors, in this order: `NoSuch(Station)` if the node has no address; `NoRouter` if it has no
    /// router; `Full` if 32 transactions are open; `Memory`. A refusal changes nothing.
    pub fn ask_zone_list(&mut self, start: u16, outputs: &mut Outputs) -> Result<u16, Error>
        ensures id { IfOk result
            (λ id. IsNextId self.old.node.asks.next self.old.node.asks.slots id) }
        ensures begun { IfOk result (λ id. IfOk (zones_asking self.old.node) (λ way.
            known id self.new.node.asks.slots
            ≡ Some (sent (begun id (zone_ask start way.header.target))))) }
        ensures others { IfOk result (λ id. (other : ℕ) → other ≢ id
            → known other self.new.node.asks.slots ≡ known other self.old.node.asks.slots) }
        ensures next { IfOk result (λ id. self.new.node.asks.next ≡ (id + 1) % 65536) }
        ensures left { OnOk result (self.new ≡ record self.old {
          node = record self.old.node { asks = self.new.node.asks };
        }) }
        ensures sent { IfOk result (λ id. IfOk (zones_asking self.old.node) (λ way.
            PutsOut 1 outputs.old.items outputs.new.items (λ added. added
            ≡ made way (ask_bytes id (zone_ask start way.header.target)) ∷ []))) }
        ensures unsendable { IfErr (zones_asking self.old.node) (λ e. result ≡ Err e) }
        ensures full { IfOk (zones_asking self.old.node) (λ _.
            (result ≡ Err Error.Full) ↔ (32 ≤ open_count self.old.node.asks.slots)) }
        ensures refused { IfOk (zones_asking self.old.node) (λ _.
            IfErr result (λ e. (e ≡ Error.Full) ⊎ (e ≡ Error.Memory))) }
        ensures station_stays { OnErr result (self.new ≡ self.old) }
        ensures outputs_stay { OnErr result (outputs.new.items ≡ outputs.old.items) }
    {
        self.node.ask_zone_list(start, outputs)
    }

    /// The outcome of a request for zones, by the ID of its transaction. Closes the transaction
    /// unless it still waits. Allocates nothing.
    ///
    /// Inside AppleTalk, the chapter on ATP.
    ///
    /// Error: `NoSuch(Transaction)` if no transaction with this ID is open. A refusal changes
    /// nothing.
    pub fn zone_list(&mut self, id: u16) -> Result<Outcome, Error>
        ensures ok { IfOk result (λ outcome. IfSome (known id self.old.node.asks.slots)
            (λ t. outcome ≡ outcome_of t)) }
        ensures after { OnOk result (known id self.new.node.asks.slots
            ≡ left_open (known id self.old.node.asks.slots)) }
        ensures others { (other : ℕ) → other ≢ id
            → known other self.new.node.asks.slots ≡ known other self.old.node.asks.slots }
        ensures next { self.new.node.asks.next ≡ self.old.node.asks.next }
        ensures left { self.new ≡ record self.old {
          node = record self.old.node { asks = self.new.node.asks };
        } }
        ensures unknown { (result ≡ Err (Error.NoSuch Missing))
            ↔ (known id self.old.node.asks.slots ≡ None) }
        ensures refused { IsOkUnless result (Error.NoSuch Missing) }
        ensures kept { OnErr result (self.new ≡ self.old) }
    {
        self.node.zone_list(id)
    }
}
