//! A node's handling of the datagrams that it receives.

ghost use Rattle.std.specs.Prelude.{◌≡◌, ◌≤◌, [], ◌&&◌, length, option_to_list, Some};
ghost use Rattle.std.specs.Prelude.{IfOk, IsOk, IsOkUnless, OnErr, OnOk};
ghost use Rattle.echo.specs.Echo.{echo_reply};
ghost use Rattle.end_node.specs.Answers.{AsksHearDatagram, AsksHearOwn, heard_datagram, heard_own};
ghost use Rattle.end_node.specs.Answers as answers_spec;
ghost use Rattle.end_node.specs.Answers.{keeping_any, kept, received_of, served};
ghost use Rattle.end_node.specs.Taking.{taken_datagram};
ghost use Rattle.end_node.specs.Ways as ways_spec;
ghost use Rattle.station.specs.Lawful.{AreLawful, PutsOut};
ghost use Rattle.station.specs.Made.{AreMade, Makes};
ghost use Rattle.station.specs.Ports as ports_spec;
ghost use Rattle.station.specs.Ways as ways_of;
ghost use Rattle.station.specs.Ways.{replying};
ghost use Rattle.at_base.specs.Limits.{max_names};

use crate::lists::hear_answer;
use crate::node::{Datagram, EndNode};
use at_base::{Addr, Bytes, Error};
use circular_buffer::HeapCircularBuffer;
use ddp::{View, kind, socket};
use station::making::{nothing, put_one};
use station::ways::{EVERY_NODE, checks, is_to};
use station::{Link, Output, Outputs};
use std::alloc::Global;

/// The socket from which a node sends its ATP requests.
pub(crate) const TRANSACTIONS: u8 = 252;

/// Whether the datagram is for one of the node's own services: echoes, names, routing data, zones
/// and transactions.
fn is_served(view: &View<'_>) -> bool
    ensures { result ≡ answers_spec.is_served view.now }
{
    is_to(view, kind::AEP, socket::ECHO)
        || is_to(view, kind::NBP, socket::NAMES)
        || is_to(view, kind::RTMP_DATA, socket::RTMP)
        || is_to(view, kind::ZIP, socket::ZIP)
        || is_to(view, kind::ATP, TRANSACTIONS)
}

/// Whether this is the port's address.
fn has(target: Addr, own: Option<Addr>) -> bool
    ensures { result ≡ ports_spec.has target own }
{
    match own {
        Some(own) => target == own,
        None => false,
    }
}

/// A datagram as it is kept. Error: `Memory`.
fn copied(alloc: Global, view: &View<'_>) -> Result<Datagram, Error>
    ensures ok { IfOk result (λ d. d ≡ kept view.now) }
    ensures refused { IsOkUnless result Error.Memory }
{
    let payload = Bytes::copy(alloc, view.payload())?;
    Ok(Datagram {
        source: view.source(),
        source_socket: view.source_socket(),
        target_socket: view.target_socket(),
        kind: view.kind(),
        payload,
    })
}

/// A datagram as it is kept; `None` if it is for one of the node's own services. Error: `Memory`.
fn received_from(alloc: Global, view: &View<'_>) -> Result<Option<Datagram>, Error>
    ensures ok { IfOk result (λ d. d ≡ received_of view.now) }
    ensures refused { IsOkUnless result Error.Memory }
{
    if is_served(view) {
        return Ok(None);
    }
    let datagram = copied(alloc, view)?;
    Ok(Some(datagram))
}

/// Adds a datagram, if there is one, to those kept. If 64 are kept, the oldest is dropped.
fn keep(received: &mut HeapCircularBuffer<Datagram>, datagram: Option<Datagram>)
    requires { received.old.capacity ≡ 64 }
    ensures kept { received.new.items ≡ keeping_any datagram received.old.items }
    ensures capacity { received.new.capacity ≡ received.old.capacity }
{
    if let Some(datagram) = datagram {
        let _ = received.push_back(datagram);
    }
}

impl EndNode {
    /// Whether the target means every node of the node's cable.
    fn is_all(&self, target: Addr) -> bool
        ensures { result ≡ answers_spec.is_all self.now target }
    {
        target.node == EVERY_NODE && (target.net == 0 || self.port.range().holds(target.net))
    }

    /// Whether the node accepts a datagram as its own.
    pub(crate) fn takes(&self, link: Link, view: &View<'_>) -> bool
        ensures { result ≡ answers_spec.takes self.now link view.now }
    {
        match link {
            Link::Own => has(view.target(), self.own()),
            Link::All => self.is_all(view.target()),
            Link::Group(_) => is_to(view, kind::NBP, socket::NAMES),
        }
    }

    /// Adds the reply to a datagram that is an echo request. Error: `Memory`.
    fn hear_echo(&self, made: &mut Vec<Output>, view: &View<'_>) -> Result<(), Error>
        ensures { Makes 1 1
            (replying (ways_spec.way_back self.now view.now) (option_to_list (echo_reply view.now)))
            made.old.items made.new.items result }
    {
        let way = self.way_back(view);
        if way.is_none() {
            return Ok(());
        }
        let payload = echo::reply(*made.allocator(), view)?;
        put_one(made, &way, &payload)
    }

    /// Adds the replies to a datagram that the node accepted. Error: `Memory`.
    fn serve(&self, made: &mut Vec<Output>, view: &View<'_>) -> Result<(), Error>
        ensures { Makes 1 max_names (served self.now view.now)
            made.old.items made.new.items result }
    {
        if is_to(view, kind::AEP, socket::ECHO) {
            return self.hear_echo(made, view);
        }
        if is_to(view, kind::NBP, socket::NAMES) {
            return self.tell(made, view);
        }
        Ok(())
    }

    /// The replies to a datagram that the node accepted, with the facts that each is made by the
    /// node and that there are at most 256. Error: `Memory`.
    fn made_of(&self, view: &View<'_>) -> Result<Vec<Output>, Error>
        ensures made { IfOk result (λ made. made.items ≡ served self.now view.now) }
        ensures silent { served self.now view.now ≡ [] → IsOk result }
        ensures few { IfOk result (λ made. length made.items ≤ 256) }
        ensures good { IfOk result (λ made. AreMade 1 made.items) }
        ensures refused { IsOkUnless result Error.Memory }
    {
        let mut made = nothing(*self.received.allocator());
        self.serve(&mut made, view)?;
        Ok(made)
    }

    /// The replies to a datagram that the node accepted, with the fact that they are lawful. Error:
    /// `Memory`.
    fn answer(&self, view: &View<'_>) -> Result<Vec<Output>, Error>
        ensures made { IfOk result (λ made. made.items ≡ served self.now view.now) }
        ensures silent { served self.now view.now ≡ [] → IsOk result }
        ensures lawful { IfOk result (λ made. AreLawful 1 made.items) }
        ensures refused { IsOkUnless result Error.Memory }
    {
        let made = self.made_of(view)?;
        Ok(made)
    }

    /// Receives a datagram that the node accepted. Error: `Memory`; neither the node nor the
    /// outputs change then.
    fn hear_own(&mut self, view: &View<'_>, outputs: &mut Outputs) -> Result<(), Error>
        ensures ok { OnOk result (PutsOut 1 outputs.old.items outputs.new.items (λ added.
            (added, record self.new { asks = self.old.asks }) ≡ heard_own self.old view.now)) }
        ensures asks { OnOk result (AsksHearOwn view.now self.old.asks self.new.asks) }
        ensures refused { IsOkUnless result Error.Memory }
        ensures station_stays { OnErr result (self.new ≡ self.old) }
        ensures outputs_stay { OnErr result (outputs.new.items ≡ outputs.old.items) }
    {
        let made = self.answer(view)?;
        let received = received_from(*self.received.allocator(), view)?;
        outputs.room(made.len())?;
        hear_answer(&mut self.requester, view)?;
        keep(&mut self.received, received);
        outputs.append(made);
        Ok(())
    }

    /// Whether the node accepts the datagram as its own and its checksum is right.
    fn is_taken(&self, link: Link, view: &View<'_>) -> bool
        ensures { result ≡ (answers_spec.takes self.now link view.now && ways_of.checks view.now) }
    {
        self.takes(link, view) && checks(view)
    }

    /// Receives a datagram. Returns it if the node accepts it as its own and its checksum is right.
    /// Error: `Memory`; neither the node nor the outputs change then.
    pub(crate) fn hear_datagram<'a>(
        &mut self,
        link: Link,
        view: View<'a>,
        outputs: &mut Outputs,
    ) -> Result<Option<View<'a>>, Error>
        ensures ok { OnOk result (PutsOut 1 outputs.old.items outputs.new.items (λ added.
            (added, record self.new { asks = self.old.asks })
            ≡ heard_datagram self.old link (Some view.entry))) }
        ensures asks { OnOk result
            (AsksHearDatagram self.old link (Some view.entry) self.new.asks) }
        ensures taken { IfOk result (λ t. t ≡ taken_datagram self.old link (Some view.entry)) }
        ensures ignored { taken_datagram self.old link (Some view.entry) ≡ None → IsOk result }
        ensures refused { IsOkUnless result Error.Memory }
        ensures station_stays { OnErr result (self.new ≡ self.old) }
        ensures outputs_stay { OnErr result (outputs.new.items ≡ outputs.old.items) }
    {
        if !self.is_taken(link, &view) {
            return Ok(None);
        }
        self.hear_own(&view, outputs)?;
        Ok(Some(view))
    }
}
