//! Runs over frozen tables.

ghost use Rattle.std.specs.Prelude.{◌≡◌, ◌<◌, ◌≤◌, ◌+◌, ◌⊎◌, ◌↔◌, [], Some, None, length};
ghost use Rattle.std.specs.Prelude.{nat_lt, not, take, true, false};
ghost use Rattle.std.specs.Prelude.{IfErr, IfOk, IsOkUnless, OnErr, OnOk};
ghost use Rattle.std.specs.List.{AllByRecursion as Each};
ghost use Rattle.audit.specs.Rules.{Passes};
ghost use Rattle.cable_model.specs.Logs.{bytes_at};
ghost use Rattle.ddp.specs.Bodies.{body};
ghost use Rattle.ddp.specs.Datagram.{datagram_of};
ghost use Rattle.frozen.specs.Events.{DrainStops, DrainsTo, Happened, Happens, IsRefused};
ghost use Rattle.frozen.specs.Events.{IsUnstarted, Sends, SentBy, Stopped, order_refusal, refusal};
ghost use Rattle.frozen.specs.Orders as spec;
ghost use Rattle.frozen.specs.Orders.{IsFair, bytes_for};
ghost use Rattle.frozen.specs.Promises.{AreAllAskedFor, AreAllCarried, AreAllHeard, HasHops};
ghost use Rattle.frozen.specs.Promises.{HaveOnlyAsked, IsAtRest, IsEachOnce, LooksUp, OnlyAsks};
ghost use Rattle.frozen.specs.Promises.{is_routers_request};
ghost use Rattle.frozen.specs.Runs.{AddsBlock, HasBegun, IsFrozen, TakenBy, pending_in, take_refusal};
ghost use Rattle.image_stations.specs.Holders.{AreFresh};
ghost use Rattle.legal_runs.specs.Requests as requests_spec;
ghost use Rattle.run_cables.specs.Wired.{cabling_of, send_room};
ghost use Rattle.station.specs.Lawful.{IsNext};
ghost use Rattle.at_base.specs.Limits.{max_data};

use crate::order::Order;
use crate::orders::{ask_data, ask_order, send_order};
use crate::steps;
use at_base::{Addr, Error, What};
use audit::{Verdict, audit};
use cable_model::Entry;
use ddp::Header;
use end_node::EndNode;
use events::Event;
use image_stations::{Whereabouts, stations_of};
use nbp::Tuple;
use router::Router;
use rtmp::RouteTable;
use run_cables::Wiring;
use station::{Member, slices_have_bytes};
use std::alloc::Global;
use std::marker::Model;
use table_image::Image;

/// A run over the frozen tables of an internet that passes the audit: the contents of its stations,
/// and the transcript of its cables. Six clauses of each call that starts or continues a run hold
/// of the run after the call, also if the call returns an error. Each datagram to a listed network
/// is under way once or has reached its destination's cable once (`conserved`); it has enough hops
/// left (`hops`); at most fifteen routers carried it (`carried`); and, as long as no node sends a
/// forward request or a lookup, each request for names that was taken has had one lookup, or has a
/// forward request under way, on exactly the cables that list its zone (`looked_up`).
///
/// Over an image of version 2, stations know the hardware addresses that the image maps, ask for
/// others, and hold datagrams meanwhile, at most sixteen at a port. There a datagram may also be
/// held for a router, or have been given up where sixteen others were held. What is held for a
/// station is asked for (`asked_for`); and where no frame is pending, each datagram to a station's
/// address was taken by that station, or given up, as often as it was sent (`heard`).
#[derive(Drop)]
pub struct Frozen<T: RouteTable> {
    places: Whereabouts,
    stations: Vec<Member<Router<T>, EndNode>>,
    wiring: Wiring,
    limit: u32,
    alloc: Global,
}

impl<T: RouteTable> Model for Frozen<T> {
    ghost use Rattle.frozen.specs.Runs.{IsFrozen, Running};
    ghost use Rattle.run_cables.specs.Wired.{AreStill, cabling_of};
    ghost use Rattle.std.specs.Prelude.{◌≡◌};

    ghost Value = { Running };

    ghost view = { λ f. record {
      internet = f.places;
      stations = f.stations.items;
      wiring = f.wiring;
    } };

    ghost invariant = { λ f. IsFrozen (record {
      internet = f.places;
      stations = f.stations.items;
      wiring = f.wiring;
    }) × (f.limit ≡ (cabling_of f.wiring).limit) × AreStill f.wiring };
}

impl<T: RouteTable> Frozen<T> {
    /// A run over the tables of an image, with an empty transcript and stations that have received
    /// nothing, for at most `limit` entries.
    ///
    /// Errors: `NotAudited` with the audit's fault if the image fails the audit; `Memory`.
    pub fn start(alloc: Global, image: Image, limit: u32) -> Result<Frozen<T>, Error>
        ensures started { IfOk result (HasBegun image limit) }
        // Its stations have received nothing yet.
        ensures fresh { IfOk result (λ run. AreFresh run.stations) }
        ensures passes { OnOk result (Passes image) }
        ensures conserved { IfOk result IsEachOnce }
        ensures hops { IfOk result HasHops }
        ensures carried { IfOk result AreAllCarried }
        ensures asked_for { IfOk result AreAllAskedFor }
        ensures heard { IfOk result AreAllHeard }
        ensures looked_up { IfOk result LooksUp }
        ensures refused { IfErr result (IsUnstarted image) }
    {
        match audit(&image) {
            Verdict::No(fault) => Err(Error::NotAudited(fault)),
            Verdict::Yes(_) => Frozen::over(alloc, image, limit),
        }
    }

    /// The same over the tables of an image that is known to pass the audit, so that it isn't judged
    /// again. Error: `Memory`.
    pub fn over(alloc: Global, image: Image, limit: u32) -> Result<Frozen<T>, Error>
        requires passes { Passes image }
        ensures started { IfOk result (HasBegun image limit) }
        ensures fresh { IfOk result (λ run. AreFresh run.stations) }
        ensures conserved { IfOk result IsEachOnce }
        ensures hops { IfOk result HasHops }
        ensures carried { IfOk result AreAllCarried }
        ensures asked_for { IfOk result AreAllAskedFor }
        ensures heard { IfOk result AreAllHeard }
        ensures looked_up { IfOk result LooksUp }
        ensures refused { IsOkUnless result Error.Memory }
    {
        // Only the prover needs this read: it shows that the image is within its limits.
        let _cables = image.cables();
        let wiring = Wiring::of(alloc, &image, limit)?;
        let stations = stations_of(alloc, &image)?;
        let places = Whereabouts::of(alloc, image)?;
        Ok(Frozen {
            places,
            stations,
            wiring,
            limit,
            alloc,
        })
    }

    /// The transcript, in order. Allocates nothing.
    pub fn transcript(&self) -> &[Entry]
        ensures { result.now ≡ (cabling_of self.now.wiring).lines }
    {
        self.wiring.transcript()
    }

    /// The bytes with a number that entries name; empty for any other number. Allocates nothing.
    pub fn bytes(&self, number: u32) -> &[u8]
        ensures { result.now ≡ bytes_at (cabling_of self.now.wiring).kept number }
    {
        self.wiring.bytes(number)
    }

    /// The number of pending pairs of a frame and a station. Allocates nothing.
    pub fn pending_count(&self) -> usize
        ensures value { result ≡ length (pending_in self.now) }
        ensures at_rest { result ≡ 0 → IsAtRest self.now }
    {
        self.wiring.pending_count()
    }

    /// The image of the internet. Allocates nothing.
    pub fn image(&self) -> &Image
        ensures value { result.now ≡ self.now.internet }
        ensures frozen { IsFrozen self.now }
    {
        self.places.image()
    }

    /// Whether the transcript has room for `more` entries.
    fn has_room(&self, more: usize) -> bool
        requires { more ≤ 1000 }
        ensures { result
            ≡ not (nat_lt (cabling_of self.now.wiring).limit (length (cabling_of self.now.wiring).lines + more)) }
    {
        self.wiring.transcript().len() + more <= self.limit as usize
    }

    /// A node sends a datagram with this data, by the order.
    ///
    /// Errors: `Full`, `Memory`. After an error nothing has changed.
    fn carry_out(&mut self, order: &Order, payload: &[u8]) -> Result<(), Error>
        requires next { IsNext order.now.next }
        requires short { length payload.now ≤ max_data }
        requires fair { IsFair self.old.internet order.now }
        ensures sent { OnOk result (SentBy self.old order.now payload.now self.new) }
        ensures request { OnOk result (requests_spec.request (body (bytes_for order.now payload.now))
            ≡ requests_spec.packet_in (Some (datagram_of order.now.header payload.now))) }
        ensures frozen { IsFrozen self.new }
        ensures block { OnOk result (AddsBlock self.old self.new) }
        ensures asks { HaveOnlyAsked self.old
            → is_routers_request (body (bytes_for order.now payload.now)) ≡ false
            → HaveOnlyAsked self.new }
        ensures full { (result ≡ Err Error.Full)
            ↔ ((cabling_of self.old.wiring).limit
            < length (cabling_of self.old.wiring).lines + send_room self.old.wiring) }
        ensures refused { IfErr result (λ e. (e ≡ Error.Full) ⊎ (e ≡ Error.Memory)) }
        ensures kept { OnErr result (self.new ≡ self.old) }
    {
        if !self.has_room(self.wiring.send_room()) {
            return Err(Error::Full);
        }
        match ddp::write(self.alloc, &order.header, payload) {
            Ok(bytes) => {
                slices_have_bytes(bytes.as_slice());
                self.wiring.send(&self.places, order.station, order.cable, order.next, bytes)
            }
            Err(_) => Err(Error::Memory),
        }
    }

    /// The node with this address sends a broadcast request for names to a router.
    fn ask(&mut self, node: Addr, via: Option<Addr>, id: u8, name: &Tuple) -> Result<(), Error>
        ensures sent { OnOk result (Sends self.old (spec.ask_order self.old.internet node via)
            (spec.ask_data self.old.internet node id name.now) self.new) }
        ensures frozen { IsFrozen self.new }
        ensures block { OnOk result (AddsBlock self.old self.new) }
        ensures asks { HaveOnlyAsked self.old → HaveOnlyAsked self.new }
        ensures ok { OnOk result
            (order_refusal self.old (spec.ask_order self.old.internet node via) ≡ None) }
        ensures refused { IfErr result
            (IsRefused (order_refusal self.old (spec.ask_order self.old.internet node via))) }
        ensures kept { OnErr result (self.new ≡ self.old) }
    {
        let order = match ask_order(&self.places, node, via) {
            Ok(order) => order,
            Err(error) => return Err(error),
        };
        if !self.has_room(self.wiring.send_room()) {
            return Err(Error::Full);
        }
        let data = match ask_data(self.alloc, self.places.image(), node, id, name) {
            Ok(data) => data,
            Err(error) => return Err(error),
        };
        self.carry_out(&order, data.as_slice())
    }

    /// A station takes a frame.
    ///
    /// Errors, in this order: `NotPending`; `Full`; `Memory`. After an error nothing has changed.
    fn take(&mut self, stamp: u32, station: u16) -> Result<(), Error>
        requires there { station < length self.old.stations }
        ensures taken { OnOk result (TakenBy self.old stamp station self.new) }
        ensures frozen { IsFrozen self.new }
        ensures block { OnOk result (AddsBlock self.old self.new) }
        ensures asks { HaveOnlyAsked self.old → HaveOnlyAsked self.new }
        ensures ok { OnOk result (take_refusal self.old stamp station ≡ None) }
        ensures refused { IfErr result (IsRefused (take_refusal self.old stamp station)) }
        ensures kept { OnErr result (self.new ≡ self.old) }
    {
        steps::take(
            &mut self.wiring,
            &mut self.stations,
            &self.places,
            stamp,
            station,
        )
    }

    /// Carries out an event.
    ///
    /// Errors of `Send` and `Request`, in this order: `NoSuch(Node)` if no node has the address;
    /// for a datagram to network 0, `NoSuch(Station)` if it isn't for node 255; otherwise
    /// `NoRouter` if no router is named and the node has none, and `NoSuch(Router)` if the named
    /// one has no port with that address on the node's cable; `TooLong` above 586 bytes of data;
    /// `Full` if there is room for fewer than 3 entries, or 5 over an image of version 2; `Memory`.
    /// Errors of `Take`: `NoSuch(Station)` if no station has the address; `NotPending`; `Full` if
    /// there is room for fewer than 771 entries, or 1,285 over an image of version 2; `Memory`.
    /// After an error nothing has changed.
    pub fn event(&mut self, event: &Event) -> Result<(), Error>
        ensures happens { OnOk result (Happens self.old event.now self.new) }
        ensures block { OnOk result (AddsBlock self.old self.new) }
        ensures conserved { IsEachOnce self.new }
        ensures hops { HasHops self.new }
        ensures carried { AreAllCarried self.new }
        ensures asked_for { AreAllAskedFor self.new }
        ensures heard { AreAllHeard self.new }
        ensures looked_up { LooksUp self.old → OnlyAsks self.old.internet event.now
            → LooksUp self.new }
        ensures ok { OnOk result (refusal self.old event.now ≡ None) }
        ensures refused { IfErr result (IsRefused (refusal self.old event.now)) }
        ensures kept { OnErr result (self.new ≡ self.old) }
    {
        match event {
            Event::Send {
                node,
                via,
                target,
                target_socket,
                source_socket,
                kind,
                summed,
                payload,
            } => {
                let header = Header {
                    summed: *summed,
                    target: *target,
                    source: Addr::NONE,
                    target_socket: *target_socket,
                    source_socket: *source_socket,
                    kind: *kind,
                };
                match send_order(&self.places, *node, *via, header, payload.len()) {
                    Ok(order) => self.carry_out(&order, payload.as_slice()),
                    Err(error) => Err(error),
                }
            }
            Event::Request {
                node,
                via,
                id,
                name,
            } => self.ask(*node, *via, *id, name),
            Event::Take { stamp, station } => match self.places.station(*station) {
                Some(station) => self.take(*stamp, station),
                None => Err(Error::NoSuch(What::Station)),
            },
        }
    }

    /// Carries out events, one after the other, up to the first that fails. The error has the index
    /// of that event, from 0, and its error; the events before it were carried out.
    pub fn run(&mut self, events: &[Event]) -> Result<(), (usize, Error)>
        ensures happened { OnOk result (Happened self.old events.now self.new) }
        ensures conserved { IsEachOnce self.new }
        ensures hops { HasHops self.new }
        ensures carried { AreAllCarried self.new }
        ensures asked_for { AreAllAskedFor self.new }
        ensures heard { AreAllHeard self.new }
        ensures looked_up { LooksUp self.old → Each (OnlyAsks self.old.internet) events.now
            → LooksUp self.new }
        ensures stopped { IfErr result (λ stop. Stopped self.old events.now stop.0 stop.1 self.new) }
    {
        // Only the prover needs this read: the run's invariant holds also if there are no events.
        let _ = &self.places;
        let mut done = 0;
        for event in events {
            match self.event(event) {
                Ok(()) => done += 1,
                Err(error) => return Err((done, error)),
            }
        }
        Ok(())
    }

    /// Takes pending frames, at most `most` of them: each time the lowest pending stamp, by the
    /// lowest station for which it is pending. Returns whether no frame is pending any more. The
    /// errors are those of `Take`; frames taken before an error stay taken.
    pub fn drain(&mut self, most: u32) -> Result<bool, Error>
        ensures drained { IfOk result (λ none_left. DrainsTo self.old most none_left self.new) }
        ensures at_rest { IfOk result (λ none_left. none_left ≡ true → IsAtRest self.new) }
        ensures conserved { IsEachOnce self.new }
        ensures hops { HasHops self.new }
        ensures carried { AreAllCarried self.new }
        ensures asked_for { AreAllAskedFor self.new }
        ensures heard { AreAllHeard self.new }
        ensures looked_up { LooksUp self.old → LooksUp self.new }
        ensures stopped { IfErr result (λ e. DrainStops self.old most e self.new) }
    {
        // Only the prover needs this read: the run's invariant holds also if nothing is taken.
        let _ = &self.places;
        for _turn in 0..most {
            match self.wiring.first() {
                None => return Ok(true),
                Some((stamp, station)) => match self.take(stamp, station) {
                    Ok(()) => {}
                    Err(error) => return Err(error),
                },
            }
        }
        Ok(self.wiring.pending_count() == 0)
    }
}
