//! The lookups and forward requests that a router makes for NBP requests that end at it.

ghost use Rattle.std.specs.Prelude.{◌≡◌, ◌<◌, ◌+◌, [], ◌++◌, length, position};
ghost use Rattle.std.specs.Prelude.{IfOk, IfSome, IsOk, IsOkUnless, OnOk, false};
ghost use Rattle.std.specs.List.{flat_map, All};
ghost use Rattle.at_base.specs.Range.{is_between};
ghost use Rattle.at_base.specs.Text.{IsName, is_name};
ghost use Rattle.nbp.specs.Expansion.{IsAskIn};
ghost use Rattle.station.specs.Made.{Adds, IsWayIn, Makes};
ghost use Rattle.router.specs.Requests as spec;
ghost use Rattle.router.specs.Requests.{asked, looked_by, looked_on, made_of};
ghost use Rattle.nbp.specs.Packets.{names_in};
ghost use Rattle.router.specs.Requests.{requests_made};
ghost use Rattle.at_base.specs.Limits.{max_lists};

use crate::request::Request;
use crate::router::Router;
use crate::ways::request_way;
use aarp::Chooser;
use at_base::{Addr, Error, Name, Range, is_zone_name};
use ddp::{Header, View, kind, socket};
use nbp::{Ask, Function, Packet, expand, write};
use rtmp::RouteTable;
use station::making::put;
use station::ways::{EVERY_NODE, is_summed, way_from};
use station::{Next, Output, Way};
use std::alloc::Global;

/// The node number that means any router of a network.
const ANY_ROUTER: u8 = 0;

/// The header of a lookup or forward request that a router makes, without a source.
fn request_header(request: &Request, target: Addr) -> Header
    ensures { result ≡ spec.request_header request.now target }
{
    Header {
        summed: request.summed,
        target,
        source: Addr::NONE,
        target_socket: socket::NAMES,
        source_socket: socket::NAMES,
        kind: kind::NBP,
    }
}

/// Appends the ranges of ports. Error: `Memory`.
fn put_ranges(made: &mut Vec<Range>, ports: &[Chooser]) -> Result<(), Error>
    ensures put { OnOk result (made.new.items ≡ made.old.items ++ spec.ranges ports.now) }
    ensures refused { IsOkUnless result Error.Memory }
{
    match ports {
        [] => Ok(()),
        [port, rest @ ..] => {
            made.push(port.range())?;
            put_ranges(made, rest)
        }
    }
}

/// The ranges of ports. Error: `Memory`.
fn ranges(alloc: Global, ports: &[Chooser]) -> Result<Vec<Range>, Error>
    ensures ok { IfOk result (λ made. made.items ≡ spec.ranges ports.now) }
    ensures refused { IsOkUnless result Error.Memory }
{
    let mut made = Vec::with_capacity(alloc, ports.len())?;
    put_ranges(&mut made, ports)?;
    Ok(made)
}

/// The index of the first port whose range holds the network, if any.
fn port_to(ports: &[Chooser], net: u16) -> Option<usize>
    ensures value { result ≡ position (λ c. is_between c.range.start c.range.end net) ports.now }
    ensures inside { IfSome result (λ q. q < length ports.now) }
{
    ports.iter().position(|port| port.range().holds(net))
}

impl<T: RouteTable> Router<T> {
    /// The way of a lookup on a port: to the nodes whose zone has the group. `None` if the port has
    /// no address.
    fn lookup_way(&self, request: &Request, port: u8) -> Option<Way>
        requires name { IsName request.now.tuple.zone }
        ensures value { result ≡ spec.lookup_way self.now request.now port }
        ensures inside { port < length self.now.ports → IsWayIn (length self.now.ports) result }
    {
        let group = Name::of(request.tuple.zone.as_slice()).group();
        let every_node = Addr {
            net: 0,
            node: EVERY_NODE,
        };
        let header = request_header(request, every_node);
        way_from(self.own(port), port, Next::Group(group), header)
    }

    /// The way of a forward request to a network. `None` if there is no usable row for the network,
    /// or if the port has no address.
    fn forward_way(&self, request: &Request, net: u16) -> Option<Way>
        ensures value { result ≡ spec.forward_way self.now request.now net }
        ensures inside { IsWayIn (length self.now.ports) result }
    {
        let any_router = Addr {
            net,
            node: ANY_ROUTER,
        };
        let header = request_header(request, any_router);
        request_way(self.ports.as_slice(), self.hand(net), header)
    }

    /// The index of the first port whose range holds the network, if any.
    fn port_to(&self, net: u16) -> Option<usize>
        ensures value { result
            ≡ position (λ c. is_between c.range.start c.range.end net) self.now.ports }
        ensures inside { IfSome result (λ q. q < length self.now.ports) }
    {
        port_to(self.ports.as_slice(), net)
    }

    /// The index of a port as a `u8`. It fits, since there are at most 16 ports.
    fn number_of(&self, port: usize) -> u8
        requires { port < length self.now.ports }
        ensures { result ≡ port }
    {
        // Only the prover needs this read: it shows that there are at most 16 ports.
        let _ = &self.ports;
        port as u8
    }

    /// Adds the lookup on a port for a request. Error: `Memory`.
    fn look(&self, made: &mut Vec<Output>, request: &Request, port: u8) -> Result<(), Error>
        requires name { IsName request.now.tuple.zone }
        requires port { port < length self.now.ports }
        ensures { Makes (length self.now.ports) 1 (looked_by self.now request.now port)
            made.old.items made.new.items result }
    {
        let way = self.lookup_way(request, port);
        if way.is_none() {
            return Ok(());
        }
        let payload = write(
            *made.allocator(),
            Function::Lookup,
            request.id,
            &request.tuple,
        )?;
        put(made, &way, payload.as_slice())
    }

    /// Adds the forward request to a network for a request. Error: `Memory`.
    fn forward(&self, made: &mut Vec<Output>, request: &Request, net: u16) -> Result<(), Error>
        ensures { Makes (length self.now.ports) 1 (asked self.now request.now (Ask.Forward net))
            made.old.items made.new.items result }
    {
        let way = self.forward_way(request, net);
        if way.is_none() {
            return Ok(());
        }
        let function = Function::ForwardRequest;
        let payload = write(*made.allocator(), function, request.id, &request.tuple)?;
        put(made, &way, payload.as_slice())
    }

    /// Adds this lookup or forward request for a request. Error: `Memory`.
    fn ask(&self, made: &mut Vec<Output>, request: &Request, ask: Ask) -> Result<(), Error>
        requires name { IsName request.now.tuple.zone }
        requires port { IsAskIn (length self.now.ports) ask }
        ensures { Makes (length self.now.ports) 1 (asked self.now request.now ask)
            made.old.items made.new.items result }
    {
        match ask {
            Ask::Lookup(port) => self.look(made, request, self.number_of(port)),
            Ask::Forward(net) => self.forward(made, request, net),
        }
    }

    /// Adds these lookups and forward requests for a request, in order. Error: `Memory`.
    fn ask_all(&self, made: &mut Vec<Output>, request: &Request, asks: &[Ask]) -> Result<(), Error>
        requires name { IsName request.now.tuple.zone }
        requires ports { All (IsAskIn (length self.now.ports)) asks.now }
        ensures { Makes (length self.now.ports) (length asks.now)
            (flat_map (asked self.now request.now) asks.now)
            made.old.items made.new.items result }
    {
        match asks {
            [] => Ok(()),
            [ask, rest @ ..] => {
                self.ask(made, request, *ask)?;
                self.ask_all(made, request, rest)
            }
        }
    }

    /// Adds the lookups and forward requests for a broadcast request. Error: `Memory`.
    fn ask_for(&self, made: &mut Vec<Output>, request: &Request) -> Result<(), Error>
        ensures made { Adds (length self.now.ports) max_lists
            (made_of self.now Function.BroadcastRequest request.now 0)
            made.old.items made.new.items result }
        ensures nameless { is_name request.now.tuple.zone ≡ false → IsOk result }
    {
        let zone = request.tuple.zone.as_slice();
        if !is_zone_name(zone) {
            return Ok(());
        }
        let alloc = *made.allocator();
        let ports = ranges(alloc, self.ports.as_slice())?;
        let asks = expand(alloc, zone, &self.zones, ports.as_slice())?;
        self.ask_all(made, request, asks.as_slice())
    }

    /// Adds the lookup for a forward request to a network, on the port whose range holds it. Error:
    /// `Memory`.
    fn look_up(&self, made: &mut Vec<Output>, request: &Request, net: u16) -> Result<(), Error>
        ensures { Makes (length self.now.ports) 1
            (made_of self.now Function.ForwardRequest request.now net)
            made.old.items made.new.items result }
    {
        if !is_zone_name(request.tuple.zone.as_slice()) {
            return Ok(());
        }
        self.look_on(made, request, self.port_to(net))
    }

    /// Adds the lookup on a port for a request, if there is a port. Error: `Memory`.
    fn look_on(
        &self,
        made: &mut Vec<Output>,
        request: &Request,
        port: Option<usize>,
    ) -> Result<(), Error>
        requires name { IsName request.now.tuple.zone }
        requires port { IfSome port (λ q. q < length self.now.ports) }
        ensures { Makes (length self.now.ports) 1 (looked_on self.now request.now port)
            made.old.items made.new.items result }
    {
        match port {
            Some(port) => self.look(made, request, self.number_of(port)),
            None => Ok(()),
        }
    }

    /// Handles the NBP packet in a datagram; a datagram without one is ignored. Error: `Memory`.
    pub(crate) fn hear_names(&self, made: &mut Vec<Output>, view: &View<'_>) -> Result<(), Error>
        ensures { Adds (length self.now.ports) max_lists
            (requests_made self.now view.now (names_in view.now.payload))
            made.old.items made.new.items result }
    {
        match Packet::at(view.payload()) {
            Some(packet) => self.hear_request(made, view, &packet),
            None => Ok(()),
        }
    }

    /// Handles an NBP packet. Only its first tuple counts; lookups and replies are ignored. Error:
    /// `Memory`.
    fn hear_request(
        &self,
        made: &mut Vec<Output>,
        view: &View<'_>,
        packet: &Packet<'_>,
    ) -> Result<(), Error>
        ensures { Adds (length self.now.ports) max_lists
            (requests_made self.now view.now (Some packet.now))
            made.old.items made.new.items result }
    {
        let request = Request {
            summed: is_summed(view),
            id: packet.id(),
            tuple: packet.first().copy(),
        };
        match packet.function() {
            Function::BroadcastRequest => self.ask_for(made, &request),
            Function::ForwardRequest => self.look_up(made, &request, view.target().net),
            Function::Lookup | Function::Reply => Ok(()),
        }
    }
}
