//! The answers to requests for routing data.

ghost use Rattle.std.specs.Prelude.{◌≡◌, ◌<◌, ◌++◌, ◌∷◌, [], Some, map, option_to_list, slice_get};
ghost use Rattle.std.specs.Prelude.{IfOk, IsOkUnless, OnOk, length};
ghost use Rattle.std.specs.Option.{option_copied};
ghost use Rattle.at_base.specs.Spelling.{bytes_of};
ghost use Rattle.cabled.specs.Asked as spec;
ghost use Rattle.cabled.specs.Asked.{as_data, packets_asked};
ghost use Rattle.rtmp.specs.Data.{routing_data};
ghost use Rattle.rtmp.specs.Requests.{request_in};
ghost use Rattle.rtmp.specs.Sending.{packet_numbered, response_of};
ghost use Rattle.router.specs.Ways as ways_spec;
ghost use Rattle.station.specs.Hearing.{hearing};
ghost use Rattle.station.specs.Making as making_spec;
ghost use Rattle.station.specs.Ports as ports_spec;

use aarp::Chooser;
use at_base::{Addr, Error, Range};
use ddp::{Header, View, kind, socket};
use router::{Ending, Router, own_at};
use rtmp::{Horizon, Request, RouteTable, write_data, write_response};
use station::making::{nothing, put, put_one};
use station::ways::{checks, is_to};
use station::{Heard, Output, Way};

/// Whether the target is the address of the port, if it has one.
fn has(target: Addr, own: Option<Addr>) -> bool
    ensures { result ≡ ports_spec.has target own }
{
    match own {
        Some(own) => target == own,
        None => false,
    }
}

/// Whether a request for routing data is for this router: it came to all nodes of the cable, or to
/// node 0, or to the address of the port on whose cable it ended.
fn is_asked(ports: &[Chooser], ending: Ending, view: &View<'_>) -> bool
    ensures { result ≡ spec.is_asked ports.now ending view.now }
{
    let target = view.target();
    !ending.is_own || target.node == 0 || has(target, own_at(ports, ending.port))
}

/// The way back as that of routing data.
fn data_way(way: &Way) -> Way
    ensures { result ≡ as_data way.now }
{
    Way {
        port: way.port,
        next: way.next,
        header: Header {
            kind: kind::RTMP_DATA,
            ..way.header
        },
    }
}

/// Adds the packet with this number, if there is one. Error: `Memory`.
fn put_packet<T: RouteTable>(
    made: &mut Vec<Output>,
    way: &Way,
    port: u8,
    range: Range,
    routes: &T,
    horizon: Horizon,
    number: u16,
) -> Result<(), Error>
    ensures put { OnOk result (made.new.items ≡ made.old.items
        ++ map (λ p. making_spec.made (as_data way.now) (bytes_of routing_data p)) (option_to_list
        (packet_numbered horizon port range way.now.header.source number (T.rows routes.now)))) }
    ensures refused { IsOkUnless result Error.Memory }
{
    let packet = write_data(
        *made.allocator(),
        routes,
        horizon,
        port,
        range,
        way.header.source,
        number,
    )?;
    put_one(made, &Some(data_way(way)), &packet)
}

/// Adds the router's rows, in as many packets as they need. Error: `Memory`.
fn put_rows<T: RouteTable>(
    made: &mut Vec<Output>,
    way: &Way,
    port: u8,
    range: Range,
    routes: &T,
    horizon: Horizon,
) -> Result<(), Error>
    ensures put { OnOk result (made.new.items ≡ made.old.items
        ++ map (λ p. making_spec.made (as_data way.now) (bytes_of routing_data p))
        (spec.packets_of horizon port range way.now.header.source (T.rows routes.now))) }
    ensures refused { IsOkUnless result Error.Memory }
{
    // A table of at most 200 rows gives at most three packets.
    put_packet(made, way, port, range, routes, horizon, 0)?;
    put_packet(made, way, port, range, routes, horizon, 1)?;
    put_packet(made, way, port, range, routes, horizon, 2)
}

/// Adds the response with the router's address. Error: `Memory`.
fn put_response(made: &mut Vec<Output>, way: &Way, range: Range) -> Result<(), Error>
    ensures put { OnOk result (made.new.items ≡ made.old.items ++ making_spec.made (as_data way.now)
        (bytes_of routing_data (response_of way.now.header.source range)) ∷ []) }
    ensures refused { IsOkUnless result Error.Memory }
{
    let response = write_response(*made.allocator(), range, way.header.source)?;
    put(made, &Some(data_way(way)), response.as_slice())
}

/// Adds the answers to a request. Error: `Memory`.
fn put_answers<T: RouteTable>(
    made: &mut Vec<Output>,
    way: &Way,
    port: u8,
    range: Range,
    routes: &T,
    request: Request,
) -> Result<(), Error>
    ensures put { OnOk result (made.new.items ≡ made.old.items
        ++ map (λ p. making_spec.made (as_data way.now) (bytes_of routing_data p))
        (packets_asked port range way.now.header.source (T.rows routes.now) request)) }
    ensures refused { IsOkUnless result Error.Memory }
{
    match request {
        Request::Router => put_response(made, way, range),
        Request::Routes(horizon) => put_rows(made, way, port, range, routes, horizon),
    }
}

/// Adds the answers to a request on the way back from a port with this choice, if there are a port, a
/// way and a request. Error: `Memory`.
fn put_answered<T: RouteTable>(
    made: &mut Vec<Output>,
    port: u8,
    routes: &T,
    chooser: Option<&Chooser>,
    way: Option<Way>,
    request: Option<Request>,
) -> Result<(), Error>
    ensures put { OnOk result (made.new.items ≡ made.old.items
        ++ spec.answered port (T.rows routes.now) (option_copied chooser.entry) way request) }
    ensures refused { IsOkUnless result Error.Memory }
{
    let Some(chooser) = chooser else {
        return Ok(());
    };
    let Some(way) = way else {
        return Ok(());
    };
    match request {
        Some(request) => put_answers(made, &way, port, chooser.range(), routes, request),
        None => Ok(()),
    }
}

/// The choice of the port with a number, if there is one.
fn chooser_at(ports: &[Chooser], port: u8) -> Option<&Chooser>
    ensures { option_copied result ≡ slice_get ports.now port }
{
    ports.get(port as usize)
}

/// Adds the answers to a datagram that ended on a port. Error: `Memory`.
fn answer<T: RouteTable>(
    made: &mut Vec<Output>,
    router: &Router<T>,
    port: u8,
    view: &View<'_>,
) -> Result<(), Error>
    ensures put { OnOk result (made.new.items ≡ made.old.items
        ++ spec.answered port router.now.routes (slice_get router.now.ports port)
        (ways_spec.way_back router.now port view.now) (request_in view.now.payload)) }
    ensures refused { IsOkUnless result Error.Memory }
{
    let chooser = chooser_at(router.ports_now(), port);
    let way = router.way_back(port, view);
    let request = Request::at(view.payload());
    put_answered(made, port, router.routes(), chooser, way, request)
}

/// Whether the datagram is a request for routing data: it is of type 5 and for socket 1, and its
/// checksum is right.
pub(crate) fn asks(view: &View<'_>) -> bool
    ensures { result ≡ spec.asks view.now }
{
    is_to(view, kind::RTMP_REQUEST, socket::RTMP) && checks(view)
}

/// The answers of a router to a datagram that a port received, if it is a request for routing data.
/// Error: `Memory`.
pub(crate) fn answers<T: RouteTable>(
    router: &Router<T>,
    heard: &Heard<'_>,
    view: &View<'_>,
) -> Result<Vec<Output>, Error>
    requires { heard.now.port < length router.now.ports }
    ensures ok { IfOk result (λ made.
        made.items ≡ spec.asked_by_datagram router.now (hearing heard.now) (Some view.now)) }
    ensures refused { IsOkUnless result Error.Memory }
{
    let mut made = nothing(router.allocator());
    let course = router.course(heard.port, heard.link, view.hops(), view.target());
    if let Some(ending) = course.ending {
        if asks(view) && is_asked(router.ports_now(), ending, view) {
            answer(&mut made, router, ending.port, view)?;
        }
    }
    Ok(made)
}
