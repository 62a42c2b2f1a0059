//! The routing data that a router sends on its ports.

ghost use Rattle.std.specs.Prelude.{◌≡◌, ◌<◌, ◌≤◌, ◌+◌, ◌++◌, ℕ, length, map, option_to_list};
ghost use Rattle.std.specs.Prelude.{IsOk, IsOkUnless, None, OnOk};
ghost use Rattle.aarp.specs.Choosing.{settled};
ghost use Rattle.at_base.specs.Spelling.{bytes_of};
ghost use Rattle.live_router.specs.Ticking as spec;
ghost use Rattle.live_router.specs.Ticking.{data_by, data_from, packets_for};
ghost use Rattle.rtmp.specs.Data.{routing_data};
ghost use Rattle.rtmp.specs.Sending.{packet_numbered};
ghost use Rattle.rtmp.specs.declared.request.Horizon.TheVariants.{Split};
ghost use Rattle.station.specs.Made.{AreMade};
ghost use Rattle.station.specs.Making as making_spec;
ghost use Rattle.at_base.specs.Limits.{max_ports};

use aarp::Chooser;
use at_base::{Addr, Error, Range};
use ddp::{Header, kind, socket};
use rtmp::{Horizon, RouteTable, write_data};
use station::making::put_one;
use station::ways::EVERY_NODE;
use station::{Next, Output, Way};

/// The header of a datagram that the router makes, from a socket to the same socket.
pub(crate) fn header_of(source: Addr, target: Addr, socket: u8, kind: u8) -> Header
    ensures { result ≡ spec.header_of source target socket kind }
{
    Header {
        summed: false,
        target,
        source,
        target_socket: socket,
        source_socket: socket,
        kind,
    }
}

/// The way of routing data: on a port, to all stations of its cable.
fn data_way(port: u8, me: Addr) -> Way
    ensures { result ≡ spec.data_way port me }
{
    let all = Addr {
        net: 0,
        node: EVERY_NODE,
    };
    Way {
        port,
        next: Next::All,
        header: header_of(me, all, socket::RTMP, kind::RTMP_DATA),
    }
}

/// Adds the packet with this number, if there is one, on a port. Error: `Memory`.
fn put_packet<T: RouteTable>(
    made: &mut Vec<Output>,
    port: u8,
    range: Range,
    me: Addr,
    routes: &T,
    number: u16,
) -> Result<(), Error>
    ensures put { OnOk result (made.new.items ≡ made.old.items
        ++ map (λ p. making_spec.made (spec.data_way port me) (bytes_of routing_data p))
        (option_to_list (packet_numbered Split port range me number (T.rows routes.now)))) }
    ensures good { (n : ℕ) → port < n → AreMade n made.old.items
        → AreMade n made.new.items }
    ensures refused { IsOkUnless result Error.Memory }
{
    let packet = write_data(
        *made.allocator(),
        routes,
        Horizon::Split,
        port,
        range,
        me,
        number,
    )?;
    put_one(made, &Some(data_way(port, me)), &packet)
}

/// Adds the packets of routing data on a port. Error: `Memory`.
fn put_packets<T: RouteTable>(
    made: &mut Vec<Output>,
    port: u8,
    range: Range,
    me: Addr,
    routes: &T,
) -> Result<(), Error>
    ensures put { OnOk result (made.new.items ≡ made.old.items
        ++ map (λ p. making_spec.made (spec.data_way port me) (bytes_of routing_data p))
        (packets_for port range me (T.rows routes.now))) }
    ensures good { (n : ℕ) → port < n → AreMade n made.old.items
        → AreMade n made.new.items }
    ensures refused { IsOkUnless result Error.Memory }
{
    // A table of at most 200 rows gives at most three packets.
    put_packet(made, port, range, me, routes, 0)?;
    put_packet(made, port, range, me, routes, 1)?;
    put_packet(made, port, range, me, routes, 2)
}

/// Adds the routing data on a port, if it is settled. Error: `Memory`.
fn put_data<T: RouteTable>(
    made: &mut Vec<Output>,
    port: u8,
    chooser: &Chooser,
    routes: &T,
) -> Result<(), Error>
    ensures put { OnOk result (made.new.items ≡ made.old.items
        ++ data_by port chooser.now.range (settled chooser.now) (T.rows routes.now)) }
    // Nothing is sent then, which needs no memory.
    ensures unsettled { settled chooser.now ≡ None → IsOk result }
    ensures good { (n : ℕ) → port < n → AreMade n made.old.items
        → AreMade n made.new.items }
    ensures refused { IsOkUnless result Error.Memory }
{
    match chooser.settled() {
        Some(me) => put_packets(made, port, chooser.range(), me, routes),
        None => Ok(()),
    }
}

/// Adds the routing data on the settled ones of the ports, which are numbered from `port`. Error:
/// `Memory`.
pub(crate) fn put_all_data<T: RouteTable>(
    made: &mut Vec<Output>,
    port: u8,
    ports: &[Chooser],
    routes: &T,
) -> Result<(), Error>
    requires { port + length ports.now ≤ max_ports }
    ensures put { OnOk result
        (made.new.items ≡ made.old.items ++ data_from port ports.now (T.rows routes.now)) }
    ensures good { (n : ℕ) → port + length ports.now ≤ n → AreMade n made.old.items
        → AreMade n made.new.items }
    ensures refused { IsOkUnless result Error.Memory }
{
    match ports {
        [] => Ok(()),
        [chooser, rest @ ..] => {
            put_data(made, port, chooser, routes)?;
            put_all_data(made, port + 1, rest, routes)
        }
    }
}
