//! The effect on a router's tables of a datagram that ended at it.

ghost use Rattle.std.specs.Prelude.{◌≡◌, ◌<◌, length, option_map, slice_get};
ghost use Rattle.std.specs.Prelude.{IfSome, IsOkUnless, OnErr, OnOk};
ghost use Rattle.live_router.specs.Living as spec;
ghost use Rattle.live_router.specs.Living.{routes_taught_as, routes_then_as, zones_taught, zones_then};
ghost use Rattle.rtmp.specs.Data.{routing_in};
ghost use Rattle.zip_zones.specs.Formats.{zones_in};

use at_base::Error;
use ddp::{View, kind, socket};
use router::Router;
use rtmp::{DataPacket, Nonextended, RouteTable};
use station::ways::is_to;
use zip_zones::Packet;

/// The router learns from data that ended on a port, if they are routing data; nonextended tuples
/// are heard as said. Error: `Memory`; nothing changes then.
fn teach_routes<T: RouteTable>(
    router: &mut Router<T>,
    port: u8,
    payload: &[u8],
    nonextended: Nonextended,
) -> Result<(), Error>
    requires { port < length router.old.ports }
    ensures ok { OnOk result (router.new ≡ record router.old {
      routes = routes_taught_as nonextended port router.old.routes
          (slice_get router.old.ports port) (routing_in payload.now);
    }) }
    ensures stays { OnErr result (router.new ≡ router.old) }
    ensures refused { IsOkUnless result Error.Memory }
{
    let Some(packet) = DataPacket::at(payload) else {
        return Ok(());
    };
    match router.ports_now().get(port as usize) {
        Some(chooser) => {
            let range = chooser.range();
            router.learn_routes(range, port, &packet, nonextended)
        }
        None => Ok(()),
    }
}

/// The router learns from data that ended at it, if they are a ZIP reply. Error: `Memory`; nothing
/// changes then.
fn teach_zones<T: RouteTable>(router: &mut Router<T>, payload: &[u8]) -> Result<(), Error>
    ensures ok { OnOk result (router.new ≡ record router.old {
      zones = zones_taught router.old.routes router.old.zones (zones_in payload.now);
    }) }
    ensures stays { OnErr result (router.new ≡ router.old) }
    ensures refused { IsOkUnless result Error.Memory }
{
    match Packet::at(payload) {
        Some(packet) => router.learn_zones(packet),
        None => Ok(()),
    }
}

/// The router learns from a datagram that ended on a port. Error: `Memory`; nothing changes then.
fn teach<T: RouteTable>(
    router: &mut Router<T>,
    port: u8,
    view: &View<'_>,
    nonextended: Nonextended,
) -> Result<(), Error>
    requires { port < length router.old.ports }
    ensures ok { OnOk result (router.new ≡ record router.old {
      routes = routes_then_as nonextended router.old port view.now;
      zones = zones_then router.old view.now;
    }) }
    ensures stays { OnErr result (router.new ≡ router.old) }
    ensures refused { IsOkUnless result Error.Memory }
{
    if is_to(view, kind::RTMP_DATA, socket::RTMP) {
        return teach_routes(router, port, view.payload(), nonextended);
    }
    if is_to(view, kind::ZIP, socket::ZIP) {
        return teach_zones(router, view.payload());
    }
    Ok(())
}

/// The router learns from a datagram, if it ended at it on the cable of a port (`ended`). Error:
/// `Memory`; nothing changes then.
pub(crate) fn teach_ended<T: RouteTable>(
    router: &mut Router<T>,
    ended: Option<u8>,
    view: &View<'_>,
    nonextended: Nonextended,
) -> Result<(), Error>
    requires { IfSome ended (λ p. p < length router.old.ports) }
    ensures ok { OnOk result (router.new
        ≡ spec.taught_as nonextended router.old router.old
        (option_map (λ p. (p, view.now)) ended)) }
    ensures stays { OnErr result (router.new ≡ router.old) }
    ensures refused { IsOkUnless result Error.Memory }
{
    match ended {
        Some(port) => teach(router, port, view, nonextended),
        None => Ok(()),
    }
}
