//! A live router's handling of the frames that it receives.

ghost use Rattle.std.specs.Prelude.{◌≡◌, ◌<◌, false, length, IsOk, OnErr, OnOk, IsOkUnless, None, Some};
ghost use Rattle.aarp.specs.Choosing.{wants};
ghost use Rattle.aarp.specs.declared.packet.Packet.{Packet as PacketValue};
ghost use Rattle.live_router.specs.Living.{taught_as};
ghost use Rattle.router.specs.Answers as spec;
ghost use Rattle.router.specs.Ending.{ended, ended_datagram};
ghost use Rattle.station.specs.Hearing.{hearing};
ghost use Rattle.station.specs.Lawful.{PutsOut};
ghost use Rattle.station.specs.Resolution.{packet_at};
ghost use Rattle.station.specs.Values.{datagram_at};
ghost use Rattle.station.specs.declared.heard.Kind.TheVariants.{Aarp, Ddp};

use crate::taught::teach_ended;
use at_base::Error;
use ddp::View;
use router::Router;
use rtmp::{Nonextended, RouteTable};
use station::frames::read_datagram;
use station::{Heard, Kind, Outputs};

/// Receives a datagram on one of the ports: the router handles it, and learns from it, from
/// nonextended tuples as said. Error: `Memory`; neither the router nor the outputs change then.
#[inline(always)]
pub(crate) fn hear_datagram<T: RouteTable>(
    router: &mut Router<T>,
    heard: &Heard<'_>,
    view: &View<'_>,
    nonextended: Nonextended,
    outputs: &mut Outputs,
) -> Result<(), Error>
    requires { heard.now.port < length router.old.ports }
    ensures ok { OnOk result
        (PutsOut (length router.old.ports) outputs.old.items outputs.new.items (λ added.
        added ≡ (spec.heard_datagram router.old (hearing heard.now) (Some view.now)).0)) }
    ensures after { OnOk result (router.new ≡ taught_as nonextended router.old
        (spec.heard_datagram router.old (hearing heard.now) (Some view.now)).1
        (ended_datagram router.old (hearing heard.now) (Some view.now))) }
    ensures ports_stay { length router.new.ports ≡ length router.old.ports }
    ensures refused { IsOkUnless result Error.Memory }
    ensures router_stays { OnErr result (router.new ≡ router.old) }
    ensures outputs_stay { OnErr result (outputs.new.items ≡ outputs.old.items) }
{
    let course = router.course(heard.port, heard.link, view.hops(), view.target());
    // Most datagrams only pass: the router learns nothing from them, and makes nothing for them.
    if course.ending.is_none() {
        return router.carry(course.step, view, outputs);
    }
    let reaction = router.react(course, view)?;
    // Room for the outputs is made first: once the router has learned, nothing is refused.
    outputs.room(reaction.count())?;
    teach_ended(router, reaction.ended, view, nonextended)?;
    router.follow(reaction, outputs)
}

/// Receives a frame on one of the ports: the router handles it, and learns from it, from
/// nonextended tuples as said. Error: `Memory`; neither the router nor the outputs change then.
pub(crate) fn hear<T: RouteTable>(
    router: &mut Router<T>,
    heard: &Heard<'_>,
    nonextended: Nonextended,
    outputs: &mut Outputs,
) -> Result<(), Error>
    requires { heard.now.port < length router.old.ports }
    ensures ok { OnOk result
        (PutsOut (length router.old.ports) outputs.old.items outputs.new.items (λ added.
        added ≡ (spec.heard router.old (hearing heard.now)).0)) }
    ensures after { OnOk result (router.new
        ≡ taught_as nonextended router.old (spec.heard router.old (hearing heard.now)).1
        (ended router.old (hearing heard.now))) }
    ensures ports_stay { length router.new.ports ≡ length router.old.ports }
    ensures no_datagram { heard.now.kind ≡ Ddp → datagram_at heard.now.bytes.now ≡ None
        → IsOk result }
    ensures no_packet { heard.now.kind ≡ Aarp → packet_at heard.now.bytes.now ≡ None
        → IsOk result }
    ensures unasked { heard.now.kind ≡ Aarp → (p : PacketValue)
        → packet_at heard.now.bytes.now ≡ Some p → wants p.function ≡ false → IsOk result }
    ensures refused { IsOkUnless result Error.Memory }
    ensures router_stays { OnErr result (router.new ≡ router.old) }
    ensures outputs_stay { OnErr result (outputs.new.items ≡ outputs.old.items) }
{
    match heard.kind {
        Kind::Ddp => match read_datagram(heard.bytes) {
            Some(view) => hear_datagram(router, heard, &view, nonextended, outputs),
            None => Ok(()),
        },
        Kind::Aarp => router.hear_packet(heard, outputs),
    }
}
