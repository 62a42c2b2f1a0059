//! What a router with its ports makes of a frame that a port hears.

ghost use Rattle.std.specs.Prelude.{◌≡◌, ◌<◌, ◌≤◌, ◌+◌, ◌++◌, [], false, length, true, Some, IfOk, IfSome, IsOk, IsOkUnless};
ghost use Rattle.std.specs.Prelude.{OnErr, OnOk};
ghost use Rattle.aarp.specs.Choosing.{wants};
ghost use Rattle.aarp.specs.declared.packet.Packet.{Packet as PacketValue};
ghost use Rattle.cabled.specs.Putting.{all_dressed};
ghost use Rattle.live_router.specs.Living.{heard_live_as};
ghost use Rattle.cabled.specs.Steps as spec;
ghost use Rattle.cabled.specs.Steps.{items_of, living_after, put_for, said_by};
ghost use Rattle.router.specs.Ending.{ended_datagram};
ghost use Rattle.station.specs.Hearing.{hearing};
ghost use Rattle.station.specs.Resolution.{packet_at};
ghost use Rattle.station.specs.Values.{datagram_at};
ghost use Rattle.station.specs.declared.heard.Kind.TheVariants.{Aarp, Ddp};

use crate::asked::{answers, asks as asks_routes};
use crate::dressing::dress_all;
use crate::peers::Peers;
use crate::puts::Puts;
use crate::told::{answer_at, question_at};
use aarp::{Function, Packet};
use at_base::{Error, Range};
use ddp::{View, kind, socket};
use live_router::LiveRouter;
use port::Port;
use router::Router;
use rtmp::{DataPacket, Nonextended, RouteTable};
use station::frames::{read_datagram, read_packet};
use station::ways::{checks, is_to};
use station::{Heard, Kind, Output, Outputs};
use std::alloc::Global;

/// The greatest number of packets that are put in one step: one for each of 257 outputs, and one for
/// each of 16 datagrams that wait at each of 16 ports. Three answers to a request for routing data
/// take the place of some of these.
pub(crate) const MAX_PUT: usize = 513;

/// How nonextended tuples of routing data are heard.
fn hears_nonextended(peers: Peers) -> Nonextended
    ensures { result ≡ spec.hears_nonextended peers }
{
    match peers {
        Peers::Played => Nonextended::Skipped,
        Peers::Real => Nonextended::AsRanges,
    }
}

/// The range that a datagram says its cable has, if it is routing data.
fn range_in(view: &View<'_>) -> Option<Range>
    ensures { result ≡ spec.range_said view.now }
{
    if !is_to(view, kind::RTMP_DATA, socket::RTMP) {
        return None;
    }
    match DataPacket::at(view.payload()) {
        Some(packet) => Some(packet.own()),
        None => None,
    }
}

/// The port on whose cable the datagram in a frame ends, if it does, and the range that it says the
/// cable has, if it says one.
fn range_heard<T: RouteTable>(
    router: &Router<T>,
    heard: &Heard<'_>,
    view: &View<'_>,
) -> Option<(u8, Range)>
    requires { heard.now.port < length router.now.ports }
    ensures value { result
        ≡ said_by (ended_datagram router.now (hearing heard.now) (Some view.now)) }
    ensures inside { IfSome result (λ s. s.0 < length router.now.ports) }
{
    // Most datagrams are no routing data: for them no course is looked for.
    match range_in(view) {
        Some(range) => {
            let course = router.course(heard.port, heard.link, view.hops(), view.target());
            match course.ending {
                Some(ending) if checks(view) => Some((ending.port, range)),
                _ => None,
            }
        }
        None => None,
    }
}

/// A queue of these outputs. Error: `Memory`.
fn queue_of(alloc: Global, made: Vec<Output>) -> Result<Outputs, Error>
    ensures ok { IfOk result (λ outputs. outputs.items ≡ made.items) }
    ensures refused { IsOkUnless result Error.Memory }
{
    let mut outputs = Outputs::new(alloc)?;
    outputs.room(made.len())?;
    outputs.append(made);
    Ok(outputs)
}

/// The answers to a request for routing data, if it is one; a router of a play gives none. Error:
/// `Memory`.
fn answers_to<T: RouteTable>(
    peers: Peers,
    router: &Router<T>,
    heard: &Heard<'_>,
    view: &View<'_>,
) -> Result<Option<Outputs>, Error>
    requires port { heard.now.port < length router.now.ports }
    requires kind { heard.now.kind ≡ Ddp }
    requires view { datagram_at heard.now.bytes.now ≡ Some view.now }
    ensures ok { IfOk result (λ queue.
        items_of queue ≡ spec.answers_to peers router.now (hearing heard.now)) }
    ensures few { IfOk result (λ queue. length (items_of queue) ≤ 3) }
    ensures refused { IsOkUnless result Error.Memory }
{
    // Most datagrams are no request: for them no course is looked for.
    match peers {
        Peers::Real if asks_routes(view) => {
            let made = answers(router, heard, view)?;
            let queue = queue_of(router.allocator(), made)?;
            Ok(Some(queue))
        }
        _ => Ok(None),
    }
}

/// The router hears which range the cable of a port has, if routing data said one.
fn hear_range<T: RouteTable>(router: &mut LiveRouter<T>, said: Option<(u8, Range)>)
    requires { IfSome said (λ s. s.0 < length router.old.router.ports) }
    ensures after { router.new
        ≡ record router.old { router = spec.with_range router.old.router said } }
    ensures stay { length router.new.router.ports ≡ length router.old.router.ports }
{
    if let Some((port, range)) = said {
        router.hear_range(port, range);
    }
}

/// Fills a queue that is empty with the outputs of the live router for a datagram that a port hears.
/// Error: `Memory`; the router doesn't change then, and the queue stays empty.
fn fill<T: RouteTable>(
    router: &mut LiveRouter<T>,
    heard: &Heard<'_>,
    view: &View<'_>,
    nonextended: Nonextended,
    outputs: &mut Outputs,
) -> Result<(), Error>
    requires port { heard.now.port < length router.old.router.ports }
    requires kind { heard.now.kind ≡ Ddp }
    requires view { datagram_at heard.now.bytes.now ≡ Some view.now }
    requires empty { outputs.old.items ≡ [] }
    ensures outputs { OnOk result (outputs.new.items
        ≡ (heard_live_as nonextended router.old (hearing heard.now)).0) }
    ensures after { OnOk result
        (router.new ≡ (heard_live_as nonextended router.old (hearing heard.now)).1) }
    ensures few { OnOk result (length outputs.new.items ≤ 257) }
    ensures ports_stay { length router.new.router.ports ≡ length router.old.router.ports }
    ensures refused { IsOkUnless result Error.Memory }
    ensures router_stays { OnErr result (router.new ≡ router.old) }
    ensures none { OnErr result (outputs.new.items ≡ []) }
{
    router.hear_datagram(heard, view, nonextended, outputs)?;
    Ok(())
}

/// The outputs of the live router for a frame that a port hears. Error: `Memory`; the router doesn't
/// change then.
fn outputs_of<T: RouteTable>(
    router: &mut LiveRouter<T>,
    heard: &Heard<'_>,
    nonextended: Nonextended,
) -> Result<Outputs, Error>
    requires { heard.now.port < length router.old.router.ports }
    ensures outputs { IfOk result (λ outputs.
        outputs.items ≡ (heard_live_as nonextended router.old (hearing heard.now)).0) }
    ensures after { OnOk result
        (router.new ≡ (heard_live_as nonextended router.old (hearing heard.now)).1) }
    ensures few { IfOk result (λ outputs. length outputs.items ≤ 257) }
    ensures ports_stay { length router.new.router.ports ≡ length router.old.router.ports }
    ensures unasked { heard.now.kind ≡ Aarp → (p : PacketValue)
        → packet_at heard.now.bytes.now ≡ Some p → wants p.function ≡ false → IsOk result }
    ensures refused { IsOkUnless result Error.Memory }
    ensures router_stays { OnErr result (router.new ≡ router.old) }
{
    let mut outputs = Outputs::new(router.router().allocator())?;
    router.hear(heard, nonextended, &mut outputs)?;
    Ok(outputs)
}

/// Puts what the outputs of the router ask for, and then its answers, if it has any. The caller
/// ensures that there is room for one packet for each.
fn dress_both(puts: &mut Puts, ports: &mut [Port], outputs: &mut Outputs, answers: Option<Outputs>)
    requires { length outputs.old.items + length (items_of answers) ≤ puts.old.spare }
    ensures put { puts.new.items
        ≡ puts.old.items ++ (all_dressed (outputs.old.items ++ items_of answers) ports.old).0 }
    ensures after { ports.new ≡ (all_dressed (outputs.old.items ++ items_of answers) ports.old).1 }
    ensures none { outputs.new.items ≡ [] }
{
    dress_all(puts, ports, outputs);
    if let Some(mut answers) = answers {
        dress_all(puts, ports, &mut answers);
    }
}

/// Handles a datagram that a port hears; the router's outputs go by a queue that is empty before and
/// after it. Error: `Memory`; nothing changes then.
fn hear_datagram<T: RouteTable>(
    router: &mut LiveRouter<T>,
    ports: &mut [Port],
    peers: Peers,
    heard: &Heard<'_>,
    view: &View<'_>,
    puts: &mut Puts,
    outputs: &mut Outputs,
) -> Result<(), Error>
    requires port { heard.now.port < length router.old.router.ports }
    requires kind { heard.now.kind ≡ Ddp }
    requires view { datagram_at heard.now.bytes.now ≡ Some view.now }
    requires empty { outputs.old.items ≡ [] }
    ensures put { OnOk result (puts.new.items ≡ puts.old.items
        ++ (put_for peers router.old ports.old (hearing heard.now)).0) }
    ensures ports { OnOk result (ports.new
        ≡ (put_for peers router.old ports.old (hearing heard.now)).1) }
    ensures router { OnOk result (router.new
        ≡ living_after peers router.old (hearing heard.now)) }
    ensures stay { length router.new.router.ports ≡ length router.old.router.ports }
    ensures refused { IsOkUnless result Error.Memory }
    ensures puts_stay { OnErr result (puts.new.items ≡ puts.old.items) }
    ensures ports_stay { OnErr result (ports.new ≡ ports.old) }
    ensures router_stays { OnErr result (router.new ≡ router.old) }
    ensures none { outputs.new.items ≡ [] }
{
    let said = range_heard(router.router(), heard, view);
    let answers = answers_to(peers, router.router(), heard, view)?;
    // Room is made first: once the router has heard the frame, nothing is refused.
    puts.room(MAX_PUT)?;
    fill(router, heard, view, hears_nonextended(peers), outputs)?;
    hear_range(router, said);
    dress_both(puts, ports, outputs, answers);
    Ok(())
}

/// Whether the packet asks for a response.
fn asks(packet: &Packet) -> bool
    ensures { result ≡ wants packet.now.function }
{
    match packet.function {
        Function::Request | Function::Probe => true,
        Function::Response => false,
    }
}

/// Handles an AARP packet that asks for a response. Error: `Memory`; nothing changes then.
fn hear_question<T: RouteTable>(
    router: &mut LiveRouter<T>,
    ports: &mut [Port],
    peers: Peers,
    heard: &Heard<'_>,
    packet: &Packet,
    puts: &mut Puts,
) -> Result<(), Error>
    requires port { heard.now.port < length router.old.router.ports }
    requires kind { heard.now.kind ≡ Aarp }
    requires packet { packet_at heard.now.bytes.now ≡ Some packet.now }
    requires asks { wants packet.now.function ≡ true }
    ensures put { OnOk result (puts.new.items ≡ puts.old.items
        ++ (put_for peers router.old ports.old (hearing heard.now)).0) }
    ensures ports { OnOk result (ports.new
        ≡ (put_for peers router.old ports.old (hearing heard.now)).1) }
    ensures router { OnOk result (router.new
        ≡ living_after peers router.old (hearing heard.now)) }
    ensures stay { length router.new.router.ports ≡ length router.old.router.ports }
    ensures refused { IsOkUnless result Error.Memory }
    ensures puts_stay { OnErr result (puts.new.items ≡ puts.old.items) }
    ensures ports_stay { OnErr result (ports.new ≡ ports.old) }
    ensures router_stays { OnErr result (router.new ≡ router.old) }
{
    puts.room(MAX_PUT)?;
    let mut outputs = outputs_of(router, heard, hears_nonextended(peers))?;
    dress_all(puts, ports, &mut outputs);
    question_at(ports, heard.port, peers, packet);
    Ok(())
}

/// Handles an AARP packet that asks for no response, which is one. Error: `Memory`; nothing changes
/// then.
fn hear_answer<T: RouteTable>(
    router: &mut LiveRouter<T>,
    ports: &mut [Port],
    peers: Peers,
    heard: &Heard<'_>,
    packet: &Packet,
    puts: &mut Puts,
) -> Result<(), Error>
    requires port { heard.now.port < length router.old.router.ports }
    requires kind { heard.now.kind ≡ Aarp }
    requires packet { packet_at heard.now.bytes.now ≡ Some packet.now }
    requires answers { wants packet.now.function ≡ false }
    ensures put { OnOk result (puts.new.items ≡ puts.old.items
        ++ (put_for peers router.old ports.old (hearing heard.now)).0) }
    ensures ports { OnOk result (ports.new
        ≡ (put_for peers router.old ports.old (hearing heard.now)).1) }
    ensures router { OnOk result (router.new
        ≡ living_after peers router.old (hearing heard.now)) }
    ensures stay { length router.new.router.ports ≡ length router.old.router.ports }
    ensures refused { IsOkUnless result Error.Memory }
    ensures puts_stay { OnErr result (puts.new.items ≡ puts.old.items) }
    ensures ports_stay { OnErr result (ports.new ≡ ports.old) }
    ensures router_stays { OnErr result (router.new ≡ router.old) }
{
    puts.room(MAX_PUT)?;
    answer_at(ports, heard.port, packet, puts)?;
    // A response needs no memory at the router, so nothing is refused any more.
    match outputs_of(router, heard, hears_nonextended(peers)) {
        Ok(_) => Ok(()),
        Err(error) => Err(error),
    }
}

/// Handles a frame that a port hears; a datagram's outputs go by a queue that is empty before and
/// after it. Error: `Memory`; nothing changes then.
pub(crate) fn hear_frame<T: RouteTable>(
    router: &mut LiveRouter<T>,
    ports: &mut [Port],
    peers: Peers,
    heard: &Heard<'_>,
    puts: &mut Puts,
    outputs: &mut Outputs,
) -> Result<(), Error>
    requires port { heard.now.port < length router.old.router.ports }
    requires empty { outputs.old.items ≡ [] }
    ensures put { OnOk result (puts.new.items ≡ puts.old.items
        ++ (put_for peers router.old ports.old (hearing heard.now)).0) }
    ensures ports { OnOk result (ports.new
        ≡ (put_for peers router.old ports.old (hearing heard.now)).1) }
    ensures router { OnOk result (router.new
        ≡ living_after peers router.old (hearing heard.now)) }
    ensures stay { length router.new.router.ports ≡ length router.old.router.ports }
    ensures refused { IsOkUnless result Error.Memory }
    ensures puts_stay { OnErr result (puts.new.items ≡ puts.old.items) }
    ensures ports_stay { OnErr result (ports.new ≡ ports.old) }
    ensures router_stays { OnErr result (router.new ≡ router.old) }
    ensures none { outputs.new.items ≡ [] }
{
    match heard.kind {
        Kind::Ddp => match read_datagram(heard.bytes) {
            Some(view) => hear_datagram(router, ports, peers, heard, &view, puts, outputs),
            None => Ok(()),
        },
        Kind::Aarp => match read_packet(heard.bytes) {
            Some(packet) if asks(&packet) => {
                hear_question(router, ports, peers, heard, &packet, puts)
            }
            Some(packet) => hear_answer(router, ports, peers, heard, &packet, puts),
            None => Ok(()),
        },
    }
}
