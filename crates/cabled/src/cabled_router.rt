//! Routers with their ports.

ghost use Rattle.std.specs.Prelude.{◌≡◌, ◌<◌, ◌⊎◌, ◌↔◌, ◌++◌, [], length, map, IfErr, IfOk, IsOkUnless, IsTrue};
ghost use Rattle.std.specs.Prelude.{IfSome, OnErr, OnOk, option_map};
ghost use Rattle.std.specs.List.{list_all};
ghost use Rattle.at_base.specs.Limits.{max_ports};
ghost use Rattle.cabled.specs.Steps as spec;
ghost use Rattle.ethertalk.specs.Frames.{framed};
ghost use Rattle.station.specs.Hearing.{hearing};
ghost use Rattle.station.specs.Ports.{is_planned};

use crate::acting::Cabled;
use crate::hearing::hear_frame;
use crate::peers::Peers;
use crate::puts::Puts;
use crate::ticking::tick_all;
use aarp::Care;
use at_base::Error;
use ethertalk::{Frame, link_for};
use live_router::LiveRouter;
use port::Port;
use rtmp::RouteTable;
use station::{Heard, Link, Outputs, PortPlan};
use std::alloc::Global;
use std::marker::Model;
use zip_zones::ZoneTable;

/// A live router with its ports on cables that it doesn't own.
///
/// Inside AppleTalk, the chapters on AARP, RTMP and EtherTalk.
#[derive(Drop)]
pub struct CabledRouter<T: RouteTable> {
    router: LiveRouter<T>,
    ports: Vec<Port>,
    peers: Peers,
    /// A queue that is empty between calls, and keeps its room for the next one.
    outputs: Outputs,
}

impl<T: RouteTable> Model for CabledRouter<T> {
    ghost use Rattle.std.specs.Prelude.{◌≡◌, [], length};
    ghost use Rattle.cabled.specs.Steps.{Running};

    ghost Value = { Running };

    ghost view = { λ r. record { living = r.router; ports = r.ports.items; peers = r.peers } };

    ghost invariant = { λ r. (length r.ports.items ≡ length r.router.router.ports)
        × (r.outputs.items ≡ []) };
}

/// Whether the frame is the port's own, which a router on a real cable doesn't hear.
fn is_echo(peers: Peers, port: &Port, frame: &Frame<'_>) -> bool
    ensures { result ≡ spec.is_echo peers port.now (framed frame.now) }
{
    match peers {
        Peers::Played => false,
        Peers::Real => port.hw().same(&frame.from),
    }
}

/// How a port hears a frame, if the frame is for it.
fn link_at(peers: Peers, port: &Port, frame: &Frame<'_>) -> Option<Link>
    ensures { result ≡ spec.link_at peers port.now (framed frame.now) }
{
    if is_echo(peers, port, frame) {
        return None;
    }
    link_for(&port.hw(), None, &frame.to)
}

/// A frame as the port with a number hears it, if there is such a port and the frame is for it.
pub fn heard_at<'a>(ports: &[Port], peers: Peers, port: u8, frame: &Frame<'a>) -> Option<Heard<'a>>
    ensures value { option_map hearing result
        ≡ spec.hearing_at peers ports.now port (framed frame.now) }
    ensures inside { IfSome result (λ heard. heard.port < length ports.now) }
{
    let it = ports.get(port as usize)?;
    let link = link_at(peers, it, frame)?;
    Some(Heard {
        port,
        link,
        kind: frame.kind,
        bytes: frame.packet,
    })
}

/// The router and its ports hear a frame on the cable of the port with a number. Error: `Memory`;
/// nothing changes then.
fn hear_on<T: RouteTable>(
    router: &mut LiveRouter<T>,
    ports: &mut [Port],
    peers: Peers,
    port: u8,
    frame: &Frame<'_>,
    puts: &mut Puts,
    outputs: &mut Outputs,
) -> Result<(), Error>
    requires ports { length ports.old ≡ length router.old.router.ports }
    requires empty { outputs.old.items ≡ [] }
    ensures put { OnOk result (puts.new.items ≡ puts.old.items ++ (spec.put_by peers router.old ports.old
        (spec.hearing_at peers ports.old port (framed frame.now))).0) }
    ensures ports { OnOk result (ports.new ≡ (spec.put_by peers router.old ports.old
        (spec.hearing_at peers ports.old port (framed frame.now))).1) }
    ensures router { OnOk result (router.new ≡ spec.living_by peers router.old
        (spec.hearing_at peers ports.old port (framed frame.now))) }
    ensures ports_len { length ports.new ≡ length ports.old }
    ensures stay { length router.new.router.ports ≡ length router.old.router.ports }
    ensures refused { IsOkUnless result Error.Memory }
    ensures puts_stay { OnErr result (puts.new.items ≡ puts.old.items) }
    ensures ports_stay { OnErr result (ports.new ≡ ports.old) }
    ensures router_stays { OnErr result (router.new ≡ router.old) }
    ensures none { outputs.new.items ≡ [] }
{
    match heard_at(ports, peers, port, frame) {
        Some(heard) => hear_frame(router, ports, peers, &heard, puts, outputs),
        None => Ok(()),
    }
}

/// Appends the ports of the plans, before they heard anything. Error: `Memory`.
fn put_ports(ports: &mut Vec<Port>, plans: &[PortPlan<'_>]) -> Result<(), Error>
    ensures put { OnOk result
        (ports.new.items ≡ ports.old.items ++ map spec.first_port plans.now) }
    ensures refused { IsOkUnless result Error.Memory }
{
    match plans {
        [] => Ok(()),
        [plan, rest @ ..] => {
            let port = Port::new(*ports.allocator(), plan.hw)?;
            ports.push(port)?;
            put_ports(ports, rest)
        }
    }
}

/// The choices of the router's addresses mind the other stations of real cables; those of a play's
/// router don't.
fn mind<T: RouteTable>(router: &mut LiveRouter<T>, peers: Peers)
    ensures { router.new ≡ record router.old {
      router = record router.old.router {
        ports = spec.all_minded peers router.old.router.ports;
      };
    } }
{
    match peers {
        Peers::Played => {}
        Peers::Real => router.mind(Care {
            listens: true,
            one_goes_on: true,
        }),
    }
}

impl<T: RouteTable> CabledRouter<T> {
    /// A router before its first tick, with the planned ports and this zone table, which should have
    /// the zones of its cables. The caller ensures that a station of each port's range may have the
    /// port's addresses (`aarp::are_on`). On real cables a port listens before its first probe, and
    /// of two stations that probe for one address at once only the one with the greater hardware
    /// address goes on to its next.
    ///
    /// Errors: `Full` above 16 ports, `Memory`.
    pub fn new(
        alloc: Global,
        plans: &[PortPlan<'_>],
        zones: ZoneTable,
        peers: Peers,
    ) -> Result<CabledRouter<T>, Error>
        requires planned { IsTrue (list_all is_planned plans.now) }
        ensures ok { IfOk result (λ r. r ≡ spec.begun peers plans.now zones) }
        ensures full { (result ≡ Err Error.Full) ↔ (max_ports < length plans.now) }
        ensures refused { IfErr result (λ e. (e ≡ Error.Full) ⊎ (e ≡ Error.Memory)) }
    {
        let mut router = LiveRouter::new(alloc, plans, zones)?;
        let mut ports = Vec::with_capacity(alloc, plans.len())?;
        put_ports(&mut ports, plans)?;
        mind(&mut router, peers);
        let outputs = Outputs::new(alloc)?;
        Ok(CabledRouter {
            router,
            ports,
            peers,
            outputs,
        })
    }

    /// The live router. Allocates nothing.
    pub fn router(&self) -> &LiveRouter<T>
        ensures { result.now ≡ self.now.living }
    {
        &self.router
    }

    /// The ports, in the order of the plans. Allocates nothing.
    pub fn ports(&self) -> &[Port]
        ensures { result.now ≡ self.now.ports }
    {
        self.ports.as_slice()
    }

    /// Hears a frame on the cable of the port with a number, and adds what it puts for that. A frame
    /// that isn't for the port changes nothing. Error: `Memory`; nothing changes then.
    ///
    /// Inside AppleTalk, the chapters on AARP, DDP and RTMP.
    pub fn hear(&mut self, port: u8, frame: &Frame<'_>, puts: &mut Puts) -> Result<(), Error>
        ensures put { OnOk result (puts.new.items
            ≡ puts.old.items ++ (spec.heard self.old port (framed frame.now)).0) }
        ensures after { OnOk result (self.new ≡ (spec.heard self.old port (framed frame.now)).1) }
        ensures refused { IsOkUnless result Error.Memory }
        ensures puts_stay { OnErr result (puts.new.items ≡ puts.old.items) }
        ensures router_stays { OnErr result (self.new ≡ self.old) }
    {
        let ports = self.ports.as_mut_slice();
        let outputs = &mut self.outputs;
        hear_on(
            &mut self.router,
            ports,
            self.peers,
            port,
            frame,
            puts,
            outputs,
        )?;
        Ok(())
    }

    /// Advances the router by one tick, a fifth of a second, and adds what it puts in it. Error:
    /// `Memory`; nothing changes then.
    pub fn tick(&mut self, puts: &mut Puts) -> Result<(), Error>
        ensures put { OnOk result (puts.new.items ≡ puts.old.items ++ (spec.ticked self.old).0) }
        ensures after { OnOk result (self.new ≡ (spec.ticked self.old).1) }
        ensures refused { IsOkUnless result Error.Memory }
        ensures puts_stay { OnErr result (puts.new.items ≡ puts.old.items) }
        ensures router_stays { OnErr result (self.new ≡ self.old) }
    {
        // Only the prover needs this read: it shows that there are at most 16 ports.
        let _ports = self.router.router().ports_now();
        tick_all(&mut self.router, self.ports.as_mut_slice(), puts)
    }
}

impl<T: RouteTable> Cabled for CabledRouter<T> {
    ghost use Rattle.cabled.specs.Steps.{router_acts};

    ghost acts = { router_acts };

    fn own_ports(&self) -> &[Port] {
        self.ports()
    }

    /// A router goes on for ever.
    fn is_done(&self) -> bool {
        false
    }

    fn receive(&mut self, port: u8, frame: &Frame<'_>, puts: &mut Puts) -> Result<(), Error> {
        self.hear(port, frame, puts)
    }

    fn advance(&mut self, puts: &mut Puts) -> Result<(), Error> {
        self.tick(puts)
    }
}
