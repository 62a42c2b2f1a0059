//! Live routers and their state.

ghost use Rattle.std.specs.Prelude.{◌≡◌, ◌<◌, ◌⊎◌, ◌↔◌, [], length, map, IfErr, IfOk, IsOkUnless};
ghost use Rattle.std.specs.Prelude.{IsOk, IsTrue, OnErr, OnOk, Some, false};
ghost use Rattle.std.specs.List.{list_all};
ghost use Rattle.aarp.specs.Choosing.{minded, wants};
ghost use Rattle.aarp.specs.declared.packet.Packet.{Packet as PacketValue};
ghost use Rattle.live_router.specs.Living.{heard_live_as};
ghost use Rattle.router.specs.Resolution.{ports_told};
ghost use Rattle.rtmp.specs.Routes.{poisoned};
ghost use Rattle.station.specs.Hearing.{hearing};
ghost use Rattle.station.specs.Lawful.{PutsOut};
ghost use Rattle.station.specs.Resolution.{packet_at};
ghost use Rattle.station.specs.declared.heard.Kind.TheVariants.{Aarp, Ddp};
ghost use Rattle.station.specs.Ports.{is_planned, planned};
ghost use Rattle.station.specs.Values.{datagram_at};
ghost use Rattle.at_base.specs.Limits.{max_ports};

use crate::passing::{pass, phase_after};
use crate::received::{hear, hear_datagram};
use aarp::Care;
use at_base::limits::MAX_PORTS;
use at_base::{Addr, Error, Range};
use ddp::View;
use router::Router;
use rtmp::{Nonextended, RouteTable};
use station::{Heard, Outputs, PortPlan, Station};
use std::alloc::Global;
use std::marker::Model;
use zip_zones::ZoneTable;

/// A live router: a router that chooses the addresses of its ports, learns its tables from its
/// neighbours, and removes rows that aren't confirmed any more.
///
/// Inside AppleTalk, the chapters on AARP, RTMP and ZIP.
#[derive(Drop)]
pub struct LiveRouter<T: RouteTable> {
    router: Router<T>,
    // The ticks since the rows last aged, or since the start.
    phase: u8,
    // Whether each port is known to be settled. A frame may end that, and a tick looks again.
    settled: bool,
}

impl<T: RouteTable> Model for LiveRouter<T> {
    ghost use Rattle.std.specs.Prelude.{◌≡◌, ◌<◌, true};
    ghost use Rattle.std.specs.List.{list_all};
    ghost use Rattle.live_router.specs.Living.{Living};

    ghost Value = { Living };

    ghost view = { λ l. record { router = l.router; phase = l.phase } };

    ghost invariant = { λ l. (l.phase < 100)
        × (l.settled ≡ true → list_all (λ p. p.is_settled) l.router.ports ≡ true) };
}

impl<T: RouteTable> LiveRouter<T> {
    /// A router before its first tick: it has no routes, and this zone table, which should have the
    /// zones of its cables; ports whose plans give no address are to choose one. The caller ensures
    /// that a station of each port's range may have the port's addresses (`aarp::are_on`).
    ///
    /// Errors: `Full` above 16 ports, `Memory`.
    pub fn new(
        alloc: Global,
        plans: &[PortPlan<'_>],
        zones: ZoneTable,
    ) -> Result<LiveRouter<T>, Error>
        requires planned { IsTrue (list_all is_planned plans.now) }
        ensures ok { IfOk result (λ live. live ≡ record {
          router = record {
            ports = map planned plans.now;
            routes = [];
            zones = zones;
            requests = [];
          };
          phase = 0;
        }) }
        ensures full { (result ≡ Err Error.Full) ↔ (max_ports < length plans.now) }
        ensures refused { IfErr result (λ e. (e ≡ Error.Full) ⊎ (e ≡ Error.Memory)) }
    {
        if plans.len() > MAX_PORTS {
            return Err(Error::Full);
        }
        let routes = T::empty(alloc)?;
        let router = Router::new(alloc, plans, routes, zones)?;
        Ok(LiveRouter {
            router,
            phase: 0,
            settled: false,
        })
    }

    /// The router in its current state. Allocates nothing.
    pub fn router(&self) -> &Router<T>
        ensures { result.now ≡ self.now.router }
    {
        &self.router
    }

    /// AARP gave up on an address: the rows that go through the router with this address become
    /// bad. Allocates nothing.
    ///
    /// Inside AppleTalk, the chapter on RTMP.
    pub fn give_up(&mut self, next: Addr)
        ensures { self.new ≡ record self.old {
          router = record self.old.router { routes = poisoned next self.old.router.routes };
        } }
    {
        self.router.poison(next);
    }

    /// From now on the choices of the ports' addresses mind the other stations with this care, as
    /// those that begin do. Allocates nothing.
    ///
    /// This project's own.
    pub fn mind(&mut self, care: Care)
        ensures { self.new ≡ record self.old {
          router = record self.old.router {
            ports = map (minded care) self.old.router.ports;
          };
        } }
    {
        self.settled = false;
        self.router.mind(care);
    }

    /// Handles the range that routing data tells of a port's cable: a port that listens before its
    /// first probe begins to probe, or never does. Allocates nothing.
    ///
    /// This project's own.
    pub fn hear_range(&mut self, port: u8, range: Range)
        requires { port < length self.old.router.ports }
        ensures { self.new ≡ record self.old {
          router = record self.old.router {
            ports = ports_told self.old.router.ports port range;
          };
        } }
    {
        self.settled = false;
        self.router.hear_range(port, range);
    }

    /// Receives a frame on one of its ports as `receive` does, and hears nonextended tuples of
    /// routing data as said; `receive` skips them. Error: `Memory`; neither the router nor the
    /// outputs change then.
    ///
    /// Inside AppleTalk, the chapter on RTMP.
    pub fn hear(
        &mut self,
        heard: &Heard<'_>,
        nonextended: Nonextended,
        outputs: &mut Outputs,
    ) -> Result<(), Error>
        requires { heard.now.port < length self.old.router.ports }
        ensures ok { OnOk result
            (PutsOut (length self.old.router.ports) outputs.old.items outputs.new.items (λ added.
            (added, self.new) ≡ heard_live_as nonextended self.old (hearing heard.now))) }
        ensures ports_stay { length self.new.router.ports ≡ length self.old.router.ports }
        // An AARP packet that asks for no response needs no memory.
        ensures unasked { heard.now.kind ≡ Aarp → (p : PacketValue)
            → packet_at heard.now.bytes.now ≡ Some p → wants p.function ≡ false → IsOk result }
        ensures refused { IsOkUnless result Error.Memory }
        ensures router_stays { OnErr result (self.new ≡ self.old) }
        ensures outputs_stay { OnErr result (outputs.new.items ≡ outputs.old.items) }
    {
        self.settled = false;
        hear(&mut self.router, heard, nonextended, outputs)
    }

    /// Receives a frame as `hear` does, for callers that have read the datagram in it. Error:
    /// `Memory`; neither the router nor the outputs change then.
    ///
    /// Inside AppleTalk, the chapters on DDP and RTMP.
    pub fn hear_datagram(
        &mut self,
        heard: &Heard<'_>,
        view: &View<'_>,
        nonextended: Nonextended,
        outputs: &mut Outputs,
    ) -> Result<(), Error>
        requires port { heard.now.port < length self.old.router.ports }
        requires kind { heard.now.kind ≡ Ddp }
        requires view { datagram_at heard.now.bytes.now ≡ Some view.now }
        ensures ok { OnOk result
            (PutsOut (length self.old.router.ports) outputs.old.items outputs.new.items (λ added.
            (added, self.new) ≡ heard_live_as nonextended self.old (hearing heard.now))) }
        ensures ports_stay { length self.new.router.ports ≡ length self.old.router.ports }
        ensures refused { IsOkUnless result Error.Memory }
        ensures router_stays { OnErr result (self.new ≡ self.old) }
        ensures outputs_stay { OnErr result (outputs.new.items ≡ outputs.old.items) }
    {
        self.settled = false;
        hear_datagram(&mut self.router, heard, view, nonextended, outputs)
    }
}

impl<T: RouteTable> Station for LiveRouter<T> {
    ghost use Rattle.std.specs.Prelude.{length};
    ghost use Rattle.live_router.specs.Living.{LiveHears};
    ghost use Rattle.live_router.specs.Ticking.{LiveTicks};

    ghost ports_of = { λ l. length l.router.ports };

    ghost hears = { LiveHears };

    ghost ticks = { LiveTicks };

    fn ports(&self) -> u8 {
        self.router.ports()
    }

    fn receive(&mut self, heard: &Heard<'_>, outputs: &mut Outputs) -> Result<(), Error> {
        self.settled = false;
        hear(&mut self.router, heard, Nonextended::Skipped, outputs)
    }

    fn tick(&mut self, outputs: &mut Outputs) -> Result<(), Error> {
        let phase = phase_after(self.phase);
        let settled = self.settled;
        // A tick that fails leaves nothing known.
        self.settled = false;
        self.settled = pass(&mut self.router, phase, settled, outputs)?;
        self.phase = phase;
        Ok(())
    }
}
