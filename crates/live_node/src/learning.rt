//! A live node's learning from datagrams.

ghost use Rattle.std.specs.Prelude.{◌≡◌};
ghost use Rattle.live_node.specs.Living as spec;
ghost use Rattle.live_node.specs.Living.{informed, routed, taught, told};
ghost use Rattle.rtmp.specs.Data.{routing_in};
ghost use Rattle.zip_zones.specs.Formats.{zones_in};

use crate::live::LiveNode;
use ddp::{View, kind, socket};
use rtmp::DataPacket;
use station::ways::is_to;
use zip_zones::{NetInfo, Packet};

impl LiveNode {
    /// Handles data for the routing socket: the router that sent a packet of routing data becomes
    /// the node's router.
    fn hear_routing(&mut self, payload: &[u8])
        ensures { self.new ≡ routed self.old (routing_in payload.now) }
    {
        if let Some(packet) = DataPacket::at(payload) {
            self.node.set_router(Some(packet.router()));
            self.silence = 0;
        }
    }

    /// Whether the node waits for a GetNetInfo reply.
    fn is_waiting(&self) -> bool
        ensures { result ≡ spec.is_waiting self.now }
    {
        self.asked > 0 && !self.answered
    }

    /// Handles a GetNetInfo reply. It is ignored unless the node waits for one.
    fn hear_info(&mut self, info: &NetInfo)
        ensures { self.new ≡ informed self.old info.now }
    {
        if !self.is_waiting() {
            return;
        }
        if let Some(zone) = info.default {
            self.node.set_zone(zone);
        }
        self.answered = true;
    }

    /// Handles data for the zone socket: only a GetNetInfo reply counts.
    fn hear_zones(&mut self, payload: &[u8])
        ensures { self.new ≡ told self.old (zones_in payload.now) }
    {
        if let Some(Packet::NetInfoReply(info)) = Packet::at(payload) {
            self.hear_info(&info);
        }
    }

    /// Learns from a datagram that the node accepted, if there is one. Allocates nothing.
    pub(crate) fn learn(&mut self, view: &Option<View<'_>>)
        ensures { self.new ≡ taught self.old view.now }
    {
        let Some(view) = view else { return };
        if is_to(view, kind::RTMP_DATA, socket::RTMP) {
            self.hear_routing(view.payload());
        } else if is_to(view, kind::ZIP, socket::ZIP) {
            self.hear_zones(view.payload());
        }
    }
}
