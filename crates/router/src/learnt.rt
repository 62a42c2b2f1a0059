//! What a live router learns from the packets that end at it.

ghost use Rattle.std.specs.Prelude.{◌≡◌, ◌<◌, length, IsOkUnless, OnErr, OnOk};
ghost use Rattle.learning.specs.Heard.{routes_after};
ghost use Rattle.zip_zones.specs.Answers.{after_reply};

use crate::router::Router;
use at_base::{Error, Range};
use learning::{learn_routes, learn_zones};
use rtmp::{DataPacket, Nonextended, RouteTable};
use zip_zones::Packet;

impl<T: RouteTable> Router<T> {
    /// Learns from a packet of routing data that was received on a port, whose cable has this range;
    /// nonextended tuples are heard as said. Error: `Memory`; nothing changes then.
    ///
    /// Inside AppleTalk, the chapter on RTMP.
    pub fn learn_routes(
        &mut self,
        range: Range,
        port: u8,
        packet: &DataPacket<'_>,
        nonextended: Nonextended,
    ) -> Result<(), Error>
        requires { port < length self.old.ports }
        ensures ok { OnOk result (self.new ≡ record self.old {
          routes = routes_after nonextended range port packet.now self.old.routes;
        }) }
        ensures stays { OnErr result (self.new ≡ self.old) }
        ensures refused { IsOkUnless result Error.Memory }
    {
        learn_routes(&mut self.routes, range, port, packet, nonextended)
    }

    /// Learns from a ZIP packet, if it is a reply. Error: `Memory`; nothing changes then.
    ///
    /// Inside AppleTalk, the chapter on ZIP.
    pub fn learn_zones(&mut self, packet: Packet<'_>) -> Result<(), Error>
        ensures ok { OnOk result (self.new ≡ record self.old {
          zones = after_reply self.old.routes packet.entry self.old.zones;
        }) }
        ensures stays { OnErr result (self.new ≡ self.old) }
        ensures refused { IsOkUnless result Error.Memory }
    {
        learn_zones(&mut self.zones, &self.routes, packet)
    }
}
