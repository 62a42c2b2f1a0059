//! The ZIP packets that a router answers: queries and GetNetInfo requests.

ghost use Rattle.std.specs.Prelude.{Some, length, map, ◌<◌, ◌≡◌};
ghost use Rattle.at_base.specs.Spelling.{bytes_of};
ghost use Rattle.zip_zones.specs.Answers.{replies};
ghost use Rattle.zip_zones.specs.Formats as formats_spec;
ghost use Rattle.station.specs.Made.{IsWayIn, Makes};
ghost use Rattle.router.specs.Ways as ways_spec;
ghost use Rattle.station.specs.Ways.{replying};
ghost use Rattle.router.specs.Zones as zones_spec;
ghost use Rattle.router.specs.Zones.{info, zones_told};
ghost use Rattle.zip_zones.specs.Formats.{zones_in};

use crate::router::Router;
use crate::ways::is_answered;
use at_base::{Addr, Error, Range, Text32};
use ddp::View;
use rtmp::RouteTable;
use station::making::{put_all, put_one};
use station::ways::{EVERY_NODE, reply_header, straight, way_from};
use station::{Next, Output, Way};
use zip_zones::{Networks, Packet, answer_query, reply_net_info};

impl<T: RouteTable> Router<T> {
    /// The way of the GetNetInfo reply for the cable of a port, which has this range: to the node
    /// itself if its network is the cable's, and otherwise to all nodes there. `None` if the router
    /// doesn't reply to the node's address, or if the port has no address.
    fn info_way(&self, port: u8, range: Range, view: &View<'_>) -> Option<Way>
        ensures value { result ≡ zones_spec.info_way self.now port range view.now }
        ensures inside { port < length self.now.ports → IsWayIn (length self.now.ports) result }
    {
        let asker = view.source();
        if !range.holds(asker.net) {
            let every_node = Addr {
                net: 0,
                node: EVERY_NODE,
            };
            let header = reply_header(view, every_node);
            return way_from(self.own(port), port, Next::All, header);
        }
        if !is_answered(self.ports.as_slice(), asker) {
            return None;
        }
        let header = reply_header(view, asker);
        way_from(self.own(port), port, straight(asker), header)
    }

    /// Adds the GetNetInfo reply for a zone on the cable of a port, which has this range. A cable
    /// without zones gets no reply. Error: `Memory`.
    fn tell_of(
        &self,
        made: &mut Vec<Output>,
        port: u8,
        range: Range,
        view: &View<'_>,
        zone: &Text32,
    ) -> Result<(), Error>
        requires { port < length self.now.ports }
        ensures { Makes (length self.now.ports) 1
            (replying (zones_spec.info_way self.now port range view.now)
            (info self.now range zone.now))
            made.old.items made.new.items result }
    {
        let way = self.info_way(port, range, view);
        if way.is_none() {
            return Ok(());
        }
        let names = self.zones.names_of(range.start())?;
        let payload = reply_net_info(*made.allocator(), zone, range, names.as_slice())?;
        put_one(made, &way, &payload)
    }

    /// Adds the GetNetInfo reply for a zone on the cable of a port. Error: `Memory`.
    fn tell(
        &self,
        made: &mut Vec<Output>,
        port: u8,
        view: &View<'_>,
        zone: &Text32,
    ) -> Result<(), Error>
        requires { port < length self.now.ports }
        ensures { Makes (length self.now.ports) 1 (zones_spec.told self.now port view.now zone.now)
            made.old.items made.new.items result }
    {
        match self.ports.as_slice().get(port as usize) {
            Some(chooser) => self.tell_of(made, port, chooser.range(), view, zone),
            None => Ok(()),
        }
    }

    /// Adds the replies to a query for the zones of networks. Error: `Memory`.
    fn answer(
        &self,
        made: &mut Vec<Output>,
        port: u8,
        view: &View<'_>,
        networks: Networks<'_>,
    ) -> Result<(), Error>
        ensures { Makes (length self.now.ports) 256
            (replying (ways_spec.way_back self.now port view.now)
            (map (bytes_of formats_spec.packet) (replies self.now.zones networks.entry)))
            made.old.items made.new.items result }
    {
        let way = self.way_back(port, view);
        if way.is_none() {
            return Ok(());
        }
        let payloads = answer_query(*made.allocator(), &self.zones, networks)?;
        put_all(made, &way, payloads.as_slice())
    }

    /// Handles the ZIP packet in a datagram that ended on a port; a datagram without one is
    /// ignored. Error: `Memory`.
    pub(crate) fn hear_zones(
        &self,
        made: &mut Vec<Output>,
        port: u8,
        view: &View<'_>,
    ) -> Result<(), Error>
        requires { port < length self.now.ports }
        ensures { Makes (length self.now.ports) 256
            (zones_told self.now port view.now (zones_in view.now.payload))
            made.old.items made.new.items result }
    {
        match Packet::at(view.payload()) {
            Some(packet) => self.answer_packet(made, port, view, packet),
            None => Ok(()),
        }
    }

    /// Handles a ZIP packet that ended on a port: only queries and GetNetInfo requests are
    /// answered. Error: `Memory`.
    fn answer_packet(
        &self,
        made: &mut Vec<Output>,
        port: u8,
        view: &View<'_>,
        packet: Packet<'_>,
    ) -> Result<(), Error>
        requires { port < length self.now.ports }
        ensures { Makes (length self.now.ports) 256
            (zones_told self.now port view.now (Some packet.entry))
            made.old.items made.new.items result }
    {
        if let Some(zone) = packet.asked() {
            return self.tell(made, port, view, &zone);
        }
        match packet {
            Packet::Query(networks) => self.answer(made, port, view, networks),
            _ => Ok(()),
        }
    }
}
