//! What a station learns from a datagram.

ghost use Rattle.std.specs.Prelude.{◌≡◌, [], fold, is_some, if◌then◌else◌};
ghost use Rattle.atp.specs.InPlace.{transaction_in};
ghost use Rattle.rtmp.specs.Data.{routing_in};
ghost use Rattle.survey.specs.Agendas as spec;
ghost use Rattle.survey.specs.Answers as answers_spec;
ghost use Rattle.std.specs.List.{list_any};
ghost use Rattle.survey.specs.Known.{with_zones};
ghost use Rattle.survey.specs.Slots.{is_answered};
ghost use Rattle.zip_zones.specs.Formats.{zones_in as zip_zones_in};

use crate::agenda::{Agenda, next_id};
use crate::few::Few;
use crate::known::{Zoned, add_entries, add_listed, add_ranges, add_router};
use crate::question::{ASKING, Wanted};
use crate::slots::{Open, any_answered, hear_all, tell_all_answered};
use crate::zone_names::zones_in;
use at_base::Addr;
use ddp::{View, kind, socket};
use rtmp::{DataPacket, Nonextended};
use station::ways::is_to;
use zip_zones::Packet;

/// Learns the zones of a network that data tell, if they are a reply.
fn learn_replied(zones: &mut Few<Zoned>, net: u16, payload: &[u8])
    ensures { zones.new
        ≡ with_zones (answers_spec.zones_replied net (zip_zones_in payload.now)) zones.old }
{
    match Packet::at(payload) {
        Some(Packet::Reply(_, entries)) => add_entries(zones, entries, net),
        Some(Packet::ExtendedReply(_, entries)) => add_entries(zones, entries, net),
        Some(Packet::Query(_))
        | Some(Packet::GetNetInfo(_, _))
        | Some(Packet::NetInfoReply(_))
        | None => {}
    }
}

/// Learns the zones that data list, if they list zones.
fn learn_listed(zones: &mut Few<Zoned>, payload: &[u8])
    ensures { zones.new ≡ with_zones (answers_spec.all_listed (answers_spec.zones_listed payload.now)) zones.old }
{
    if let Some(names) = zones_in(payload) {
        add_listed(zones, names);
    }
}

/// Learns the zones in the response of a transaction, if the data are one.
fn learn_list(zones: &mut Few<Zoned>, payload: &[u8])
    ensures { zones.new
        ≡ with_zones (answers_spec.zones_in_list (transaction_in payload.now)) zones.old }
{
    if let Some(packet) = atp::Packet::at(payload) {
        learn_listed(zones, packet.payload);
    }
}

/// Learns the zones that the answer to a question names.
fn learn_told(zones: &mut Few<Zoned>, wanted: &Wanted, payload: &[u8])
    ensures { zones.new ≡ with_zones (answers_spec.zones_told wanted.now payload.now) zones.old }
{
    match wanted {
        Wanted::Zones(net) => learn_replied(zones, *net, payload),
        Wanted::List(_, _) => learn_list(zones, payload),
        Wanted::Echo | Wanted::Routes(_) | Wanted::Names(_) => {}
    }
}

/// Learns the zones that a datagram names, if it answers the question in a slot.
fn learn_slot(zones: &mut Few<Zoned>, slot: &Option<Open>, view: &View<'_>)
    ensures { zones.new ≡ spec.zones_after view.now zones.old slot.now }
{
    if let Some(item) = slot {
        if item.question.is_answered(item.id, view) {
            learn_told(zones, &item.question.wanted, view.payload());
        }
    }
}

/// Learns the zones that a datagram names, if it answers questions.
fn learn_zones(zones: &mut Few<Zoned>, slots: &[Option<Open>], view: &View<'_>)
    ensures { zones.new ≡ fold (spec.zones_after view.now) zones.old slots.now }
{
    if let [slot, rest @ ..] = slots {
        learn_slot(zones, slot, view);
        learn_zones(zones, rest, view);
    }
}

impl Agenda {
    /// Whether routers and ranges are learnt from the datagram, which answers a question or doesn't.
    fn is_lesson(&self, view: &View<'_>, answers: bool) -> bool
        requires { answers ≡ list_any (is_answered view.now) self.now.slots }
        ensures { result ≡ spec.is_lesson self.now view.now }
    {
        self.aim.spreads
            && (is_to(view, kind::RTMP_DATA, socket::RTMP)
                || is_to(view, kind::RTMP_DATA, ASKING) && answers)
    }

    /// Learns the routing data in a datagram from an address, if there are some.
    fn learn_routes(&mut self, source: Addr, payload: &[u8])
        ensures { self.new ≡ spec.with_routes source (routing_in payload.now) self.old }
    {
        if let Some(packet) = DataPacket::at(payload) {
            add_router(&mut self.routers, source);
            add_ranges(&mut self.ranges, packet.heard(Nonextended::AsRanges));
        }
    }

    /// Learns routers and ranges from a datagram, which answers a question or doesn't.
    fn learn(&mut self, view: &View<'_>, answers: bool)
        requires { answers ≡ list_any (is_answered view.now) self.old.slots }
        ensures { self.new ≡ spec.taught self.old view.now }
    {
        if self.is_lesson(view, answers) {
            self.learn_routes(view.source(), view.payload());
        }
    }

    /// Learns the zones that a datagram names, if names are looked for.
    fn learn_names(&mut self, view: &View<'_>)
        ensures { self.new ≡ record self.old { zones = spec.named self.old view.now } }
    {
        if self.aim.pattern.is_some() {
            learn_zones(&mut self.zones, self.slots.as_slice(), view);
        }
    }

    /// Hears a datagram that the station accepted: it may answer questions, and tell of routers,
    /// ranges and zones. Allocates nothing.
    pub(crate) fn hear(&mut self, view: &View<'_>)
        ensures { self.new ≡ spec.heard_by self.old view.now }
    {
        let answers = any_answered(self.slots.as_slice(), view);
        self.told.clear();
        tell_all_answered(&mut self.told, self.slots.as_slice(), view);
        self.learn_names(view);
        self.learn(view, answers);
        hear_all(self.slots.as_mut_slice(), view, self.id);
        if answers {
            self.id = next_id(self.id);
        }
    }
}
