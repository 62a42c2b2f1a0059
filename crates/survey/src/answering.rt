//! The datagrams that answer a question.

ghost use Rattle.std.specs.Prelude.{◌≡◌, ◌==◌, length};
ghost use Rattle.at_base.specs.Text.{same_bytes};
ghost use Rattle.atp.specs.InPlace.{packet_value, transaction_in};
ghost use Rattle.nbp.specs.Packets.{names_in};
ghost use Rattle.rtmp.specs.Data.{routing_in};
ghost use Rattle.survey.specs.Answers as spec;
ghost use Rattle.zip_zones.specs.Formats.{zones_in as zip_zones_in};

use crate::question::{ASKING, Question, Wanted};
use crate::zone_names::{ZoneNames, zones_in};
use at_base::{Addr, Range};
use ddp::{View, kind};
use rtmp::DataPacket;
use station::ways::is_to;
use zip_zones::{Entries, Packet};

/// The function of an echo reply.
const ECHO_REPLY: u8 = 2;

/// Whether the bytes are the same.
fn is_same(bytes: &[u8], others: &[u8]) -> bool
    ensures { result ≡ same_bytes bytes.now others.now }
{
    bytes == others
}

/// Whether the data are the answer to an echo request with this ID.
fn is_echo(payload: &[u8], id: u16) -> bool
    ensures { result ≡ same_bytes payload.now (spec.echo_answered id) }
{
    let [high, low] = id.to_be_bytes();
    is_same(payload, &[ECHO_REPLY, high, low])
}

/// Whether a router that says its cable has this range was asked.
fn was_asked(to: Addr, source: Addr, own: Range) -> bool
    ensures { result ≡ spec.was_asked to source own }
{
    if to.node == 0 || to.node == 255 {
        own.holds(to.net)
    } else {
        source == to
    }
}

/// Whether the data are routing data of who was asked.
fn tells_routes(to: Addr, source: Addr, payload: &[u8]) -> bool
    ensures { result ≡ spec.tells_routes to source (routing_in payload.now) }
{
    match DataPacket::at(payload) {
        Some(packet) => was_asked(to, source, packet.own()),
        None => false,
    }
}

/// Whether an entry is of the network.
fn has_network(entries: &mut Entries<'_>, net: u16) -> bool
    ensures { result ≡ spec.has_network net entries.old }
{
    match entries.next() {
        Some(entry) => entry.net == net || has_network(entries, net),
        None => false,
    }
}

/// Whether the data are a reply with a zone of the network.
fn tells_zones(net: u16, payload: &[u8]) -> bool
    ensures { result ≡ spec.tells_zones net (zip_zones_in payload.now) }
{
    match Packet::at(payload) {
        Some(Packet::Reply(_, mut entries)) => has_network(&mut entries, net),
        Some(Packet::ExtendedReply(_, mut entries)) => has_network(&mut entries, net),
        Some(Packet::Query(_))
        | Some(Packet::GetNetInfo(_, _))
        | Some(Packet::NetInfoReply(_))
        | None => false,
    }
}

/// Whether so many zones are left in a list.
fn are_so_many(names: &mut ZoneNames<'_>, count: u16) -> bool
    ensures { result ≡ (length names.old == count) }
{
    match names.next() {
        Some(_) => count > 0 && are_so_many(names, count - 1),
        None => count == 0,
    }
}

/// Whether data list so many zones.
fn are_listed(payload: &[u8], count: u16) -> bool
    ensures { result ≡ spec.are_listed count (spec.zones_listed payload.now) }
{
    match zones_in(payload) {
        Some(mut names) => are_so_many(&mut names, count),
        None => false,
    }
}

/// How many zones a response says that it lists.
pub(crate) fn count_listed(packet: &atp::Packet<'_>) -> u16
    ensures { result ≡ spec.count_listed (packet_value packet.now) }
{
    u16::from_be_bytes([packet.user[2], packet.user[3]])
}

/// Whether a packet is the response of the transaction with this ID, and lists as many zones as it
/// says.
fn is_list(id: u16, packet: &atp::Packet<'_>) -> bool
    ensures { result ≡ spec.tells_list id (Some (packet_value packet.now)) }
{
    packet.is_response() && packet.id == id && are_listed(packet.payload, count_listed(packet))
}

/// Whether the data are the response of the transaction with this ID, and list as many zones as they
/// say.
fn tells_list(id: u16, payload: &[u8]) -> bool
    ensures { result ≡ spec.tells_list id (transaction_in payload.now) }
{
    match atp::Packet::at(payload) {
        Some(packet) => is_list(id, &packet),
        None => false,
    }
}

/// Whether the data are a reply to the request for names with this ID.
fn tells_names(id: u16, payload: &[u8]) -> bool
    ensures { result ≡ spec.tells_names id (names_in payload.now) }
{
    match nbp::Packet::at(payload) {
        Some(packet) => packet.function() == nbp::Function::Reply
            && u16::from(packet.id()) == id % 256,
        None => false,
    }
}

impl Question {
    /// Whether the datagram answers the question, which was asked with this ID: it came to the socket
    /// that questions are asked from, with what was asked for, and from who was asked. Allocates
    /// nothing.
    ///
    /// Inside AppleTalk, the chapters on AEP, RTMP, ZIP, ATP and NBP.
    pub fn is_answered(&self, id: u16, view: &View<'_>) -> bool
        ensures { result ≡ spec.is_answer self.now id view.now }
    {
        let source = view.source();
        match &self.wanted {
            Wanted::Echo => {
                is_to(view, kind::AEP, ASKING) && source == self.to && is_echo(view.payload(), id)
            }
            Wanted::Routes(_) => {
                is_to(view, kind::RTMP_DATA, ASKING)
                    && tells_routes(self.to, source, view.payload())
            }
            Wanted::Zones(net) => {
                is_to(view, kind::ZIP, ASKING)
                    && source == self.to
                    && tells_zones(*net, view.payload())
            }
            Wanted::List(_, _) => {
                is_to(view, kind::ATP, ASKING)
                    && source == self.to
                    && tells_list(id, view.payload())
            }
            Wanted::Names(_) => is_to(view, kind::NBP, ASKING) && tells_names(id, view.payload()),
        }
    }
}
