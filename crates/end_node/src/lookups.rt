//! A node's replies to lookups.

ghost use Rattle.std.specs.Prelude.{◌≡◌, ◌≤◌, [], ◌∷◌, length, map, ℕ, Some};
ghost use Rattle.std.specs.Prelude.{IfOk, IsOk, IsOkUnless, None};
ghost use Rattle.at_base.specs.Text.{is_only, same_name};
ghost use Rattle.nbp.specs.Registered.{answers};
ghost use Rattle.end_node.specs.Lookups as spec;
ghost use Rattle.end_node.specs.Lookups.{looked_up, replies, reply_of, told};
ghost use Rattle.nbp.specs.Packets.{names_in};
ghost use Rattle.station.specs.Made.{AreMade, IsWayIn, Makes, Puts};
ghost use Rattle.station.specs.Ways.{replying};
ghost use Rattle.at_base.specs.Limits.{max_names};

use crate::node::EndNode;
use at_base::{Addr, Error, Name, Text32};
use ddp::{Header, View, kind, socket};
use nbp::{Function, Names, Packet, Tuple, write};
use station::making::put;
use station::ways::is_summed;
use station::{Output, Way};

fn is_star(zone: &[u8]) -> bool
    ensures { result ≡ is_only 42 zone.now }
{
    match zone {
        [byte] => *byte == b'*',
        _ => false,
    }
}

/// Whether the zone means the receiver's own: it is empty or `*`.
pub(crate) fn is_any(zone: &[u8]) -> bool
    ensures { result ≡ spec.is_any zone.now }
{
    zone.is_empty() || is_star(zone)
}

fn same(a: &[u8], b: &[u8]) -> bool
    ensures { result ≡ same_name a.now b.now }
{
    a.eq_ignore_ascii_case(b)
}

/// Whether a node in zone `own` is in the zone of a lookup.
fn is_in(own: &Name, zone: &[u8]) -> bool
    ensures { result ≡ spec.is_in own.now zone.now }
{
    is_any(zone) || same(zone, own.as_slice())
}

/// The name of a zone as a text.
pub(crate) fn text_of(zone: &Name) -> Text32
    ensures { result ≡ zone.now }
{
    Text32::new(zone.as_slice()).unwrap()
}

/// The tuple with this address and zone.
fn named_at(own: Addr, zone: &Name, tuple: &Tuple) -> Tuple
    ensures { result ≡ spec.named_at own zone.now tuple.now }
{
    Tuple {
        at: own,
        zone: text_of(zone),
        ..*tuple
    }
}

/// The header of the replies to a lookup, without a source.
fn answer_header(summed: bool, tuple: &Tuple) -> Header
    ensures { result ≡ spec.answer_header summed tuple.now }
{
    Header {
        summed,
        target: tuple.at,
        source: Addr::NONE,
        target_socket: tuple.socket,
        source_socket: socket::NAMES,
        kind: kind::NBP,
    }
}

/// Adds the reply with a tuple. Error: `Memory`.
fn put_reply(
    made: &mut Vec<Output>,
    way: &Option<Way>,
    own: Addr,
    zone: &Name,
    id: u8,
    tuple: &Tuple,
) -> Result<(), Error>
    ensures puts { Puts 1 (replying way.now (reply_of own zone.now id tuple.now ∷ []))
        made.old.items made.new.items result }
    ensures good { (n : ℕ) → IsWayIn n way.now → AreMade n made.old.items
        → AreMade n made.new.items }
{
    if way.is_none() {
        return Ok(());
    }
    let tuple = named_at(own, zone, tuple);
    let payload = write(*made.allocator(), Function::Reply, id, &tuple)?;
    put(made, way, payload.as_slice())
}

/// Adds the replies with these tuples, one for each, in order. Error: `Memory`.
fn put_replies(
    made: &mut Vec<Output>,
    way: &Option<Way>,
    own: Addr,
    zone: &Name,
    id: u8,
    tuples: &[Tuple],
) -> Result<(), Error>
    ensures puts { Puts (length tuples.now)
        (replying way.now (map (reply_of own zone.now id) tuples.now))
        made.old.items made.new.items result }
    ensures good { (n : ℕ) → IsWayIn n way.now → AreMade n made.old.items
        → AreMade n made.new.items }
{
    match tuples {
        [] => Ok(()),
        [tuple, rest @ ..] => {
            put_reply(made, way, own, zone, id, tuple)?;
            put_replies(made, way, own, zone, id, rest)
        }
    }
}

/// The tuples of the names that match a lookup, at most 32. Error: `Memory`.
fn asked(names: &Names, tuple: &Tuple) -> Result<Vec<Tuple>, Error>
    ensures ok { IfOk result (λ tuples. tuples.items
        ≡ answers tuple.now.object tuple.now.kind names.now) }
    ensures none { answers tuple.now.object tuple.now.kind names.now ≡ [] → IsOk result }
    ensures few { IfOk result (λ tuples. length tuples.items ≤ max_names) }
    ensures refused { IsOkUnless result Error.Memory }
{
    // Only the prover needs this read: it shows that there are at most 32 names.
    let _names = names.entries();
    let tuples = names.answer(tuple.object.as_slice(), tuple.kind.as_slice())?;
    Ok(tuples)
}

impl EndNode {
    /// Adds the replies to a lookup, from address `own`. Error: `Memory`.
    fn reply(
        &self,
        made: &mut Vec<Output>,
        summed: bool,
        id: u8,
        tuple: &Tuple,
        own: Addr,
    ) -> Result<(), Error>
        ensures { Makes 1 max_names (replies self.now summed id tuple.now (Some own))
            made.old.items made.new.items result }
    {
        let way = self.reply_way(answer_header(summed, tuple));
        if way.is_none() {
            return Ok(());
        }
        let tuples = asked(&self.names, tuple)?;
        put_replies(made, &way, own, &self.zone, id, tuples.as_slice())
    }

    /// Adds the replies to a lookup, if it is for the node's zone and the node has an address.
    /// Error: `Memory`.
    fn look_up(
        &self,
        made: &mut Vec<Output>,
        summed: bool,
        id: u8,
        tuple: &Tuple,
    ) -> Result<(), Error>
        ensures { Makes 1 max_names (looked_up self.now summed id tuple.now)
            made.old.items made.new.items result }
    {
        if !is_in(&self.zone, tuple.zone.as_slice()) {
            return Ok(());
        }
        match self.own() {
            Some(own) => self.reply(made, summed, id, tuple, own),
            None => Ok(()),
        }
    }

    /// Adds the replies to the packet in a datagram, if it is a lookup. Error: `Memory`.
    fn tell_by(
        &self,
        made: &mut Vec<Output>,
        view: &View<'_>,
        packet: &Packet<'_>,
    ) -> Result<(), Error>
        ensures { Makes 1 max_names (told self.now view.now (Some packet.now))
            made.old.items made.new.items result }
    {
        let tuple = packet.first().copy();
        match packet.function() {
            Function::Lookup => self.look_up(made, is_summed(view), packet.id(), &tuple),
            Function::BroadcastRequest | Function::Reply | Function::ForwardRequest => Ok(()),
        }
    }

    /// Adds the replies to a datagram for the names socket; one without an NBP packet is ignored.
    /// Error: `Memory`.
    pub(crate) fn tell(&self, made: &mut Vec<Output>, view: &View<'_>) -> Result<(), Error>
        ensures { Makes 1 max_names (told self.now view.now (names_in view.now.payload))
            made.old.items made.new.items result }
    {
        match Packet::at(view.payload()) {
            Some(packet) => self.tell_by(made, view, &packet),
            None => Ok(()),
        }
    }
}
