//! Zone lists, which nodes ask for in ATP transactions.

ghost use Rattle.std.specs.Prelude.{◌≡◌, ◌≤◌, [], ◌∷◌, false, true, length, Some, None};
ghost use Rattle.std.specs.Prelude.{IfOk, IsOk, IsOkUnless};
ghost use Rattle.std.specs.Option.{unwrap_or};
ghost use Rattle.atp.specs.Answers.{bytes_of_all};
ghost use Rattle.atp.specs.InPlace.{packet_value};
ghost use Rattle.atp.specs.Packets as packets_spec;
ghost use Rattle.atp.specs.Replies as replies_spec;
ghost use Rattle.atp.specs.Responding as responding_spec;
ghost use Rattle.zip_zones.specs.Answers.{asked_page};
ghost use Rattle.station.specs.Made.{AreShort};
ghost use Rattle.router.specs.Zones as spec;
ghost use Rattle.router.specs.Zones.{listed, transacted};
ghost use Rattle.atp.specs.InPlace.{transaction_in};

use crate::router::Router;
use at_base::{Bytes, Error};
use atp::{AnswerPart, Packet, Peer, Responder, reply};
use ddp::View;
use rtmp::RouteTable;
use std::alloc::Global;
use zip_zones::{Page, ZoneFunction, page_for};

/// The address and the socket that a datagram comes from.
fn peer(view: &View<'_>) -> Peer
    ensures { result ≡ spec.peer view.now }
{
    Peer {
        addr: view.source(),
        socket: view.source_socket(),
    }
}

/// The part of a response that holds a page.
fn page_part(page: Page) -> AnswerPart
    ensures { result ≡ spec.page_part page }
{
    AnswerPart {
        user: page.user(),
        payload: page.bytes,
    }
}

/// The response packets for an ATP packet, and the requests that the router holds after it, if they
/// may have changed.
#[derive(Drop)]
pub(crate) struct Transacted {
    pub(crate) packets: Vec<Bytes>,
    pub(crate) responder: Option<Responder>,
}

/// No response, and no change.
fn nothing(alloc: Global) -> Transacted
    ensures packets { result.packets.items ≡ [] }
    ensures responder { result.responder ≡ None }
{
    Transacted {
        packets: Vec::new(alloc),
        responder: None,
    }
}

/// The response to a request, with this part as its only part. Error: `Memory`.
fn respond(
    responder: &Responder,
    from: Peer,
    packet: &Packet<'_>,
    part: AnswerPart,
) -> Result<Transacted, Error>
    requires { length part.payload ≤ 578 }
    ensures packets { IfOk result (λ x. x.packets.items ≡ bytes_of_all
        (replies_spec.reply from (packet_value packet.now) (part ∷ []) responder.now).0) }
    ensures requests { IfOk result (λ x. x.responder ≡ Some
        (replies_spec.reply from (packet_value packet.now) (part ∷ []) responder.now).1) }
    ensures few { IfOk result (λ x. length x.packets.items ≤ 8) }
    ensures short { IfOk result (λ x. AreShort x.packets.items) }
    ensures refused { IsOkUnless result Error.Memory }
{
    let mut responder = responder.copy()?;
    match reply(&mut responder, from, packet, &[part]) {
        Ok(packets) => Ok(Transacted {
            packets,
            responder: Some(responder),
        }),
        Err(_) => Err(Error::Memory),
    }
}

/// Handles a packet that isn't a request: a release removes the request that it names. Error:
/// `Memory`.
fn release(
    alloc: Global,
    responder: &Responder,
    from: Peer,
    packet: &Packet<'_>,
) -> Result<Transacted, Error>
    requires { packets_spec.is_request packet.now.control ≡ false }
    ensures packets { IfOk result (λ x. x.packets.items ≡ []) }
    ensures requests { IfOk result (λ x. unwrap_or x.responder responder.now
        ≡ (responding_spec.heard from (packet_value packet.now) responder.now).1) }
    ensures ignored { packets_spec.is_release packet.now.control ≡ false → IsOk result }
    ensures refused { IsOkUnless result Error.Memory }
{
    if !packet.is_release() {
        return Ok(nothing(alloc));
    }
    let mut responder = responder.copy()?;
    responder.released(from, packet.id);
    Ok(Transacted {
        packets: Vec::new(alloc),
        responder: Some(responder),
    })
}

impl<T: RouteTable> Router<T> {
    /// The page that answers a request for a zone list. Error: `Memory`.
    fn page_for(&self, view: &View<'_>, function: ZoneFunction, start: u16) -> Result<Page, Error>
        ensures ok { IfOk result (λ page. page ≡ spec.page_for self.now view.now (function, start)) }
        ensures short { IfOk result (λ page. length page.bytes ≤ 578) }
        ensures refused { IsOkUnless result Error.Memory }
    {
        let local = self.zones.names_of(view.source().net)?;
        let alloc = *self.ports.allocator();
        page_for(alloc, function, start, local.as_slice(), &self.zones)
    }

    /// Handles a request: responds if it asks for a zone list, unless the request is new and there
    /// is no room for it. Error: `Memory`.
    fn list(&self, view: &View<'_>, packet: &Packet<'_>) -> Result<Transacted, Error>
        requires { packets_spec.is_request packet.now.control ≡ true }
        ensures packets { IfOk result (λ x. x.packets.items ≡ bytes_of_all
            (listed self.now view.now (packet_value packet.now) (asked_page packet.now.user)).0) }
        ensures requests { IfOk result (λ x. unwrap_or x.responder self.now.requests ≡
            (listed self.now view.now (packet_value packet.now) (asked_page packet.now.user)).1) }
        ensures few { IfOk result (λ x. length x.packets.items ≤ 8) }
        ensures short { IfOk result (λ x. AreShort x.packets.items) }
        // A request that isn't answered needs no memory: one for anything but a zone list, and a
        // new one for which there is no room.
        ensures ignored { asked_page packet.now.user ≡ None → IsOk result }
        ensures full { responding_spec.is_full_for (spec.peer view.now) (packet_value packet.now)
            self.now.requests ≡ true → IsOk result }
        ensures refused { IsOkUnless result Error.Memory }
    {
        let alloc = *self.ports.allocator();
        match ZoneFunction::asked(&packet.user) {
            None => Ok(nothing(alloc)),
            Some(_) if self.responder.is_full_for(peer(view), packet) => Ok(nothing(alloc)),
            Some((function, start)) => {
                let page = self.page_for(view, function, start)?;
                respond(&self.responder, peer(view), packet, page_part(page))
            }
        }
    }

    /// Handles the ATP packet in a datagram; a datagram without one is ignored. Error: `Memory`.
    pub(crate) fn transact(&self, view: &View<'_>) -> Result<Transacted, Error>
        ensures packets { IfOk result (λ x. x.packets.items ≡ bytes_of_all
            (transacted self.now view.now (transaction_in view.now.payload)).0) }
        ensures requests { IfOk result (λ x. unwrap_or x.responder self.now.requests
            ≡ (transacted self.now view.now (transaction_in view.now.payload)).1) }
        ensures few { IfOk result (λ x. length x.packets.items ≤ 8) }
        ensures short { IfOk result (λ x. AreShort x.packets.items) }
        ensures unread { transaction_in view.now.payload ≡ None → IsOk result }
        ensures refused { IsOkUnless result Error.Memory }
    {
        let alloc = *self.ports.allocator();
        match Packet::at(view.payload()) {
            None => Ok(nothing(alloc)),
            Some(packet) if packet.is_request() => self.list(view, &packet),
            Some(packet) => release(alloc, &self.responder, peer(view), &packet),
        }
    }
}
