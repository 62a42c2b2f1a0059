//! What a station that asks makes of a frame.

ghost use Rattle.std.specs.Prelude.{◌≡◌, ◌≤◌, ◌<◌, ◌++◌, ◌∷◌, [], false, true, None, Some, IfOk, IsOk, IsOkUnless, OnErr, OnOk};
ghost use Rattle.aarp.specs.Choosing.{wants};
ghost use Rattle.at_base.specs.Limits.{max_held};
ghost use Rattle.cabled.specs.Steps.{told};
ghost use Rattle.cabled.specs.declared.peers.Peers.TheVariants.{Real};
ghost use Rattle.ethertalk.specs.Frames.{framed};
ghost use Rattle.rtmp.specs.Data.{routing_in};
ghost use Rattle.station.specs.Hearing.{hearing};
ghost use Rattle.station.specs.Resolution.{answer_by};
ghost use Rattle.survey.specs.Asking as spec;

use crate::asker::Asker;
use crate::seat::{Seat, seat_on, takes};
use aarp::{Function, Packet};
use at_base::{Addr, Error, Hw, Range};
use cabled::{Carried, Peers, Put, Puts, hear_question, hear_response, heard_at};
use ddp::{View, kind, socket};
use ethertalk::Frame;
use rtmp::DataPacket;
use station::frames::{read_datagram, read_packet};
use station::ways::{checks, is_to};
use station::{Heard, Kind, Link};

/// The greatest number of packets that are put for a frame: a response, or what waited for one.
const MAX_PUT: usize = 17;

/// Whether a packet of this function asks for a response.
fn asks(function: Function) -> bool
    ensures { result ≡ wants function }
{
    match function {
        Function::Request | Function::Probe => true,
        Function::Response => false,
    }
}

/// The station's response to an AARP packet, if it has the address that is asked for.
fn response(seat: &Option<Seat>, packet: &Packet) -> Option<Packet>
    ensures value { result ≡ spec.response_by packet.now seat.now }
    ensures asked { wants packet.now.function ≡ false → result ≡ None }
{
    match seat {
        Some(seat) => seat.choice.answer(packet),
        None => None,
    }
}

/// Puts a response, if there is one.
fn put_response(puts: &mut Puts, response: &Option<Packet>)
    requires { 0 < puts.old.spare }
    ensures { puts.new.items ≡ puts.old.items ++ spec.responded response.now }
{
    if let Some(response) = response {
        puts.add(Put {
            port: 0,
            to: response.target_hw,
            carried: Carried::Packet(*response),
        });
    }
}

impl Asker {
    /// Hears that a router told the range of the cable. Error: `Memory`; nothing changes then.
    fn hear_told(&mut self, range: Range, router: Addr) -> Result<(), Error>
        ensures ok { OnOk result (self.new ≡ spec.seated self.old
            (spec.seat_told self.old.hw range router self.old.seat)) }
        ensures refused { IsOkUnless result Error.Memory }
        ensures stays { OnErr result (self.new ≡ self.old) }
    {
        match &mut self.seat {
            Some(seat) => {
                if range == seat.choice.range() {
                    seat.router = router;
                }
            }
            None => {
                self.seat = Some(seat_on(self.agenda.allocator(), self.hw, range, router)?);
                self.passed = 0;
            }
        }
        Ok(())
    }

    /// Learns the range of the cable from a datagram, if it is routing data. Error: `Memory`; nothing
    /// changes then.
    fn hear_range(&mut self, view: &View<'_>) -> Result<(), Error>
        ensures ok { OnOk result (self.new ≡ spec.seated self.old
            (spec.seat_heard self.old.hw view.now self.old.seat)) }
        ensures refused { IsOkUnless result Error.Memory }
        ensures stays { OnErr result (self.new ≡ self.old) }
    {
        if !is_to(view, kind::RTMP_DATA, socket::RTMP) {
            return Ok(());
        }
        match DataPacket::at(view.payload()) {
            Some(packet) => self.hear_told(packet.own(), packet.router()),
            None => Ok(()),
        }
    }

    /// Hears a datagram in a frame of this link. Error: `Memory`; nothing changes then.
    fn hear_datagram(&mut self, link: Link, view: &View<'_>) -> Result<(), Error>
        ensures ok { OnOk result (self.new ≡ spec.datagram_heard self.old link (Some view.now)) }
        ensures refused { IsOkUnless result Error.Memory }
        ensures stays { OnErr result (self.new ≡ self.old) }
    {
        if !(takes(&self.seat, link, view) && checks(view)) {
            self.forget();
            return Ok(());
        }
        self.hear_range(view)?;
        self.agenda.hear(view);
        Ok(())
    }

    /// Its choice of an address hears an AARP packet.
    fn mind(&mut self, packet: &Packet)
        ensures { self.new ≡ record self.old { seat = spec.seat_after packet.now self.old.seat } }
    {
        if let Some(seat) = &mut self.seat {
            seat.choice.heard(packet);
        }
    }

    /// Hears an AARP packet. Error: `Memory`; nothing changes then.
    fn hear_packet(&mut self, packet: &Packet, puts: &mut Puts) -> Result<(), Error>
        ensures put { OnOk result (puts.new.items
            ≡ puts.old.items ++ (spec.packet_heard self.old (Some packet.now)).0) }
        ensures after { OnOk result
            (self.new ≡ (spec.packet_heard self.old (Some packet.now)).1) }
        ensures refused { IsOkUnless result Error.Memory }
        ensures puts_stay { OnErr result (puts.new.items ≡ puts.old.items) }
        ensures stays { OnErr result (self.new ≡ self.old) }
    {
        // Room is made first: once a response is put, nothing is refused.
        puts.room(MAX_PUT)?;
        if asks(packet.function) {
            let response = response(&self.seat, packet);
            put_response(puts, &response);
            hear_question(&mut self.port, 0, Peers::Real, packet);
        } else {
            hear_response(puts, &mut self.port, 0, packet)?;
        }
        self.mind(packet);
        self.forget();
        Ok(())
    }

    /// Hears what its port hears. Error: `Memory`; nothing changes then.
    fn hear_heard(&mut self, heard: &Heard<'_>, puts: &mut Puts) -> Result<(), Error>
        ensures put { OnOk result (puts.new.items
            ≡ puts.old.items ++ (spec.heard_if self.old (Some (hearing heard.now))).0) }
        ensures after { OnOk result
            (self.new ≡ (spec.heard_if self.old (Some (hearing heard.now))).1) }
        ensures refused { IsOkUnless result Error.Memory }
        ensures puts_stay { OnErr result (puts.new.items ≡ puts.old.items) }
        ensures stays { OnErr result (self.new ≡ self.old) }
    {
        match heard.kind {
            Kind::Ddp => match read_datagram(heard.bytes) {
                Some(view) => self.hear_datagram(heard.link, &view),
                None => {
                    self.forget();
                    Ok(())
                }
            },
            Kind::Aarp => match read_packet(heard.bytes) {
                Some(packet) => self.hear_packet(&packet, puts),
                None => {
                    self.forget();
                    Ok(())
                }
            },
        }
    }

    /// Hears a frame on the cable of the port with a number. Error: `Memory`; nothing changes then.
    pub(crate) fn hear_frame(
        &mut self,
        port: u8,
        frame: &Frame<'_>,
        puts: &mut Puts,
    ) -> Result<(), Error>
        ensures put { OnOk result (puts.new.items
            ≡ puts.old.items ++ (spec.heard self.old port (framed frame.now)).0) }
        ensures after { OnOk result (self.new ≡ (spec.heard self.old port (framed frame.now)).1) }
        ensures refused { IsOkUnless result Error.Memory }
        ensures puts_stay { OnErr result (puts.new.items ≡ puts.old.items) }
        ensures stays { OnErr result (self.new ≡ self.old) }
    {
        match heard_at(std::slice::from_ref(&self.port), Peers::Real, port, frame) {
            Some(heard) => self.hear_heard(&heard, puts),
            None => {
                self.forget();
                Ok(())
            }
        }
    }
}
