//! The AARP packets that a router receives.

ghost use Rattle.std.specs.Prelude.{IsOk, IsOkUnless, None, OnErr, OnOk, Some, false, length, slice_get, ◌<◌, ◌≡◌};
ghost use Rattle.aarp.specs.Choosing.{wants};
ghost use Rattle.aarp.specs.declared.packet.Packet.{Packet as PacketValue};
ghost use Rattle.station.specs.Hearing.{hearing};
ghost use Rattle.station.specs.Lawful.{PutsOut};
ghost use Rattle.station.specs.Resolution.{answer_by, packet_at};
ghost use Rattle.router.specs.Answers.{heard_packet};
ghost use Rattle.router.specs.Resolution.{ports_after, resolved};

use crate::router::Router;
use aarp::Packet;
use at_base::Error;
use rtmp::RouteTable;
use station::frames::{read_packet, wire};
use station::{Heard, Outputs};

impl<T: RouteTable> Router<T> {
    /// The response of a port to an AARP packet, if there is one.
    fn answer_to(&self, port: u8, packet: &Packet) -> Option<Packet>
        ensures { result ≡ answer_by packet.now (slice_get self.now.ports port) }
    {
        match self.ports.as_slice().get(port as usize) {
            Some(chooser) => chooser.answer(packet),
            None => None,
        }
    }

    /// Passes a packet to a port's choice of its address: a port that is still choosing moves to
    /// its next address if the packet conflicts.
    fn choose(&mut self, port: u8, packet: &Packet)
        requires { port < length self.old.ports }
        ensures { self.new ≡ record self.old {
          ports
              = ports_after self.old.ports port (Some packet.now);
        } }
    {
        self.ports[port as usize].heard(packet);
    }

    /// Adds the response of a port to a packet, if there is one. Error: `Memory`; the outputs don't
    /// change then.
    fn put_answer(&self, port: u8, packet: &Packet, outputs: &mut Outputs) -> Result<(), Error>
        requires { port < length self.now.ports }
        ensures ok { OnOk result
            (PutsOut (length self.now.ports) outputs.old.items outputs.new.items (λ added.
            added ≡ resolved self.now.ports port (Some packet.now))) }
        // A packet that asks for no response needs no memory.
        ensures unasked { wants packet.now.function ≡ false → IsOk result }
        ensures refused { IsOkUnless result Error.Memory }
        ensures outputs_stay { OnErr result (outputs.new.items ≡ outputs.old.items) }
    {
        if let Some(sent) = self.answer_to(port, packet) {
            let output = wire(*self.ports.allocator(), port, &sent)?;
            outputs.room(1)?;
            outputs.add(output);
        }
        Ok(())
    }

    /// Receives an AARP frame on one of the ports. Bytes that don't begin with an AARP packet are
    /// ignored. Error: `Memory`; neither the router nor the outputs change then.
    ///
    /// Inside AppleTalk, the chapter on AARP.
    pub fn hear_packet(&mut self, heard: &Heard<'_>, outputs: &mut Outputs) -> Result<(), Error>
        requires { heard.now.port < length self.old.ports }
        ensures ok { OnOk result
            (PutsOut (length self.old.ports) outputs.old.items outputs.new.items (λ added.
            (added, self.new) ≡ heard_packet self.old (hearing heard.now))) }
        ensures ports_stay { length self.new.ports ≡ length self.old.ports }
        ensures no_packet { packet_at heard.now.bytes.now ≡ None → IsOk result }
        // A packet that asks for no response needs no memory.
        ensures unasked { (p : PacketValue) → packet_at heard.now.bytes.now ≡ Some p
            → wants p.function ≡ false → IsOk result }
        ensures refused { IsOkUnless result Error.Memory }
        ensures station_stays { OnErr result (self.new ≡ self.old) }
        ensures outputs_stay { OnErr result (outputs.new.items ≡ outputs.old.items) }
    {
        if let Some(packet) = read_packet(heard.bytes) {
            self.put_answer(heard.port, &packet, outputs)?;
            self.choose(heard.port, &packet);
        }
        Ok(())
    }
}
