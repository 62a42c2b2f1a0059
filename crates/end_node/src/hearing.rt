//! Nodes as stations.

ghost use Rattle.std.specs.Prelude.{IfOk, IsOk, IsOkUnless, None, OnErr, OnOk, Some, ◌≡◌};
ghost use Rattle.aarp.specs.Choosing.{answer};
ghost use Rattle.end_node.specs.Answers.{Hears, Ticks, heard_packet};
ghost use Rattle.end_node.specs.Taking as spec;
ghost use Rattle.station.specs.Hearing.{hearing};
ghost use Rattle.station.specs.Lawful.{PutsOut};
ghost use Rattle.station.specs.Resolution.{packet_at, wired};
ghost use Rattle.station.specs.declared.heard.Kind.TheVariants.{Aarp, Ddp};

use crate::node::EndNode;
use aarp::Packet;
use at_base::Error;
use ddp::View;
use station::frames::{read_datagram, read_packet, wire};
use station::{Heard, Kind, Outputs, Station};

impl EndNode {
    /// Adds the response to an AARP packet, if there is one. Error: `Memory`; the outputs don't
    /// change then.
    fn put_answer(&self, packet: &Packet, outputs: &mut Outputs) -> Result<(), Error>
        ensures ok { OnOk result (PutsOut 1 outputs.old.items outputs.new.items (λ added.
            added ≡ wired 0 (answer self.now.port packet.now))) }
        ensures refused { IsOkUnless result Error.Memory }
        ensures outputs_stay { OnErr result (outputs.new.items ≡ outputs.old.items) }
    {
        if let Some(sent) = self.port.answer(packet) {
            let output = wire(*self.received.allocator(), 0, &sent)?;
            outputs.room(1)?;
            outputs.add(output);
        }
        Ok(())
    }

    /// Receives an AARP frame. Bytes that don't begin with an AARP packet are ignored. Error:
    /// `Memory`; neither the node nor the outputs change then.
    fn hear_packet(&mut self, bytes: &[u8], outputs: &mut Outputs) -> Result<(), Error>
        ensures ok { OnOk result (PutsOut 1 outputs.old.items outputs.new.items (λ added.
            (added, self.new) ≡ heard_packet self.old (packet_at bytes.now))) }
        ensures asks { OnOk result (self.new.asks ≡ self.old.asks) }
        ensures no_packet { packet_at bytes.now ≡ None → IsOk result }
        ensures refused { IsOkUnless result Error.Memory }
        ensures station_stays { OnErr result (self.new ≡ self.old) }
        ensures outputs_stay { OnErr result (outputs.new.items ≡ outputs.old.items) }
    {
        if let Some(packet) = read_packet(bytes) {
            self.put_answer(&packet, outputs)?;
            self.port.heard(&packet);
        }
        Ok(())
    }

    /// Receives a frame, as `Station::receive` does. Returns the datagram in the frame if the node
    /// accepts it as its own and its checksum is right. Error: `Memory`; neither the node nor the
    /// outputs change then.
    ///
    /// Inside AppleTalk, the chapters on DDP and AARP.
    pub fn hear<'a>(
        &mut self,
        heard: &Heard<'a>,
        outputs: &mut Outputs,
    ) -> Result<Option<View<'a>>, Error>
        ensures ok { OnOk result (PutsOut 1 outputs.old.items outputs.new.items
            (λ added. Hears self.old (hearing heard.now) added self.new)) }
        ensures taken { IfOk result (λ t. t ≡ spec.taken self.old (hearing heard.now)) }
        // What can't be read or isn't taken needs no memory.
        ensures ignored { heard.now.kind ≡ Ddp → spec.taken self.old (hearing heard.now) ≡ None
            → IsOk result }
        ensures no_packet { heard.now.kind ≡ Aarp → packet_at heard.now.bytes.now ≡ None
            → IsOk result }
        ensures refused { IsOkUnless result Error.Memory }
        ensures station_stays { OnErr result (self.new ≡ self.old) }
        ensures outputs_stay { OnErr result (outputs.new.items ≡ outputs.old.items) }
    {
        match heard.kind {
            Kind::Ddp => match read_datagram(heard.bytes) {
                Some(view) => self.hear_datagram(heard.link, view, outputs),
                None => Ok(None),
            },
            Kind::Aarp => {
                self.hear_packet(heard.bytes, outputs)?;
                Ok(None)
            }
        }
    }
}

impl Station for EndNode {
    ghost use Rattle.end_node.specs.Answers.{Hears, Ticks};

    ghost ports_of = { λ h. 1 };

    ghost hears = { Hears };

    ghost ticks = { Ticks };

    fn ports(&self) -> u8 {
        1
    }

    fn receive(&mut self, heard: &Heard<'_>, outputs: &mut Outputs) -> Result<(), Error> {
        match self.hear(heard, outputs) {
            Ok(_) => Ok(()),
            Err(error) => Err(error),
        }
    }

    /// Does nothing: time changes no tables that are frozen.
    fn tick(&mut self, outputs: &mut Outputs) -> Result<(), Error>
        ensures ok { OnOk result (PutsOut 1 outputs.old.items outputs.new.items
            (λ added. Ticks self.old added self.new)) }
        ensures never { IsOk result }
        ensures refused { IsOkUnless result Error.Memory }
        ensures station_stays { OnErr result (self.new ≡ self.old) }
        ensures outputs_stay { OnErr result (outputs.new.items ≡ outputs.old.items) }
    {
        Ok(())
    }
}
