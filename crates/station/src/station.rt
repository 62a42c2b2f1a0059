//! The trait of stations.

ghost use Rattle.std.specs.Prelude.{◌≡◌, ◌<◌, None, IsOk, IsSome, OnErr, OnOk, IsOkUnless};
ghost use Rattle.station.specs.Lawful.{PutsOut};

use crate::heard::Heard;
use crate::outputs::Outputs;
use at_base::Error;

/// A station: a router or a node, with ports on cables.
pub trait Station: Drop {
    ghost use Rattle.std.specs.Prelude.{List, ℕ};
    ghost use Rattle.station.specs.Hearing.{Hearing, hearing};
    ghost use Rattle.station.specs.Resolution.{packet_at, response_in};
    ghost use Rattle.station.specs.Values.{datagram_at};
    ghost use Rattle.station.specs.declared.heard.Kind.TheVariants.{Aarp, Ddp};
    ghost use Rattle.station.specs.declared.output.Output.{Output as OutputValue};

    // The number of the station's ports.
    ghost ports_of: { Self → ℕ };

    // The outputs for a frame that is received, and the station after it.
    ghost hears: { Self → Hearing → List OutputValue → Self → Type 0 };

    // The outputs of a tick, and the station after it.
    ghost ticks: { Self → List OutputValue → Self → Type 0 };

    /// The number of ports, at most 16. Allocates nothing.
    fn ports(&self) -> u8
        ensures { result ≡ ports_of self.now };

    /// Receives a frame on one of its ports, and adds the outputs that follow. A frame that it
    /// can't read is ignored, and so is one for which its own tables have no room. No outputs
    /// follow an AARP response. Error: `Memory`; neither the station nor the outputs change then.
    fn receive(&mut self, heard: &Heard<'_>, outputs: &mut Outputs) -> Result<(), Error>
        requires port { heard.now.port < ports_of self.old }
        ensures ok { OnOk result (PutsOut (ports_of self.old) outputs.old.items outputs.new.items
            (λ added. hears self.old (hearing heard.now) added self.new)) }
        ensures quiet { IsSome (response_in (hearing heard.now))
            → outputs.new.items ≡ outputs.old.items }
        ensures ports_stay { ports_of self.new ≡ ports_of self.old }
        // What can't be read needs no memory.
        ensures no_datagram { heard.now.kind ≡ Ddp → datagram_at heard.now.bytes.now ≡ None
            → IsOk result }
        ensures no_packet { heard.now.kind ≡ Aarp → packet_at heard.now.bytes.now ≡ None
            → IsOk result }
        ensures refused { IsOkUnless result Error.Memory }
        ensures station_stays { OnErr result (self.new ≡ self.old) }
        ensures outputs_stay { OnErr result (outputs.new.items ≡ outputs.old.items) };

    /// Advances the station by one tick, a fifth of a second. Error: `Memory`; neither the station
    /// nor the outputs change then.
    fn tick(&mut self, outputs: &mut Outputs) -> Result<(), Error>
        ensures ok { OnOk result (PutsOut (ports_of self.old) outputs.old.items outputs.new.items
            (λ added. ticks self.old added self.new)) }
        ensures ports_stay { ports_of self.new ≡ ports_of self.old }
        ensures refused { IsOkUnless result Error.Memory }
        ensures station_stays { OnErr result (self.new ≡ self.old) }
        ensures outputs_stay { OnErr result (outputs.new.items ≡ outputs.old.items) };
}
