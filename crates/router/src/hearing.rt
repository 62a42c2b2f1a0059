//! Routers as stations.

ghost use Rattle.std.specs.Prelude.{length, IsOk, IsOkUnless, OnErr, OnOk, ◌≡◌};
ghost use Rattle.router.specs.Answers.{Ticks};
ghost use Rattle.station.specs.Lawful.{PutsOut};

use crate::router::Router;
use at_base::Error;
use rtmp::RouteTable;
use station::frames::read_datagram;
use station::{Heard, Kind, Outputs, Station};

impl<T: RouteTable> Station for Router<T> {
    ghost use Rattle.std.specs.Prelude.{length};
    ghost use Rattle.router.specs.Answers.{Hears, Ticks};

    ghost ports_of = { λ h. length h.ports };

    ghost hears = { Hears };

    ghost ticks = { Ticks };

    fn ports(&self) -> u8 {
        self.ports.len() as u8
    }

    fn receive(&mut self, heard: &Heard<'_>, outputs: &mut Outputs) -> Result<(), Error> {
        match heard.kind {
            Kind::Ddp => match read_datagram(heard.bytes) {
                Some(view) => self.hear_datagram(heard, &view, outputs),
                None => Ok(()),
            },
            Kind::Aarp => self.hear_packet(heard, outputs),
        }
    }

    /// Does nothing: time changes no tables that are frozen.
    fn tick(&mut self, outputs: &mut Outputs) -> Result<(), Error>
        ensures ok { OnOk result (PutsOut (length self.old.ports) outputs.old.items outputs.new.items
            (λ added. Ticks self.old added self.new)) }
        ensures never { IsOk result }
        ensures ports_stay { length self.new.ports ≡ length self.old.ports }
        ensures refused { IsOkUnless result Error.Memory }
        ensures station_stays { OnErr result (self.new ≡ self.old) }
        ensures outputs_stay { OnErr result (outputs.new.items ≡ outputs.old.items) }
    {
        Ok(())
    }
}
