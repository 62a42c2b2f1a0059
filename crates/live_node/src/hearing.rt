//! Live nodes as stations.

use crate::live::LiveNode;
use at_base::Error;
use station::{Heard, Outputs, Station};

impl Station for LiveNode {
    ghost use Rattle.live_node.specs.Living.{LiveHears};
    ghost use Rattle.live_node.specs.Ticking.{LiveTicks};

    ghost ports_of = { λ l. 1 };

    ghost hears = { LiveHears };

    ghost ticks = { LiveTicks };

    fn ports(&self) -> u8 {
        1
    }

    fn receive(&mut self, heard: &Heard<'_>, outputs: &mut Outputs) -> Result<(), Error> {
        let taken = self.node.hear(heard, outputs)?;
        self.learn(&taken);
        Ok(())
    }

    fn tick(&mut self, outputs: &mut Outputs) -> Result<(), Error> {
        match self.node.own() {
            Some(own) => self.tick_settled(own, outputs),
            None => self.tick_choosing(outputs),
        }
    }
}
