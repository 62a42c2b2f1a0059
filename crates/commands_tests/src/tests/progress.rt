//! The reports of each tick of a play.

use super::making::{EARLY, SMALL};
use at_base::Error;
use playing::{Progress, play, read_plan};
use rtmp::Routes;
use std::alloc::Global;
use world::World;

/// Counts the ticks, and whether the world's clock agrees.
#[derive(Drop)]
struct Counting {
    ticks: u32,
    agrees: bool,
}

impl Progress for Counting {
    fn passed(&mut self, world: &World<Routes>) {
        self.ticks = self.ticks.saturating_add(1);
        // The node sends a probe in the first tick.
        let has_lived = !world.transcript().is_empty();
        self.agrees = self.agrees && self.ticks <= world.plan().ticks() && has_lived;
    }
}

/// Whether so many ticks are told in the play of a text.
fn is_told(alloc: Global, text: &[u8], ticks: u32) -> Result<bool, Error> {
    let plan = match read_plan(alloc, text) {
        Ok(plan) => plan,
        Err(refused) => return Err(refused.error),
    };
    let mut counting = Counting {
        ticks: 0,
        agrees: true,
    };
    match play(alloc, plan, &mut counting, None) {
        Ok(_) => Ok(counting.agrees && counting.ticks == ticks),
        Err(error) => Err(error),
    }
}

/// Whether each tick is told, of a play of 30 and of one of a single tick.
pub(super) fn each_tick_is_told(alloc: Global) -> Result<bool, Error> {
    Ok(is_told(alloc, SMALL, 30)? && is_told(alloc, EARLY, 1)?)
}
