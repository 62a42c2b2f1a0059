//! A tick of a world.

ghost use Rattle.std.specs.Prelude.{◌≡◌, ◌<◌, ◌≤◌, ◌+◌, ◌⊎◌, IfErr, None, OnOk, Some};
ghost use Rattle.cable_model.specs.Transcript.{ArePutOnce};
ghost use Rattle.live_cables.specs.Living.{happened};
ghost use Rattle.live_cables.specs.Steps.{HasNoRoom, most_taken};
ghost use Rattle.world.specs.Acting.{KeepsFirst};
ghost use Rattle.world.specs.Stopping.{StopsTick};
ghost use Rattle.world.specs.Ticking.{IsTick};
ghost use Rattle.world.specs.Worlds.{Ticks, TicksOn};
ghost use Rattle.world.specs.Ended.{Over, Stops, Ticked};

use crate::losing::losing_at;
use crate::phases::run_phases;
use crate::world::World;
use at_base::Error;
use live_cables::LiveCables;
use rtmp::RouteTable;

/// A fact for the prover: no two frames have the same stamp. Does nothing.
fn recall_once(wires: &LiveCables)
    ensures { ArePutOnce (happened wires.now) }
{
    let _lines = wires.transcript();
}

impl<T: RouteTable> World<T> {
    /// Carries out the current tick. Errors: `Full`, `Memory`.
    fn run_tick(&mut self) -> Result<(), Error>
        ensures plan { self.new.plan ≡ self.old.plan }
        ensures now { self.new.now ≡ self.old.now }
        ensures stopped { self.new.stopped ≡ self.old.stopped }
        ensures ticks { Ticks self.old.plan self.old.now self.old.wires self.new.wires }
        ensures ticks_on { OnOk result
            (TicksOn self.old.plan self.old.now self.old.wires self.new.wires) }
        ensures plays { OnOk result (IsTick self.old self.new) }
        ensures steps_stay { IfErr result (λ e. StopsTick e self.old self.new) }
        ensures keeps { KeepsFirst self.old.refused self.new.refused }
        ensures full { (result ≡ Err Error.Full) → HasNoRoom most_taken self.new.wires.cabling }
        ensures refused { IfErr result (λ e. (e ≡ Error.Full) ⊎ (e ≡ Error.Memory)) }
    {
        let losing = match losing_at(self.alloc, &self.plan, self.passed) {
            Ok(losing) => losing,
            Err(error) => return Err(error),
        };
        self.wires.set_losing(losing);
        let played = run_phases(
            &self.plan,
            &mut self.stations,
            &mut self.wires,
            &mut self.refused,
            &mut self.schedule,
            self.passed,
        );
        recall_once(&self.wires);
        played
    }

    /// Carries out the next tick, if the plan has one. Errors: `Full`, `Memory`.
    fn next_tick(&mut self) -> Result<(), Error>
        ensures plan { self.new.plan ≡ self.old.plan }
        ensures now { OnOk result (self.new.now ≡ self.old.now + 1) }
        ensures began { self.old.now < self.old.plan.ticks → self.new.now ≡ self.old.now + 1 }
        ensures stopped { self.new.stopped ≡ self.old.stopped }
        ensures over { self.old.plan.ticks ≤ self.old.now → result ≡ Err Error.Full }
        ensures over_stays { self.old.plan.ticks ≤ self.old.now → self.new ≡ self.old }
        ensures ticked { Ticked self.old self.new result }
        ensures full { (result ≡ Err Error.Full)
            → (self.old.plan.ticks ≤ self.old.now) ⊎ HasNoRoom most_taken self.new.wires.cabling }
        ensures refused { IfErr result (λ e. (e ≡ Error.Full) ⊎ (e ≡ Error.Memory)) }
    {
        if self.passed >= self.plan.ticks() {
            return Err(Error::Full);
        }
        self.passed += 1;
        self.run_tick()
    }

    /// Carries out a tick: first each station, in order, and the mappings of its ports advance;
    /// then the actions of this tick are carried out; then frames are taken, each time the lowest
    /// pending stamp by the lowest station, until none is pending or 10,000 were taken.
    ///
    /// Errors: `Full` after the plan's last tick, or if the transcript has no room; `Memory`. What
    /// was done before the error stays done, and each later tick returns the same error.
    pub fn tick(&mut self) -> Result<(), Error>
        ensures now { OnOk result (self.new.now ≡ self.old.now + 1) }
        // A tick that fails midway counts too.
        ensures began { self.old.stopped ≡ None → self.old.now < self.old.plan.ticks
            → self.new.now ≡ self.old.now + 1 }
        ensures plan { self.new.plan ≡ self.old.plan }
        ensures over { Over self.old self.new result }
        ensures stops { Stops self.old self.new result }
        ensures ticked { Ticked self.old self.new result }
        ensures refused { IfErr result (λ e.
            (self.old.stopped ≡ Some e) ⊎ (e ≡ Error.Full) ⊎ (e ≡ Error.Memory)) }
    {
        if let Some(error) = self.stopped {
            return Err(error);
        }
        match self.next_tick() {
            Ok(()) => Ok(()),
            Err(error) => {
                self.stopped = Some(error);
                Err(error)
            }
        }
    }
}
