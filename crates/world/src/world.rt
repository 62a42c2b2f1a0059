//! Worlds, and what can be read from them.

ghost use Rattle.std.specs.Prelude.{◌≡◌, ◌⊎◌, ◌↔◌, [], true, None, IfErr, IfOk, IsOkUnless};
ghost use Rattle.std.specs.Prelude.{map, option_copied};
ghost use Rattle.cable_model.specs.Logs.{bytes_at};
ghost use Rattle.internet_file.specs.Sound.{IsSound};
ghost use Rattle.live_cables.specs.Living.{happened};
ghost use Rattle.world.specs.Frozen as frozen_spec;
ghost use Rattle.planned_stations.specs.Beginning.{AreBegun};
ghost use Rattle.planned_stations.specs.Seating.{plan_seats};
ghost use Rattle.world.specs.Scheduling.{IsSchedule};
ghost use Rattle.world.specs.Seen as seen_spec;
ghost use Rattle.world.specs.Seen.{node_at};
ghost use Rattle.world.specs.Worlds.{IsWorld, max_entries, wires_begun};

use crate::beginning::stations_begun;
use crate::scheduling::schedule_of;
use crate::seen::node_by;
use at_base::{Error, Range};
use cable_model::{Entry, Seat};
use end_node::EndNode;
use freeze::{image_of, needs_version_2};
use internet_file::Plan;
use live_cables::LiveCables;
use live_node::LiveNode;
use live_router::LiveRouter;
use planned_stations::{ranges_of, seats_of};
use rtmp::RouteTable;
use station::Member;
use std::alloc::Global;
use std::marker::Model;
use table_image::{Image, Version};

/// The greatest number of entries in a world's transcript.
pub const MAX_ENTRIES: u32 = 4_000_000;

/// The greatest number of frames that are taken in a tick.
pub const MAX_TAKES: u32 = 10_000;

/// The internet of an internet file, with its current state.
#[derive(Drop)]
pub struct World<T: RouteTable> {
    pub(crate) plan: Plan,
    pub(crate) stations: Vec<Member<LiveRouter<T>, LiveNode>>,
    pub(crate) wires: LiveCables,
    // The indices of the actions that are still to come, the next one last.
    pub(crate) schedule: Vec<u32>,
    // The actions that had an error: the number of each action, from 1, and the number of its
    // error.
    pub(crate) refused: Vec<(u32, u8)>,
    // The number of ticks so far.
    pub(crate) passed: u32,
    // The error of the tick that failed, if one did.
    pub(crate) stopped: Option<Error>,
    pub(crate) alloc: Global,
}

impl<T: RouteTable> Model for World<T> {
    ghost use Rattle.world.specs.Keeping.{IsLaid};
    ghost use Rattle.world.specs.Worlds.{Worldly};

    ghost Value = { Worldly };

    ghost view = { λ w. record {
      plan = w.plan;
      stations = w.stations.items;
      wires = w.wires;
      now = w.passed;
      stopped = w.stopped;
      refused = w.refused.items;
      schedule = w.schedule.items;
    } };

    ghost invariant = { λ w. IsLaid (record {
      plan = w.plan;
      stations = w.stations.items;
      wires = w.wires;
      now = w.passed;
      stopped = w.stopped;
      refused = w.refused.items;
      schedule = w.schedule.items;
    }) };
}

/// A fact for the prover: every plan is sound. Does nothing.
fn recall_sound(plan: &Plan)
    ensures { IsSound plan.now }
{
    let _cables = plan.cables();
}

/// The cables of a plan with its seats, with an empty transcript. Error: `Memory`.
fn wires_by(
    alloc: Global,
    plan: &Plan,
    seats: &[Seat],
    ranges: &[Range],
) -> Result<LiveCables, Error>
    requires seats { seats.now ≡ plan_seats plan.now }
    requires ranges { ranges.now ≡ map (λ c. c.range) plan.now.cables }
    ensures ok { IfOk result (λ wires. wires ≡ wires_begun plan.now) }
    ensures refused { IsOkUnless result Error.Memory }
{
    recall_sound(plan);
    LiveCables::new(alloc, seats, ranges, MAX_ENTRIES)
}

/// The cables of a plan, with an empty transcript. Error: `Memory`.
fn wires_of(alloc: Global, plan: &Plan) -> Result<LiveCables, Error>
    ensures ok { IfOk result (λ wires. wires ≡ wires_begun plan.now) }
    ensures refused { IsOkUnless result Error.Memory }
{
    let seats = seats_of(alloc, plan)?;
    let ranges = ranges_of(alloc, plan.cables())?;
    wires_by(alloc, plan, seats.as_slice(), ranges.as_slice())
}

impl<T: RouteTable> World<T> {
    /// A world before its first tick, with the stations of a plan. Error: `Memory`.
    pub fn new(alloc: Global, plan: Plan) -> Result<World<T>, Error>
        ensures ok { IfOk result (λ w. (w.plan ≡ plan) × (w.now ≡ 0) × (w.stopped ≡ None)
            × (w.refused ≡ []) × (happened w.wires ≡ [])) }
        ensures wires { IfOk result (λ w. w.wires ≡ wires_begun plan) }
        ensures begun { IfOk result (λ w. AreBegun plan w.stations) }
        ensures scheduled { IfOk result (λ w. IsSchedule plan.actions w.schedule) }
        ensures limit { IfOk result (λ w. w.wires.cabling.limit ≡ max_entries) }
        ensures refused { IsOkUnless result Error.Memory }
    {
        recall_sound(&plan);
        let wires = wires_of(alloc, &plan)?;
        let stations = stations_begun(alloc, &plan)?;
        let schedule = schedule_of(alloc, plan.actions())?;
        Ok(World {
            plan,
            stations,
            wires,
            schedule,
            refused: Vec::new(alloc),
            passed: 0,
            stopped: None,
            alloc,
        })
    }

    /// The plan.
    pub fn plan(&self) -> &Plan
        ensures { result.now ≡ self.now.plan }
    {
        &self.plan
    }

    /// The transcript, in order. Stations are numbered from 0: the routers, then the nodes.
    /// Allocates nothing.
    pub fn transcript(&self) -> &[Entry]
        ensures value { result.now ≡ self.now.wires.cabling.lines }
        ensures lived { IsWorld self.now }
    {
        self.wires.transcript()
    }

    /// The bytes with a number that entries name; empty for any other number. Allocates nothing.
    pub fn bytes(&self, number: u32) -> &[u8]
        ensures { result.now ≡ bytes_at self.now.wires.cabling.kept number }
    {
        self.wires.bytes(number)
    }

    /// The index of the station of the node with this number, from 1.
    fn station_of(&self, number: u16) -> usize
        ensures { result ≡ seen_spec.station_of self.now number }
    {
        self.plan.routers().len() + (number as usize).saturating_sub(1)
    }

    /// The node with this number, from 1. Allocates nothing.
    pub fn node(&self, number: u16) -> Option<&EndNode>
        ensures value { option_copied result ≡ node_at self.now number }
        ensures lived { IsWorld self.now }
    {
        let stations = self.stations.as_slice();
        if number == 0 {
            return None;
        }
        node_by(stations, self.station_of(number))
    }

    /// The actions that had an error, in order: the number of each, from 1, and the number of its
    /// error. Allocates nothing.
    pub fn refused(&self) -> &[(u32, u8)]
        ensures { result.now ≡ self.now.refused }
    {
        self.refused.as_slice()
    }

    /// The image of the current tables, in a version of the format. An address that isn't settled
    /// is 0.0.
    ///
    /// Errors: `Full` for version 1 where a cable or a zone list has more than 64 names, whether or
    /// not there is memory; `Memory`.
    pub fn freeze_as(&self, version: Version) -> Result<Image, Error>
        ensures ok { IfOk result (λ image. image ≡ frozen_spec.frozen_as version self.now) }
        ensures full { (result ≡ Err Error.Full)
            ↔ ((version ≡ Version.V1) × (frozen_spec.needs_version_2 self.now ≡ true)) }
        ensures refused { IfErr result (λ e. (e ≡ Error.Full) ⊎ (e ≡ Error.Memory)) }
    {
        let stations = self.stations.as_slice();
        image_of(
            self.alloc,
            version,
            &self.plan,
            stations,
            self.wires.mappers(),
        )
    }

    /// The first version whose images can hold the current tables.
    fn least_version(&self) -> Version
        ensures { result ≡ frozen_spec.least_version self.now }
    {
        if needs_version_2(&self.plan, self.stations.as_slice()) {
            Version::V2
        } else {
            Version::V1
        }
    }

    /// The image of the current tables, in version 1 unless they need version 2. An address that
    /// isn't settled is 0.0. Error: `Memory`.
    pub fn freeze(&self) -> Result<Image, Error>
        ensures ok { IfOk result (λ image. image ≡ frozen_spec.frozen self.now) }
        ensures refused { IsOkUnless result Error.Memory }
    {
        self.freeze_as(self.least_version())
    }
}
