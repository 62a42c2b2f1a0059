//! The phases of a tick.

ghost use Rattle.std.specs.Prelude.{◌≡◌, ◌≤◌, length, map, IfErr, OnErr, OnOk};
ghost use Rattle.live_cables.specs.Living.{happened};
ghost use Rattle.live_cables.specs.Steps.{most_taken};
ghost use Rattle.planned_stations.specs.Planning.{AreSeated, ports_of};
ghost use Rattle.world.specs.Acting.{KeepsFirst};
ghost use Rattle.world.specs.Going.{Did, Ends, GoesOn};
ghost use Rattle.world.specs.Received.{AreReceived, got};
ghost use Rattle.world.specs.Stopping.{StopsBefore, StopsIn};
ghost use Rattle.world.specs.Ticking.{Begins, Plays};
ghost use Rattle.world.specs.Worlds.{max_takes};

use crate::acting::act_all;
use crate::station_ticks::tick_all;
use crate::taking::take_all;
use crate::world::MAX_TAKES;
use at_base::Error;
use internet_file::Plan;
use live_cables::LiveCables;
use live_node::LiveNode;
use live_router::LiveRouter;
use rtmp::RouteTable;
use station::Member;

/// Advances all stations by a tick, and carries out the actions of that tick. Errors: `Full`,
/// `Memory`.
fn before_takings<T: RouteTable>(
    plan: &Plan,
    stations: &mut Vec<Member<LiveRouter<T>, LiveNode>>,
    wires: &mut LiveCables,
    refused: &mut Vec<(u32, u8)>,
    schedule: &mut Vec<u32>,
    now: u32,
) -> Result<(), Error>
    requires { length stations.old.items ≤ 400 }
    ensures ports { map ports_of stations.new.items ≡ map ports_of stations.old.items }
    ensures got { map got stations.new.items ≡ map got stations.old.items }
    ensures keeps { KeepsFirst refused.old.items refused.new.items }
    ensures did { Did (GoesOn 0 wires.old wires.new) 5 wires.old wires.new result }
    ensures begins { OnOk result (Begins plan.now now stations.old.items stations.new.items
        wires.old wires.new refused.old.items refused.new.items
        schedule.old.items schedule.new.items) }
    ensures stopped { IfErr result (λ e. StopsBefore e plan.now now
        stations.old.items stations.new.items wires.old wires.new
        refused.old.items refused.new.items schedule.old.items schedule.new.items) }
{
    match tick_all(*refused.allocator(), stations, wires) {
        Ok(()) => {}
        Err(error) => return Err(error),
    }
    act_all(plan, stations.as_slice(), wires, refused, schedule, now)
}

/// The phases of a tick: all stations advance, the actions of the tick are carried out, and frames
/// are taken. Errors: `Full`, `Memory`.
pub fn run_phases<T: RouteTable>(
    plan: &Plan,
    stations: &mut Vec<Member<LiveRouter<T>, LiveNode>>,
    wires: &mut LiveCables,
    refused: &mut Vec<(u32, u8)>,
    schedule: &mut Vec<u32>,
    now: u32,
) -> Result<(), Error>
    requires few { length stations.old.items ≤ 400 }
    requires seated { AreSeated wires.old.cabling.seats (map ports_of stations.old.items) }
    ensures ports { map ports_of stations.new.items ≡ map ports_of stations.old.items }
    ensures keeps { KeepsFirst refused.old.items refused.new.items }
    ensures did { Did (Ends max_takes wires.old wires.new) most_taken wires.old wires.new result }
    ensures plays { OnOk result (Plays plan.now now stations.old.items stations.new.items
        wires.old wires.new refused.old.items refused.new.items
        schedule.old.items schedule.new.items) }
    ensures stopped { IfErr result (λ e. StopsIn e plan.now now
        stations.old.items stations.new.items wires.old wires.new
        refused.old.items refused.new.items schedule.old.items schedule.new.items) }
    ensures received { AreReceived (happened wires.old) (map got stations.old.items)
        → AreReceived (happened wires.new) (map got stations.new.items) }
{
    match before_takings(plan, stations, wires, refused, schedule, now) {
        Ok(()) => {}
        Err(error) => return Err(error),
    }
    take_all(stations, wires, MAX_TAKES)
}
