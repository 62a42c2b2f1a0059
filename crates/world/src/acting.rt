//! Carries out the actions of a world's nodes.

ghost use Rattle.std.specs.Prelude.{◌≡◌, ◌⊎◌, ◌<◌, ◌≤◌, ◌++◌, ◌∷◌, ℕ, [], length};
ghost use Rattle.std.specs.Prelude.{IfErr, IfNone, IfSome, IsOkUnless, OnErr, OnOk, Ok, Err, Some};
ghost use Rattle.at_base.specs.ErrorNumber.{number_of};
ghost use Rattle.station.specs.Lawful.{AreLawful};
ghost use Rattle.world.specs.Acting.{AreDone, IsOver, KeepsFirst, tick_of};
ghost use Rattle.world.specs.Doing.{IsDone, acted, acted_by, number_from, station_for};
ghost use Rattle.world.specs.Going.{Did, GoesOn};
ghost use Rattle.world.specs.Stopping.{AreActing, StopsAction};

use at_base::Error;
use internet_file::{Action, Do, Plan};
use live_cables::LiveCables;
use live_node::LiveNode;
use live_router::LiveRouter;
use rtmp::RouteTable;
use station::{Member, Outputs};

/// Carries out a node's operation, and appends the datagrams that it sends to `outputs`.
fn act(node: &LiveNode, action: &Do, outputs: &mut Outputs) -> Result<(), Error>
    requires { outputs.old.items ≡ [] }
    ensures acted { OnOk result (acted node.now action.now ≡ Ok outputs.new.items) }
    ensures refused { IfErr result
        (λ e. (acted node.now action.now ≡ Err e) ⊎ (e ≡ Error.Memory)) }
    ensures lawful { OnOk result (AreLawful 1 outputs.new.items) }
{
    match action {
        Do::Send {
            to,
            socket,
            source,
            kind,
            hex,
        } => node.send(*to, *socket, *source, *kind, false, hex.as_slice(), outputs),
        Do::Lookup {
            id,
            object,
            kind,
            zone,
        } => node.lookup((*id % 256) as u8, object, kind, zone, outputs),
    }
}

/// Carries out a station's operation if the station is a node, and appends the datagrams that it
/// sends to `outputs`.
fn act_by<T: RouteTable>(
    station: &Member<LiveRouter<T>, LiveNode>,
    action: &Do,
    outputs: &mut Outputs,
) -> Result<(), Error>
    requires { outputs.old.items ≡ [] }
    ensures acted { OnOk result (acted_by station.now action.now ≡ Ok outputs.new.items) }
    ensures refused { IfErr result
        (λ e. (acted_by station.now action.now ≡ Err e) ⊎ (e ≡ Error.Memory)) }
    ensures lawful { OnOk result (AreLawful 1 outputs.new.items) }
{
    match station {
        Member::Node(node) => act(node, action, outputs),
        Member::Router(_) => Ok(()),
    }
}

/// Records the error of the action with this index from 0. Error: `Memory`.
fn note(refused: &mut Vec<(u32, u8)>, index: u32, error: Error) -> Result<(), Error>
    ensures noted { OnOk result
        (refused.new.items ≡ refused.old.items ++ (number_from index, number_of error) ∷ []) }
    ensures memory { error ≡ Error.Memory → result ≡ Err Error.Memory }
    ensures keeps { KeepsFirst refused.old.items refused.new.items }
    ensures stays { OnErr result (refused.new.items ≡ refused.old.items) }
    ensures refused { IsOkUnless result Error.Memory }
{
    match error {
        Error::Memory => Err(Error::Memory),
        error => {
            refused.push((index.saturating_add(1), error.number()))?;
            Ok(())
        }
    }
}

/// The index of the station of an action's node.
fn station_of(plan: &Plan, action: &Action) -> usize
    ensures { result ≡ station_for plan.now action.now }
{
    plan.routers().len() + (action.node as usize).saturating_sub(1)
}

/// Carries out the action with this index, and records its error if it has one. Errors: `Full`,
/// `Memory`.
fn act_one<T: RouteTable>(
    plan: &Plan,
    stations: &[Member<LiveRouter<T>, LiveNode>],
    wires: &mut LiveCables,
    refused: &mut Vec<(u32, u8)>,
    index: u32,
) -> Result<(), Error>
    requires { length stations.now ≤ 400 }
    ensures is_done { OnOk result (IsDone plan.now stations.now index
        (wires.old, refused.old.items) (wires.new, refused.new.items)) }
    ensures stays { OnErr result (refused.new.items ≡ refused.old.items) }
    ensures stopped { IfErr result (λ e.
        StopsAction e plan.now stations.now index wires.old wires.new) }
    ensures keeps { KeepsFirst refused.old.items refused.new.items }
    ensures did { Did (GoesOn 0 wires.old wires.new) 5 wires.old wires.new result }
{
    let Some(action) = plan.actions().get(index as usize) else {
        return Ok(());
    };
    let station = station_of(plan, action);
    let Some(member) = stations.get(station) else {
        return Ok(());
    };
    let mut outputs = Outputs::new(*refused.allocator())?;
    match act_by(member, &action.action, &mut outputs) {
        Ok(()) => {}
        Err(error) => return note(refused, index, error),
    }
    wires.give(station as u16, &mut outputs)
}

/// Removes the next action from the schedule, if its tick is this one.
fn next_due(schedule: &mut Vec<u32>, actions: &[Action], now: u32) -> Option<u32>
    ensures last { IfSome result
        (λ index. schedule.old.items ≡ schedule.new.items ++ index ∷ []) }
    ensures due { IfSome result (λ index. tick_of actions.now index ≡ Some now) }
    ensures none { IfNone result (schedule.new.items ≡ schedule.old.items) }
    ensures over { IfNone result (IsOver actions.now now schedule.old.items) }
    ensures fewer { IfSome result (λ index. length schedule.new.items < length schedule.old.items) }
{
    let index = *schedule.last()?;
    let action = actions.get(index as usize)?;
    if action.at != now {
        return None;
    }
    schedule.pop()
}

/// Carries out the actions of a tick, in the order of the schedule, whose last element is the next
/// action. Errors: `Full`, `Memory`.
pub fn act_all<T: RouteTable>(
    plan: &Plan,
    stations: &[Member<LiveRouter<T>, LiveNode>],
    wires: &mut LiveCables,
    refused: &mut Vec<(u32, u8)>,
    schedule: &mut Vec<u32>,
    now: u32,
) -> Result<(), Error>
    requires { length stations.now ≤ 400 }
    ensures are_done { OnOk result ((actions : ℕ) × AreDone plan.now stations.now now actions
        schedule.old.items schedule.new.items
        (wires.old, refused.old.items) (wires.new, refused.new.items)) }
    ensures stopped { IfErr result (λ e. AreActing e plan.now stations.now now
        schedule.old.items schedule.new.items
        (wires.old, refused.old.items) (wires.new, refused.new.items)) }
    ensures keeps { KeepsFirst refused.old.items refused.new.items }
    ensures did { Did (GoesOn 0 wires.old wires.new) 5 wires.old wires.new result }
{
    while let Some(index) = next_due(schedule, plan.actions(), now) {
        match act_one(plan, stations, wires, refused, index) {
            Ok(()) => {}
            Err(error) => return Err(error),
        }
    }
    Ok(())
}
