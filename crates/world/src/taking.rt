//! The stations of a world take frames.

ghost use Rattle.std.specs.Prelude.{◌≡◌, ◌⊎◌, ◌↔◌, ◌<◌, ℕ, [], false, length, map, true};
ghost use Rattle.std.specs.Prelude.{IfErr, IfOk, OnErr, OnOk};
ghost use Rattle.std.specs.List.{list_any};
ghost use Rattle.cable_model.specs.Outcomes.{is_named};
ghost use Rattle.cable_model.specs.Transcript.{one};
ghost use Rattle.live_cables.specs.Living.{IsLossRefused, happened};
ghost use Rattle.live_cables.specs.Steps.{HasNoRoom, most_taken};
ghost use Rattle.planned_stations.specs.Planning.{AreSeated, ports_of};
ghost use Rattle.world.specs.Going.{Did, Ends, AddsIfNumbered, GoesOn};
ghost use Rattle.world.specs.Received.{AreReceived, got};
ghost use Rattle.world.specs.Stopping.{AreTaking, MayTake};
ghost use Rattle.world.specs.Taking.{AreTaken, IsTaken, IsTaker};
ghost use Rattle.cable_model.specs.Logs.{pending_on};

use at_base::Error;
use live_cables::LiveCables;
use live_node::LiveNode;
use live_router::LiveRouter;
use rtmp::RouteTable;
use station::Member;

/// A station takes a frame. Errors: `NotPending`, `Full`, `Memory`.
fn take<T: RouteTable>(
    stations: &mut Vec<Member<LiveRouter<T>, LiveNode>>,
    wires: &mut LiveCables,
    stamp: u32,
    station: u16,
) -> Result<(), Error>
    requires there { station < length stations.old.items }
    requires seated { AreSeated wires.old.cabling.seats (map ports_of stations.old.items) }
    ensures ports { map ports_of stations.new.items ≡ map ports_of stations.old.items }
    ensures goes { AddsIfNumbered wires.old wires.new }
    ensures done { OnOk result (GoesOn 1 wires.old wires.new) }
    ensures taken { OnOk result (IsTaker stamp station stations.old.items stations.new.items
        wires.old wires.new) }
    ensures stopped { IfErr result (λ e. ((stations.new.items ≡ stations.old.items)
        × (wires.new ≡ wires.old))
        ⊎ (IsTaker stamp station stations.old.items stations.new.items wires.old wires.new
        × IsLossRefused e wires.old wires.new)) }
    ensures received { AreReceived (happened wires.old) (map got stations.old.items)
        → AreReceived (happened wires.new) (map got stations.new.items) }
    ensures not_pending { (result ≡ Err Error.NotPending) ↔ (list_any (is_named stamp station)
        (pending_on wires.old.cabling) ≡ false) }
    ensures full { (result ≡ Err Error.Full) → HasNoRoom most_taken wires.new.cabling }
    ensures no_room { list_any (is_named stamp station) (pending_on wires.old.cabling) ≡ true
        → HasNoRoom most_taken wires.old.cabling → result ≡ Err Error.Full }
    ensures refused { IfErr result (λ e. (e ≡ Error.NotPending) ⊎ (e ≡ Error.Full)
        ⊎ (e ≡ Error.Memory)) }
{
    let taker = &mut stations[station as usize];
    wires.take(stamp, station, taker)
}

/// Takes the frame with the lowest pending stamp, by the lowest station for which it is pending.
/// Returns whether a frame was pending. Errors: `Full`, `Memory`.
fn take_first<T: RouteTable>(
    stations: &mut Vec<Member<LiveRouter<T>, LiveNode>>,
    wires: &mut LiveCables,
) -> Result<bool, Error>
    requires { AreSeated wires.old.cabling.seats (map ports_of stations.old.items) }
    ensures ports { map ports_of stations.new.items ≡ map ports_of stations.old.items }
    ensures goes { AddsIfNumbered wires.old wires.new }
    ensures took { IfOk result (λ was_one. GoesOn (one was_one) wires.old wires.new) }
    ensures taken { IfOk result (λ was_one. was_one ≡ true
        → IsTaken stations.old.items stations.new.items wires.old wires.new) }
    ensures stopped { IfErr result (λ e.
        MayTake e stations.old.items stations.new.items wires.old wires.new) }
    ensures stay { IfOk result (λ was_one. was_one ≡ false
        → (stations.new.items ≡ stations.old.items) × (wires.new ≡ wires.old)) }
    ensures none { IfOk result (λ was_one. was_one ≡ false
        → pending_on wires.new.cabling ≡ []) }
    ensures received { AreReceived (happened wires.old) (map got stations.old.items)
        → AreReceived (happened wires.new) (map got stations.new.items) }
    ensures full { (result ≡ Err Error.Full) → HasNoRoom most_taken wires.new.cabling }
    ensures refused { IfErr result (λ e. (e ≡ Error.Full) ⊎ (e ≡ Error.Memory)) }
{
    match wires.first() {
        Some((stamp, station)) => match take(stations, wires, stamp, station) {
            Ok(()) => Ok(true),
            Err(error) => Err(error),
        },
        None => Ok(false),
    }
}

/// Takes frames until none is pending or `most` were taken. Errors: `Full`, `Memory`.
pub fn take_all<T: RouteTable>(
    stations: &mut Vec<Member<LiveRouter<T>, LiveNode>>,
    wires: &mut LiveCables,
    most: u32,
) -> Result<(), Error>
    requires { AreSeated wires.old.cabling.seats (map ports_of stations.old.items) }
    ensures ports { map ports_of stations.new.items ≡ map ports_of stations.old.items }
    ensures did { Did (Ends most wires.old wires.new) most_taken wires.old wires.new result }
    ensures taken { OnOk result ((n : ℕ) × AreTaken n stations.old.items stations.new.items
        wires.old wires.new) }
    ensures stopped { IfErr result (λ e. AreTaking e most stations.old.items stations.new.items
        wires.old wires.new) }
    ensures received { AreReceived (happened wires.old) (map got stations.old.items)
        → AreReceived (happened wires.new) (map got stations.new.items) }
{
    for _step in 0..most {
        match take_first(stations, wires) {
            Ok(true) => {}
            Ok(false) => return Ok(()),
            Err(error) => return Err(error),
        }
    }
    Ok(())
}
