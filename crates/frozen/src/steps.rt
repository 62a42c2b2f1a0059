//! The effects of a run's events on its cables and its stations.

ghost use Rattle.std.specs.Prelude.{◌≡◌, ◌<◌, ◌+◌, ◌↔◌, ◌⊎◌, false, length, slice_get, true};
ghost use Rattle.std.specs.Prelude.{IfErr, OnErr, OnOk, Some};
ghost use Rattle.std.specs.List.{list_any};
ghost use Rattle.cable_model.specs.Outcomes.{AreSeatsOf, is_named};
ghost use Rattle.end_node.specs.Holding.{NodeHolding};
ghost use Rattle.frozen.specs.Runs.{TakenFrom, ports_of};
ghost use Rattle.legal_runs.specs.Legs.{places_of};
ghost use Rattle.run_cables.specs.Wired.{AreStill, cabling_of, pending_for, take_room};
ghost use Rattle.station.specs.declared.member.Member.{Member as MemberValue};
ghost use Rattle.router.specs.Holding.{Holding};

use at_base::Error;
use end_node::EndNode;
use image_stations::Whereabouts;
use router::Router;
use rtmp::RouteTable;
use run_cables::Wiring;
use station::Member;

/// A station takes a frame.
///
/// Errors, in this order: `NotPending`; `Full` if there is room for fewer entries than a take may
/// need; `Memory`. After an error nothing has changed.
pub fn take<T: RouteTable>(
    wiring: &mut Wiring,
    stations: &mut Vec<Member<Router<T>, EndNode>>,
    places: &Whereabouts,
    stamp: u32,
    station: u16,
) -> Result<(), Error>
    requires still { AreStill wiring.old }
    requires there { station < length stations.old.items }
    requires seated { (m : MemberValue Holding NodeHolding)
        → slice_get stations.old.items station ≡ Some m
        → AreSeatsOf (cabling_of wiring.old).seats station (ports_of m) }
    ensures ok { OnOk result (TakenFrom (places_of places.now) stations.old.items wiring.old
        stamp station stations.new.items wiring.new) }
    ensures still { AreStill wiring.new }
    ensures limit { (cabling_of wiring.new).limit ≡ (cabling_of wiring.old).limit }
    ensures not_pending { (result ≡ Err Error.NotPending) ↔ (list_any (is_named stamp station)
        (pending_for wiring.old) ≡ false) }
    ensures full { (result ≡ Err Error.Full) ↔ ((list_any (is_named stamp station)
        (pending_for wiring.old) ≡ true)
        × ((cabling_of wiring.old).limit
        < length (cabling_of wiring.old).lines + take_room wiring.old)) }
    ensures refused { IfErr result (λ e. (e ≡ Error.NotPending) ⊎ (e ≡ Error.Full)
        ⊎ (e ≡ Error.Memory)) }
    ensures kept { OnErr result (wiring.new ≡ wiring.old) }
    ensures stations_stay { OnErr result (stations.new.items ≡ stations.old.items) }
{
    let taker = &mut stations[station as usize];
    wiring.take(places, stamp, station, taker)
}
