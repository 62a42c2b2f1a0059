//! The stations of a world before its first tick.

ghost use Rattle.std.specs.Prelude.{◌≡◌, [], map, IfOk, IsOkUnless};
ghost use Rattle.planned_stations.specs.Beginning.{AreBegun};
ghost use Rattle.planned_stations.specs.Planning.{planned_ports, ports_of};
ghost use Rattle.world.specs.Received.{AreReceived, got};

use at_base::Error;
use internet_file::Plan;
use live_node::LiveNode;
use live_router::LiveRouter;
use planned_stations::stations_of;
use rtmp::RouteTable;
use station::Member;
use std::alloc::Global;

/// The stations of a plan, which have received nothing. Error: `Memory`.
pub fn stations_begun<T: RouteTable>(
    alloc: Global,
    plan: &Plan,
) -> Result<Vec<Member<LiveRouter<T>, LiveNode>>, Error>
    ensures begun { IfOk result (λ stations. AreBegun plan.now stations.items) }
    ensures ports { IfOk result
        (λ stations. map ports_of stations.items ≡ planned_ports plan.now) }
    ensures received { IfOk result (λ stations. AreReceived [] (map got stations.items)) }
    ensures refused { IsOkUnless result Error.Memory }
{
    let stations = stations_of(alloc, plan)?;
    Ok(stations)
}
