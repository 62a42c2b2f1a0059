//! The image of the contents of a plan's stations.

ghost use Rattle.std.specs.Prelude.{◌≡◌, ◌⊎◌, ◌↔◌, drop, length, map, true};
ghost use Rattle.std.specs.Prelude.{IfErr, IfOk, IsOkUnless};
ghost use Rattle.std.specs.List.{AllByRecursion as Each, list_any};
ghost use Rattle.at_base.specs.Spelling.{IsValue};
ghost use Rattle.freeze.specs.Frozen as spec;
ghost use Rattle.freeze.specs.Frozen.{frozen_in, frozen_nodes, frozen_of, frozen_routers};
ghost use Rattle.freeze.specs.Frozen.{has_long_list, is_long, seats_after};
ghost use Rattle.freeze.specs.Valid.{AreFew, AreNodes, AreRouters, IsNotInV1};
ghost use Rattle.internet_file.specs.Sound.{IsSound};
ghost use Rattle.planned_stations.specs.Planning.{planned_ports, ports_of};
ghost use Rattle.table_image.specs.Spelling.{cable_spelling};
ghost use Rattle.table_image.specs.declared.version.Version.{Version as VersionValue};

use crate::mappings::after;
use crate::needs::needs_version_2;
use crate::tables::{cables_of, nodes_of, routers_of};
use aarp::Mapper;
use at_base::Error;
use internet_file::{Plan, Router};
use live_node::LiveNode;
use live_router::LiveRouter;
use planned_stations::{nodes_in, routers_in};
use rtmp::RouteTable;
use station::Member;
use std::alloc::Global;
use table_image::{Image, Version};

/// A fact for the prover: every plan is sound. Does nothing.
pub(crate) fn recall_sound(plan: &Plan)
    ensures { IsSound plan.now }
{
    let _cables = plan.cables();
}

/// The routers of a plan, with the contents of its stations. Error: `Memory`.
fn routers_by<T: RouteTable>(
    alloc: Global,
    version: Version,
    plan: &Plan,
    stations: &[Member<LiveRouter<T>, LiveNode>],
    mappers: &[Mapper],
) -> Result<Vec<table_image::Router>, Error>
    requires { map ports_of stations.now ≡ planned_ports plan.now }
    ensures ok { IfOk result (λ frozen. frozen.items
        ≡ frozen_routers version plan.now.routers stations.now mappers.now) }
    ensures valid { IsNotInV1 version (list_any has_long_list stations.now) → AreFew mappers.now
        → IfOk result (λ frozen. AreRouters version (length plan.now.cables) frozen.items) }
    ensures refused { IsOkUnless result Error.Memory }
{
    recall_sound(plan);
    routers_of(alloc, version, routers_in(plan), stations, mappers)
}

/// The stations of a plan's nodes.
fn node_stations<'a, T: RouteTable>(
    plan: &Plan,
    stations: &'a [Member<LiveRouter<T>, LiveNode>],
) -> &'a [Member<LiveRouter<T>, LiveNode>]
    requires { map ports_of stations.now ≡ planned_ports plan.now }
    ensures { result.now ≡ drop (length plan.now.routers) stations.now }
{
    &stations[plan.routers().len()..]
}

/// The mappers of the seats after those of routers.
fn node_mappers<'a>(planned: &[Router], mappers: &'a [Mapper]) -> &'a [Mapper]
    ensures after { result.now ≡ seats_after planned.now mappers.now }
    ensures few { AreFew mappers.now → AreFew result.now }
{
    match planned {
        [] => mappers,
        [router, rest @ ..] => node_mappers(rest, after(mappers, router.port.len())),
    }
}

/// The nodes of a plan, with the contents of its stations. Error: `Memory`.
fn nodes_by<T: RouteTable>(
    alloc: Global,
    version: Version,
    plan: &Plan,
    stations: &[Member<LiveRouter<T>, LiveNode>],
    mappers: &[Mapper],
) -> Result<Vec<table_image::Node>, Error>
    requires { map ports_of stations.now ≡ planned_ports plan.now }
    ensures ok { IfOk result (λ frozen. frozen.items ≡ frozen_nodes version plan.now.nodes
        (drop (length plan.now.routers) stations.now)
        (seats_after plan.now.routers mappers.now)) }
    ensures valid { AreFew mappers.now
        → IfOk result (λ frozen. AreNodes version (length plan.now.cables) frozen.items) }
    ensures refused { IsOkUnless result Error.Memory }
{
    recall_sound(plan);
    let mappers = node_mappers(routers_in(plan), mappers);
    nodes_of(
        alloc,
        version,
        nodes_in(plan),
        node_stations(plan, stations),
        mappers,
    )
}

/// The cables of a plan. Error: `Memory`.
pub(crate) fn cables_by(alloc: Global, plan: &Plan) -> Result<Vec<table_image::Cable>, Error>
    ensures ok { IfOk result (λ frozen. frozen.items ≡ map frozen_of plan.now.cables) }
    ensures valid { (v : VersionValue)
        → IsNotInV1 v (list_any (λ c. is_long (length c.zones)) plan.now.cables)
        → IfOk result (λ frozen. Each (λ c. IsValue (cable_spelling v) c) frozen.items) }
    ensures refused { IsOkUnless result Error.Memory }
{
    recall_sound(plan);
    cables_of(alloc, plan.cables())
}

/// The image of a plan's stations, in a version that can hold them. Error: `Memory`.
fn fitting_image<T: RouteTable>(
    alloc: Global,
    version: Version,
    plan: &Plan,
    stations: &[Member<LiveRouter<T>, LiveNode>],
    mappers: &[Mapper],
) -> Result<Image, Error>
    requires ports { map ports_of stations.now ≡ planned_ports plan.now }
    requires few { AreFew mappers.now }
    requires fits { IsNotInV1 version (spec.needs_version_2 plan.now stations.now) }
    ensures ok { IfOk result
        (λ image. image ≡ frozen_in version plan.now stations.now mappers.now) }
    ensures refused { IsOkUnless result Error.Memory }
{
    recall_sound(plan);
    let cables = cables_by(alloc, plan)?;
    let routers = routers_by(alloc, version, plan, stations, mappers)?;
    let nodes = nodes_by(alloc, version, plan, stations, mappers)?;
    Image::make(version, cables, routers, nodes)
}

/// The image of the contents of a plan's stations, in a version of the format. An address that
/// isn't settled is 0.0. The mappers are those of the stations' seats: of the routers' ports in
/// order, and then of the nodes; each knows at most 512 mappings. In version 2 each port and node
/// has the mappings of its seat, and none if there is no mapper for it.
///
/// Errors: `Full` for version 1 where a cable or a zone list has more than 64 names, whether or not
/// there is memory; `Memory`.
pub fn image_of<T: RouteTable>(
    alloc: Global,
    version: Version,
    plan: &Plan,
    stations: &[Member<LiveRouter<T>, LiveNode>],
    mappers: &[Mapper],
) -> Result<Image, Error>
    requires ports { map ports_of stations.now ≡ planned_ports plan.now }
    requires few { AreFew mappers.now }
    ensures ok { IfOk result
        (λ image. image ≡ frozen_in version plan.now stations.now mappers.now) }
    ensures full { (result ≡ Err Error.Full)
        ↔ ((version ≡ Version.V1) × (spec.needs_version_2 plan.now stations.now ≡ true)) }
    ensures refused { IfErr result (λ e. (e ≡ Error.Full) ⊎ (e ≡ Error.Memory)) }
{
    match version {
        Version::V1 => {
            if needs_version_2(plan, stations) {
                return Err(Error::Full);
            }
        }
        Version::V2 => {}
    }
    fitting_image(alloc, version, plan, stations, mappers)
}
