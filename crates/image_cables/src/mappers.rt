//! What the seats of an image know before anything happens.

ghost use Rattle.std.specs.Prelude.{◌≡◌, ◌++◌, ◌≤◌, [], IfOk, IsOkUnless, OnOk, length, map};
ghost use Rattle.image_cables.specs.Settled as spec;
ghost use Rattle.image_cables.specs.Settled.{learnt_all, router_maps, seat_maps, seeded};
ghost use Rattle.live_cables.specs.Holding.{AreFew};
ghost use Rattle.at_base.specs.Limits.{max_mappings};

use aarp::Mapper;
use at_base::Error;
use std::alloc::Global;
use table_image::{Image, Mapping, Node, Port, Router};

/// Learns mappings, in their order. Error: `Memory`.
fn learn_each(mapper: &mut Mapper, mappings: &[Mapping]) -> Result<(), Error>
    requires few { length mapper.old.known ≤ max_mappings }
    ensures ok { OnOk result (mapper.new
        ≡ record mapper.old { known = learnt_all mapper.old.known mappings.now }) }
    ensures few { OnOk result (length mapper.new.known ≤ max_mappings) }
    ensures refused { IsOkUnless result Error.Memory }
{
    match mappings {
        [] => Ok(()),
        [mapping, rest @ ..] => {
            mapper.learn(mapping.address, mapping.hardware)?;
            learn_each(mapper, rest)
        }
    }
}

/// A mapper that has learnt these mappings. Error: `Memory`.
fn mapper_of(alloc: Global, mappings: &[Mapping]) -> Result<Mapper, Error>
    ensures ok { IfOk result (λ mapper. mapper ≡ seeded mappings.now) }
    ensures few { IfOk result (λ mapper. length mapper.known ≤ max_mappings) }
    ensures refused { IsOkUnless result Error.Memory }
{
    let mut mapper = Mapper::new(alloc)?;
    learn_each(&mut mapper, mappings)?;
    Ok(mapper)
}

/// Appends the mappers of ports. Error: `Memory`.
#[tactic(auto, using(crate::proofs::Settled::few_more))]
fn put_ports(alloc: Global, mappers: &mut Vec<Mapper>, ports: &[Port]) -> Result<(), Error>
    requires few { AreFew mappers.old.items }
    ensures put { OnOk result (mappers.new.items ≡ mappers.old.items ++ map spec.port_maps ports.now) }
    ensures few { OnOk result (AreFew mappers.new.items) }
    ensures refused { IsOkUnless result Error.Memory }
{
    match ports {
        [] => Ok(()),
        [port, rest @ ..] => {
            mappers.push(mapper_of(alloc, port.mappings.as_slice())?)?;
            put_ports(alloc, mappers, rest)
        }
    }
}

/// Appends the mappers of routers' ports. Error: `Memory`.
fn put_routers(alloc: Global, mappers: &mut Vec<Mapper>, routers: &[Router]) -> Result<(), Error>
    requires few { AreFew mappers.old.items }
    ensures put { OnOk result (mappers.new.items ≡ mappers.old.items ++ router_maps routers.now) }
    ensures few { OnOk result (AreFew mappers.new.items) }
    ensures refused { IsOkUnless result Error.Memory }
{
    match routers {
        [] => Ok(()),
        [router, rest @ ..] => {
            put_ports(alloc, mappers, router.ports.as_slice())?;
            put_routers(alloc, mappers, rest)
        }
    }
}

/// Appends the mappers of nodes. Error: `Memory`.
#[tactic(auto, using(crate::proofs::Settled::few_more))]
fn put_nodes(alloc: Global, mappers: &mut Vec<Mapper>, nodes: &[Node]) -> Result<(), Error>
    requires few { AreFew mappers.old.items }
    ensures put { OnOk result (mappers.new.items ≡ mappers.old.items ++ map spec.node_maps nodes.now) }
    ensures few { OnOk result (AreFew mappers.new.items) }
    ensures refused { IsOkUnless result Error.Memory }
{
    match nodes {
        [] => Ok(()),
        [node, rest @ ..] => {
            mappers.push(mapper_of(alloc, node.mappings.as_slice())?)?;
            put_nodes(alloc, mappers, rest)
        }
    }
}

/// The mappers of all seats, in their order. Error: `Memory`.
pub fn mappers_of(alloc: Global, image: &Image) -> Result<Vec<Mapper>, Error>
    ensures ok { IfOk result (λ mappers. mappers.items ≡ seat_maps image.now) }
    ensures few { IfOk result (λ mappers. AreFew mappers.items) }
    ensures refused { IsOkUnless result Error.Memory }
{
    let mut mappers = Vec::new(alloc);
    put_routers(alloc, &mut mappers, image.routers())?;
    put_nodes(alloc, &mut mappers, image.nodes())?;
    Ok(mappers)
}
