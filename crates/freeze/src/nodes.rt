//! The nodes of an image.

ghost use Rattle.std.specs.Prelude.{◌≡◌, ◌<◌, ◌≤◌, ℕ, length, map, option_copied};
ghost use Rattle.std.specs.Prelude.{IfOk, IfSome, IsOkUnless};
ghost use Rattle.at_base.specs.Limits.{max_mappings};
ghost use Rattle.at_base.specs.Spelling.{IsValue};
ghost use Rattle.freeze.specs.Freezing.{frozen_name, frozen_node};
ghost use Rattle.table_image.specs.Spelling.{mappings_spelling, node_spelling};

use crate::fits::fit_node;
use crate::mappings::mappings_of;
use crate::routers::address;
use aarp::Mapper;
use at_base::Error;
use end_node::EndNode;
use nbp::Names;
use std::alloc::Global;
use table_image::{Listed, Node, NodeName, Version};

/// The names that a node has registered.
fn names_of(alloc: Global, names: &Names) -> Result<Vec<NodeName>, Error>
    ensures ok { IfOk result (λ made. made.items ≡ map frozen_name names.now) }
    ensures refused { IsOkUnless result Error.Memory }
{
    let frozen = names.entries().iter().map(|name| NodeName {
        socket: name.socket,
        enumerator: name.enumerator,
        object: name.object,
        kind: name.kind,
    });
    Ok(frozen.collect(alloc)?)
}

/// The image's entry for a node on a cable.
fn node_of(
    alloc: Global,
    version: Version,
    node: &EndNode,
    cable: u8,
    mapper: Option<&Mapper>,
) -> Result<Node, Error>
    ensures ok { IfOk result
        (λ frozen. frozen ≡ frozen_node version cable node.now (option_copied mapper.entry)) }
    ensures known { IfSome (option_copied mapper.entry) (λ m. length m.known ≤ max_mappings)
        → IfOk result (λ frozen. IsValue (mappings_spelling version) frozen.mappings) }
    ensures refused { IsOkUnless result Error.Memory }
{
    let names = names_of(alloc, node.names())?;
    let mappings = mappings_of(alloc, version, mapper)?;
    Ok(Node {
        cable,
        address: address(node.port_now()),
        hardware: node.port_now().hw(),
        zone: *node.zone(),
        router: node.router(),
        names: Listed::from_vec(names),
        mappings,
    })
}

/// The image's entry for a node on the cable with this index from 0: its address (0.0 if it isn't
/// settled), its zone, its router if it knows one, and its names; in version 2 also the mappings
/// that its seat's mapper knows, if it has one, by rising address. Error: `Memory`.
pub fn freeze_node(
    alloc: Global,
    version: Version,
    node: &EndNode,
    cable: u8,
    mapper: Option<&Mapper>,
) -> Result<Node, Error>
    ensures ok { IfOk result
        (λ frozen. frozen ≡ frozen_node version cable node.now (option_copied mapper.entry)) }
    // If the cable is one of `count`, and at most 512 mappings are known, it is a valid node of an
    // image of this version with `count` cables.
    ensures valid { (count : ℕ) → cable < count
        → IfSome (option_copied mapper.entry) (λ m. length m.known ≤ max_mappings)
        → IfOk result (λ frozen. IsValue (node_spelling version count) frozen) }
    ensures refused { IsOkUnless result Error.Memory }
{
    let frozen = node_of(alloc, version, node, cable, mapper)?;
    // Only the prover needs these reads: the node's parts are valid, and their numbers fit.
    let _names = node.names().entries();
    let _zone = node.zone().as_slice();
    fit_node(&frozen);
    Ok(frozen)
}
