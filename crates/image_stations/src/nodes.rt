//! Nodes with the contents that an image has for them.

ghost use Rattle.std.specs.Prelude.{◌≡◌, ◌<◌, ◌++◌, ℕ, [], length, map, slice_get, None, Some};
ghost use Rattle.std.specs.Prelude.{IfOk, IsOkUnless, IsTrue, OnOk};
ghost use Rattle.atp.specs.Requesting.{known};
ghost use Rattle.audit.specs.Rules.{Passes};
ghost use Rattle.image_stations.specs.Holders.{HoldsNode, choice_on, named};
ghost use Rattle.image_stations.specs.Plans.{is_seated};
ghost use Rattle.nbp.specs.Registered.{IsNames};
ghost use Rattle.table_image.specs.Bounds.{IsBounded};

use crate::plans::plan_of;
use at_base::Error;
use end_node::EndNode;
use nbp::{Named, Names};
use std::alloc::Global;
use table_image::{Image, Node, NodeName};

/// A node's name, from a name in the image.
fn name_of(name: &NodeName) -> Named
    ensures { result ≡ named name.now }
{
    Named {
        socket: name.socket,
        enumerator: name.enumerator,
        object: name.object,
        kind: name.kind,
    }
}

/// Appends a node's names, from names in the image.
fn put_names(names: &mut Vec<Named>, some: &[NodeName]) -> Result<(), Error>
    ensures put { OnOk result (names.new.items ≡ names.old.items ++ map named some.now) }
    ensures refused { IsOkUnless result Error.Memory }
{
    match some {
        [] => Ok(()),
        [name, rest @ ..] => {
            names.push(name_of(name))?;
            put_names(names, rest)
        }
    }
}

/// The names of a node. Error: `Memory`.
fn names_of(alloc: Global, some: &[NodeName]) -> Result<Names, Error>
    requires { IsNames (map named some.now) }
    ensures ok { IfOk result (λ names. names ≡ map named some.now) }
    ensures refused { IsOkUnless result Error.Memory }
{
    let mut names = Vec::new(alloc);
    put_names(&mut names, some)?;
    Names::load(alloc, names.as_slice())
}

/// A node with the contents that the image has for it. Error: `Memory`.
fn node_by(alloc: Global, image: &Image, node: &Node) -> Result<EndNode, Error>
    requires seated { IsTrue (is_seated image.now.cables node.now.cable node.now.address) }
    requires names { IsNames (map named node.now.names) }
    ensures port { IfOk result (λ made.
        made.port ≡ choice_on image.now node.now.cable node.now.address node.now.hardware) }
    ensures zone { IfOk result (λ made. made.zone ≡ node.now.zone) }
    ensures router { IfOk result (λ made. made.router ≡ node.now.router) }
    ensures named { IfOk result (λ made. made.names ≡ map named node.now.names) }
    ensures fresh { IfOk result (λ made. made.received ≡ []) }
    ensures first { IfOk result (λ made. made.asks.next ≡ 1) }
    ensures none { IfOk result (λ made. (id : ℕ) → known id made.asks.slots ≡ None) }
    ensures refused { IsOkUnless result Error.Memory }
{
    let plan = plan_of(image, node.cable, node.address, node.hardware);
    let names = names_of(alloc, node.names.as_slice())?;
    EndNode::new(alloc, &plan, node.zone, node.router, names)
}

/// The image's entry for a node.
fn tables_of(image: &Image, index: u8) -> &Node
    requires { index < length image.now.nodes }
    ensures known { slice_get image.now.nodes index ≡ Some result.now }
    ensures bounded { IsBounded image.now }
{
    &image.nodes()[index as usize]
}

/// A node with the contents that an image that passes the audit has for it. `index` counts the
/// image's nodes from 0. Error: `Memory`.
pub fn node_of(alloc: Global, image: &Image, index: u8) -> Result<EndNode, Error>
    requires passes { Passes image.now }
    requires there { index < length image.now.nodes }
    ensures ok { IfOk result (λ node. HoldsNode image.now index node × (node.received ≡ [])) }
    // The node has sent no requests yet.
    ensures first { IfOk result (λ node. node.asks.next ≡ 1) }
    ensures none { IfOk result (λ node. (id : ℕ) → known id node.asks.slots ≡ None) }
    ensures refused { IsOkUnless result Error.Memory }
{
    node_by(alloc, image, tables_of(image, index))
}
