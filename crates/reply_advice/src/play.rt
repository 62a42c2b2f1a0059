//! The replies that the nodes of a play received.

ghost use Rattle.std.specs.Prelude.{IsOkUnless};

use crate::deliveries::{Deliveries, Receiver};
use crate::reply::Reply;
use at_base::Error;
use end_node::EndNode;
use rtmp::Routes;
use std::alloc::Global;
use world::World;

/// Keeps the replies that the nodes of a world received. Error: `Memory`.
pub(crate) fn gather_world(
    alloc: Global,
    deliveries: &mut Deliveries,
    world: &World<Routes>,
) -> Result<(), Error>
    ensures { IsOkUnless result Error.Memory }
{
    for number in 1..=u16::MAX {
        let Some(node) = world.node(number) else {
            return Ok(());
        };
        keep_of_node(alloc, deliveries, number, node)?;
    }
    Ok(())
}

/// Keeps the replies that a node received. Error: `Memory`.
fn keep_of_node(
    alloc: Global,
    deliveries: &mut Deliveries,
    number: u16,
    node: &EndNode,
) -> Result<(), Error>
    ensures { IsOkUnless result Error.Memory }
{
    let datagrams = node.received()?;
    for datagram in &datagrams {
        let payload = datagram.payload.as_slice();
        let reply = Reply::new(alloc, datagram.source, datagram.kind, payload)?;
        deliveries.take_in(Receiver::Node(number), reply)?;
    }
    Ok(())
}
