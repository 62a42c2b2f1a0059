//! The example of the README of `end_node`.

use at_base::{Addr, Error, Hw, Name, Range};
use end_node::EndNode;
use nbp::Names;
use station::{Outputs, PortPlan};
use std::alloc::Global;

/// How many datagrams a node on the cable 10-19 makes to send one byte to another node there.
fn sent(alloc: Global) -> Result<usize, Error> {
    let plan = PortPlan {
        range: Range::new(10, 19)?,
        hw: Hw([2, 0, 0, 0, 0, 1]),
        tries: &[],
        own: Some(Addr { net: 10, node: 1 }),
    };
    let zone = Name::new(b"Lab")?;
    let node = EndNode::new(alloc, &plan, zone, None, Names::new(alloc)?)?;
    let mut outputs = Outputs::new(alloc)?;
    let target = Addr { net: 10, node: 2 };
    node.send(target, 72, 72, 9, true, &[1], &mut outputs)?;
    Ok(outputs.len())
}

/// Whether the node makes one datagram.
pub(super) fn one_datagram_is_made(alloc: Global) -> Result<bool, Error> {
    Ok(sent(alloc)? == 1)
}
