//! Live nodes and their state.

ghost use Rattle.std.specs.Prelude.{◌≡◌, [], ℕ, false, None, IfOk, IsOkUnless, IsTrue};
ghost use Rattle.atp.specs.Requesting.{known};
ghost use Rattle.station.specs.Ports.{is_planned, planned};

use at_base::{Error, Name};
use end_node::EndNode;
use nbp::Names;
use station::PortPlan;
use std::alloc::Global;
use std::marker::Model;

/// An end node that chooses its address, learns its router, and asks for the zone of its cable.
///
/// Inside AppleTalk, the chapters on AARP, RTMP and ZIP; the times are this project's own.
#[derive(Drop)]
pub struct LiveNode {
    pub(crate) node: EndNode,
    // The number of ticks since it last received routing data.
    pub(crate) silence: u8,
    // The number of GetNetInfo requests that it has sent, and of ticks before it sends the next.
    pub(crate) asked: u8,
    pub(crate) wait: u8,
    pub(crate) answered: bool,
}

impl Model for LiveNode {
    ghost use Rattle.std.specs.Prelude.{◌<◌, ◌≤◌};
    ghost use Rattle.live_node.specs.Living.{LivingNode};

    ghost Value = { LivingNode };

    ghost view = { λ l. record {
      node = l.node;
      silence = l.silence;
      asked = l.asked;
      wait = l.wait;
      answered = l.answered;
    } };

    ghost invariant = { λ l. (l.silence < 250) × (l.asked ≤ 3) × (l.wait ≤ 4) };
}

impl LiveNode {
    /// A node before its first tick, with this port, zone and names. It has no router, and hasn't
    /// asked about its cable. The caller ensures that a station of the port's range may have the
    /// port's addresses (`aarp::are_on`). Error: `Memory`.
    pub fn new(
        alloc: Global,
        plan: &PortPlan<'_>,
        zone: Name,
        names: Names,
    ) -> Result<LiveNode, Error>
        requires { IsTrue (is_planned plan.now) }
        ensures ok { IfOk result (λ live. live ≡ record {
          node = record {
            port = planned plan.now;
            zone = zone;
            router = None;
            names = names;
            received = [];
            asks = live.node.asks;
          };
          silence = 0;
          asked = 0;
          wait = 0;
          answered = false;
        }) }
        ensures first { IfOk result (λ live. live.node.asks.next ≡ 1) }
        ensures none { IfOk result (λ live. (id : ℕ) → known id live.node.asks.slots ≡ None) }
        ensures refused { IsOkUnless result Error.Memory }
    {
        let node = EndNode::new(alloc, plan, zone, None, names)?;
        Ok(LiveNode {
            node,
            silence: 0,
            asked: 0,
            wait: 0,
            answered: false,
        })
    }

    /// The node in its current state: its address, zone, router and names.
    pub fn node(&self) -> &EndNode
        ensures { result.now ≡ self.now.node }
    {
        &self.node
    }
}
