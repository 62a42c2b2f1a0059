//! End nodes and their tables.

ghost use Rattle.std.specs.Prelude.{◌≡◌, [], ℕ, None, IfOk, IsOkUnless, IsTrue};
ghost use Rattle.aarp.specs.Choosing as spec;
ghost use Rattle.atp.specs.Requesting.{known};
ghost use Rattle.station.specs.Ports.{is_planned, planned};

use aarp::Chooser;
use at_base::{Addr, Bytes, Error, Name};
use atp::Requester;
use circular_buffer::HeapCircularBuffer;
use nbp::Names;
use station::PortPlan;
use std::alloc::Global;
use std::marker::Model;

/// The greatest number of received datagrams that a node keeps.
pub const MAX_RECEIVED: usize = 64;

/// A datagram that a node received.
///
/// Inside AppleTalk, the chapter on DDP.
#[derive(Debug, Drop)]
pub struct Datagram {
    /// The node that sent it.
    pub source: Addr,
    pub source_socket: u8,
    pub target_socket: u8,
    /// The type: the protocol whose packet is the data.
    pub kind: u8,
    /// The data.
    pub payload: Bytes,
}

impl Datagram {
    /// A copy. Error: `Memory`.
    pub(crate) fn copy(&self, alloc: Global) -> Result<Datagram, Error>
        ensures ok { IfOk result (λ d. d ≡ self.now) }
        ensures refused { IsOkUnless result Error.Memory }
    {
        let payload = Bytes::copy(alloc, self.payload.as_slice())?;
        Ok(Datagram {
            source: self.source,
            source_socket: self.source_socket,
            target_socket: self.target_socket,
            kind: self.kind,
            payload,
        })
    }
}

/// A node on one cable, with a zone, a router and names. Receiving frames changes none of these;
/// only the setters and `register` do.
///
/// Inside AppleTalk, the chapters on DDP, NBP and ATP.
#[derive(Drop)]
pub struct EndNode {
    pub(crate) port: Chooser,
    pub(crate) zone: Name,
    pub(crate) router: Option<Addr>,
    pub(crate) names: Names,
    pub(crate) received: HeapCircularBuffer<Datagram>,
    pub(crate) requester: Requester,
}

impl Model for EndNode {
    ghost use Rattle.std.specs.Prelude.{◌≡◌};
    ghost use Rattle.end_node.specs.Holding.{NodeHolding};

    ghost Value = { NodeHolding };

    ghost view = { λ n. record {
      port = n.port;
      zone = n.zone;
      router = n.router;
      names = n.names;
      received = n.received.items;
      asks = n.requester;
    } };

    ghost invariant = { λ n. n.received.capacity ≡ 64 };
}

impl EndNode {
    /// A node with this port, zone, router and names, without open transactions; their IDs begin at
    /// 1. The caller ensures that a station of the port's range may have the port's addresses
    /// (`aarp::are_on`). Error: `Memory`.
    pub fn new(
        alloc: Global,
        plan: &PortPlan<'_>,
        zone: Name,
        router: Option<Addr>,
        names: Names,
    ) -> Result<EndNode, Error>
        requires { IsTrue (is_planned plan.now) }
        ensures ok { IfOk result (λ node. node ≡ record {
          port = planned plan.now;
          zone = zone;
          router = router;
          names = names;
          received = [];
          asks = node.asks;
        }) }
        ensures first { IfOk result (λ node. node.asks.next ≡ 1) }
        ensures none { IfOk result (λ node. (id : ℕ) → known id node.asks.slots ≡ None) }
        ensures refused { IsOkUnless result Error.Memory }
    {
        let port = plan.chooser(alloc)?;
        let requester = Requester::new(alloc, 1)?;
        let received = HeapCircularBuffer::with_capacity(alloc, MAX_RECEIVED)?;
        Ok(EndNode {
            port,
            zone,
            router,
            names,
            received,
            requester,
        })
    }

    /// The address of the node, if it is settled. Allocates nothing.
    pub fn own(&self) -> Option<Addr>
        ensures { result ≡ spec.settled self.now.port }
    {
        self.port.settled()
    }

    /// The node's zone.
    pub fn zone(&self) -> &Name
        ensures { result.now ≡ self.now.zone }
    {
        &self.zone
    }

    /// The address of the node's router, if it has one.
    pub fn router(&self) -> Option<Addr>
        ensures { result ≡ self.now.router }
    {
        self.router
    }

    /// The names that the node has registered.
    pub fn names(&self) -> &Names
        ensures { result.now ≡ self.now.names }
    {
        &self.names
    }
}
