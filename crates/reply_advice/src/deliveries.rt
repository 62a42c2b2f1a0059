//! The replies that were received.

ghost use Rattle.std.specs.Prelude.{◌≤◌, length, IsOkUnless};

use crate::reply::Reply;
use at_base::{Addr, Error};
use std::alloc::Global;

/// The greatest number of replies that are kept. Further ones are counted.
const MAX_KEPT: usize = 100;

/// Who received a reply.
#[derive(Clone, Copy, Debug)]
pub(crate) enum Receiver {
    /// The node of a play with this number, counted from 1.
    Node(u16),
    /// The station of a run with this address.
    Station(Addr),
}

/// A reply that was received.
#[derive(Drop)]
pub(crate) struct Delivery {
    pub(crate) receiver: Receiver,
    pub(crate) reply: Reply,
}

/// The replies that were received, in order.
#[derive(Drop)]
pub(crate) struct Deliveries {
    first: Vec<Delivery>,
    more: u64,
    ghost few: { length first.items ≤ 100 },
}

impl Deliveries {
    /// No replies.
    pub(crate) fn new(alloc: Global) -> Deliveries {
        Deliveries {
            first: Vec::new(alloc),
            more: 0,
        }
    }

    /// The first replies that were received.
    pub(crate) fn first(&self) -> &[Delivery] {
        self.first.as_slice()
    }

    /// The number of further replies.
    pub(crate) fn more(&self) -> u64 {
        self.more
    }

    /// Keeps what was received, or counts it, if it is a reply. Error: `Memory`.
    pub(crate) fn take_in(&mut self, receiver: Receiver, reply: Option<Reply>) -> Result<(), Error>
        ensures { IsOkUnless result Error.Memory }
    {
        let Some(reply) = reply else {
            return Ok(());
        };
        if self.first.len() < MAX_KEPT {
            self.first.push(Delivery { receiver, reply })?;
        } else {
            self.more = self.more.saturating_add(1);
        }
        Ok(())
    }
}
