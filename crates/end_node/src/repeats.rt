//! The requests for zones that a node sends again.

ghost use Rattle.std.specs.Prelude.{◌≡◌, ◌==◌, ◌≤◌, ◌+◌, ◌++◌, [], List, Option, length, map};
ghost use Rattle.std.specs.Prelude.{IsOk, IsOkUnless, IsTrue, OnErr, OnOk};
ghost use Rattle.at_base.specs.declared.address.Addr.{Addr as AddrValue};
ghost use Rattle.atp.specs.Repeating.{AreShort};
ghost use Rattle.atp.specs.Requesting.{open_count};
ghost use Rattle.end_node.specs.Repeating.{AreRenewed, repeated, repeats_by};
ghost use Rattle.station.specs.Made.{AreMade};
ghost use Rattle.station.specs.declared.output.Output.{Output as OutputValue};

use crate::asking::request_way;
use crate::node::EndNode;
use crate::receive::TRANSACTIONS;
use at_base::{Addr, Error};
use atp::Repeat;
use ddp::kind;
use station::Output;
use station::making::put;

/// Adds these requests, each as a datagram from this address. Error: `Memory`; only the first of
/// them may have been added then.
fn put_all(made: &mut Vec<Output>, own: Addr, repeats: &[Repeat]) -> Result<(), Error>
    requires { AreShort repeats.now }
    ensures put { OnOk result (made.new.items ≡ made.old.items ++ map (repeated own) repeats.now) }
    ensures few { OnOk result (length made.new.items ≤ length made.old.items + length repeats.now) }
    ensures good { OnOk result (AreMade 1 made.old.items → AreMade 1 made.new.items) }
    ensures silent { repeats.now ≡ [] → IsOk result }
    ensures in_part { OnErr result
        ((first : List OutputValue) × (made.new.items ≡ made.old.items ++ first)) }
    ensures refused { IsOkUnless result Error.Memory }
{
    match repeats {
        [] => Ok(()),
        [repeat, rest @ ..] => {
            let to = repeat.to;
            let way = request_way(kind::ATP, to.socket, TRANSACTIONS, own, to.addr);
            put(made, &Some(way), repeat.bytes.as_slice())?;
            put_all(made, own, rest)
        }
    }
}

/// Adds these requests, each as a datagram from this address. Error: `Memory`; nothing changes
/// then.
fn put_or_none(made: &mut Vec<Output>, own: Addr, repeats: &[Repeat]) -> Result<(), Error>
    requires { AreShort repeats.now }
    ensures put { OnOk result (made.new.items ≡ made.old.items ++ map (repeated own) repeats.now) }
    ensures few { OnOk result (length made.new.items ≤ length made.old.items + length repeats.now) }
    ensures good { OnOk result (AreMade 1 made.old.items → AreMade 1 made.new.items) }
    ensures silent { repeats.now ≡ [] → IsOk result }
    ensures stays { OnErr result (made.new.items ≡ made.old.items) }
    ensures refused { IsOkUnless result Error.Memory }
{
    let before = made.len();
    let result = put_all(made, own, repeats);
    if result.is_err() {
        made.truncate(before);
    }
    result
}

impl EndNode {
    /// Adds the requests for zones that the next tick makes due, at most 32, by rising IDs of their
    /// transactions, if the node has this address and not none. Error: `Memory`; nothing changes
    /// then. Where no request is due, none is needed.
    ///
    /// Inside AppleTalk, the chapter on ATP.
    pub fn put_repeats(&self, own: Option<Addr>, made: &mut Vec<Output>) -> Result<(), Error>
        ensures put { OnOk result
            (made.new.items ≡ made.old.items ++ repeats_by own self.now.asks.slots) }
        ensures few { OnOk result (length made.new.items ≤ length made.old.items + 32) }
        ensures good { OnOk result (AreMade 1 made.old.items → AreMade 1 made.new.items) }
        ensures silent { repeats_by own self.now.asks.slots ≡ [] → IsOk result }
        ensures stays { OnErr result (made.new.items ≡ made.old.items) }
        ensures refused { IsOkUnless result Error.Memory }
    {
        let Some(own) = own else { return Ok(()) };
        let repeats = self.requester.repeats()?;
        put_or_none(made, own, repeats.as_slice())
    }

    /// Whether no request for zones is open, so that the next tick makes none due. Allocates
    /// nothing.
    pub fn is_idle(&self) -> bool
        ensures count { result ≡ (open_count self.now.asks.slots == 0) }
        ensures none { IsTrue result → (own : Option AddrValue)
            → repeats_by own self.now.asks.slots ≡ [] }
    {
        self.requester.is_idle()
    }

    /// Advances the transactions of a node that has this address by a tick; each request that is
    /// due then counts as sent. Without an address, nothing changes. Allocates nothing.
    pub fn renew(&mut self, own: Option<Addr>)
        ensures asks { AreRenewed own self.old.asks self.new.asks }
        ensures left { self.new ≡ record self.old { asks = self.new.asks } }
    {
        if own.is_some() {
            self.requester.renew();
        }
    }
}
