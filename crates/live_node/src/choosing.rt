//! A tick of a live node, and the choice of its address.

ghost use Rattle.std.specs.Prelude.{◌≡◌, ◌≤◌, ◌+◌, ◌++◌, length, IfOk, IsOkUnless, OnErr, OnOk, Some};
ghost use Rattle.aarp.specs.Choosing.{settled};
ghost use Rattle.end_node.specs.Repeating.{AreRenewed};
ghost use Rattle.live_node.specs.Passing.{passed};
ghost use Rattle.live_node.specs.Ticking.{LiveTicks, questions};
ghost use Rattle.station.specs.Resolution.{probed};
ghost use Rattle.end_node.specs.Repeating.{repeats_by};
ghost use Rattle.station.specs.Lawful.{PutsOut};
ghost use Rattle.station.specs.Made.{AreMade};

use crate::live::LiveNode;
use aarp::Packet;
use at_base::{Addr, Error};
use station::frames::put_probe;
use station::{Output, Outputs};

impl LiveNode {
    /// Counts a tick, after which the node has this address or none.
    fn pass(&mut self, own: Option<Addr>)
        ensures asks { AreRenewed own self.old.node.asks self.new.node.asks }
        ensures left { self.new ≡ passed own self.new.node.asks self.old }
    {
        self.count_silence();
        self.count_question(own);
        self.node.renew(own);
    }

    /// The outputs of a tick with this probe or none, after which the node has this address or
    /// none. Error: `Memory`.
    fn made(&self, sent: &Option<Packet>, own: Option<Addr>) -> Result<Vec<Output>, Error>
        ensures ok { IfOk result (λ made. made.items
            ≡ probed 0 sent.now ++ questions own self.now ++ repeats_by own self.now.node.asks.slots) }
        ensures few { IfOk result (λ made. length made.items ≤ 34) }
        ensures good { IfOk result (λ made. AreMade 1 made.items) }
        ensures refused { IsOkUnless result Error.Memory }
    {
        let mut made = Vec::new(self.node.allocator());
        put_probe(&mut made, 0, sent)?;
        self.put_question(own, &mut made)?;
        self.node.put_repeats(own, &mut made)?;
        Ok(made)
    }

    /// Adds the outputs of a tick with this probe or none, after which the node has this address or
    /// none. Error: `Memory`; the outputs don't change then.
    fn put(
        &self,
        sent: &Option<Packet>,
        own: Option<Addr>,
        outputs: &mut Outputs,
    ) -> Result<(), Error>
        ensures sent { OnOk result (PutsOut 1 outputs.old.items outputs.new.items (λ added. added
            ≡ probed 0 sent.now ++ questions own self.now ++ repeats_by own self.now.node.asks.slots)) }
        ensures refused { IsOkUnless result Error.Memory }
        ensures outputs_stay { OnErr result (outputs.new.items ≡ outputs.old.items) }
    {
        if sent.is_none() && !self.asks(own) && self.node.is_idle() {
            return Ok(());
        }
        let made = self.made(sent, own)?;
        if made.is_empty() {
            return Ok(());
        }
        outputs.room(made.len())?;
        outputs.append(made);
        Ok(())
    }

    /// Advances a node whose address is settled already by a tick. Error: `Memory`; neither the
    /// node nor the outputs change then.
    pub(crate) fn tick_settled(&mut self, own: Addr, outputs: &mut Outputs) -> Result<(), Error>
        requires { settled self.old.node.port ≡ Some own }
        ensures ok { OnOk result (PutsOut 1 outputs.old.items outputs.new.items
            (λ added. LiveTicks self.old added self.new)) }
        ensures refused { IsOkUnless result Error.Memory }
        ensures station_stays { OnErr result (self.new ≡ self.old) }
        ensures outputs_stay { OnErr result (outputs.new.items ≡ outputs.old.items) }
    {
        self.put(&None, Some(own), outputs)?;
        self.pass(Some(own));
        Ok(())
    }

    /// Advances a node that chooses its address by a tick: it sends a probe, or settles. Error:
    /// `Memory`; neither the node nor the outputs change then.
    pub(crate) fn tick_choosing(&mut self, outputs: &mut Outputs) -> Result<(), Error>
        ensures ok { OnOk result (PutsOut 1 outputs.old.items outputs.new.items
            (λ added. LiveTicks self.old added self.new)) }
        ensures refused { IsOkUnless result Error.Memory }
        ensures station_stays { OnErr result (self.new ≡ self.old) }
        ensures outputs_stay { OnErr result (outputs.new.items ≡ outputs.old.items) }
    {
        let mut port = self.node.port_now().copy()?;
        let sent = port.tick();
        let own = port.settled();
        self.put(&sent, own, outputs)?;
        self.node.set_port(port);
        self.pass(own);
        Ok(())
    }
}
