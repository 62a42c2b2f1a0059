//! The datagrams that a node sends for its user.

ghost use Rattle.std.specs.Prelude.{◌≡◌, ◌≤◌, ◌∷◌, [], length, IfErr, IfOk, IfSome, IsOkUnless, OnErr, OnOk};
ghost use Rattle.end_node.specs.Sending as spec;
ghost use Rattle.end_node.specs.Sending.{header_to};
ghost use Rattle.station.specs.Lawful.{IsNext, PutsOut};
ghost use Rattle.station.specs.Making.{made};
ghost use Rattle.at_base.specs.Limits.{max_data};

use crate::node::EndNode;
use at_base::limits::MAX_DATA;
use at_base::{Addr, Error, What};
use ddp::Header;
use station::ways::EVERY_NODE;
use station::{Next, Outputs, Way};
use std::alloc::Global;

/// Whether no station has the target: its network is 0 and its node isn't 255.
fn is_nobodys(target: Addr) -> bool
    ensures { result ≡ spec.is_nobodys target }
{
    target.net == 0 && target.node != EVERY_NODE
}

/// The way of a datagram to its next station, with this source address. Error: `NoRouter` if there
/// is no next station.
fn way_or_none(own: Addr, header: Header, next: Option<Next>) -> Result<Way, Error>
    requires { IfSome next IsNext }
    ensures value { result ≡ spec.way_or_none own header next }
    ensures inside { IfOk result (λ way. (way.port ≡ 0) × IsNext way.next) }
{
    match next {
        Some(next) => Ok(Way {
            port: 0,
            next,
            header: Header {
                source: own,
                ..header
            },
        }),
        None => Err(Error::NoRouter),
    }
}

/// Adds the datagram with this data, sent on this way. The caller ensures that the data has at most
/// 586 bytes, that the way's port is 0, and that its group, if it has one, exists. Error: `Memory`;
/// the outputs don't change then.
pub(crate) fn put_out(
    alloc: Global,
    way: &Way,
    payload: &[u8],
    outputs: &mut Outputs,
) -> Result<(), Error>
    requires short { length payload.now ≤ max_data }
    requires port { way.now.port ≡ 0 }
    requires next { IsNext way.now.next }
    ensures sent { OnOk result (PutsOut 1 outputs.old.items outputs.new.items
        (λ added. added ≡ made way.now payload.now ∷ [])) }
    ensures refused { IsOkUnless result Error.Memory }
    ensures outputs_stay { OnErr result (outputs.new.items ≡ outputs.old.items) }
{
    let output = way.make(alloc, payload)?;
    outputs.room(1)?;
    outputs.add(output);
    Ok(())
}

impl EndNode {
    /// The next station of a datagram that the node sends; for network 0 all stations. `None` if it
    /// has to go to a router and the node has none.
    fn next_of(&self, target: Addr) -> Option<Next>
        ensures value { result ≡ spec.next_of self.now target }
        ensures next { IfSome result IsNext }
    {
        if target.net == 0 {
            Some(Next::All)
        } else {
            self.next_to(target)
        }
    }

    /// The way of a datagram with this header and `len` bytes of data, or why it can't be sent.
    fn sending(&self, header: Header, len: usize) -> Result<Way, Error>
        ensures value { result ≡ spec.sending self.now header len }
        ensures short { IfOk result (λ _. len ≤ max_data) }
        ensures inside { IfOk result (λ way. (way.port ≡ 0) × IsNext way.next) }
    {
        let Some(own) = self.own() else {
            return Err(Error::NoSuch(What::Station));
        };
        if is_nobodys(header.target) {
            return Err(Error::NoSuch(What::Station));
        }
        if len > MAX_DATA {
            return Err(Error::TooLong);
        }
        way_or_none(own, header, self.next_of(header.target))
    }

    /// Adds a datagram with this header and data. Errors: those of `sending`, then `Memory`; the
    /// outputs don't change then.
    fn send_by(&self, header: Header, payload: &[u8], outputs: &mut Outputs) -> Result<(), Error>
        ensures sent { OnOk result (IfOk (spec.sending self.now header (length payload.now)) (λ way.
            PutsOut 1 outputs.old.items outputs.new.items
            (λ added. added ≡ made way payload.now ∷ []))) }
        ensures unsendable { IfErr (spec.sending self.now header (length payload.now))
            (λ e. result ≡ Err e) }
        ensures refused { IfOk (spec.sending self.now header (length payload.now))
            (λ _. IsOkUnless result Error.Memory) }
        ensures outputs_stay { OnErr result (outputs.new.items ≡ outputs.old.items) }
    {
        match self.sending(header, payload.len()) {
            Ok(way) => put_out(*self.received.allocator(), &way, payload, outputs),
            Err(error) => Err(error),
        }
    }

    /// Sends a datagram: it is added to the outputs.
    ///
    /// Inside AppleTalk, the chapter on DDP.
    ///
    /// Errors, in this order: `NoSuch(Station)` if the node has no address, or if the target's
    /// network is 0 and its node isn't 255; `TooLong` above 586 bytes; `NoRouter` if the datagram
    /// has to go to a router and the node has none; `Memory`. After an error the outputs are
    /// unchanged.
    pub fn send(
        &self,
        target: Addr,
        target_socket: u8,
        source_socket: u8,
        kind: u8,
        summed: bool,
        payload: &[u8],
        outputs: &mut Outputs,
    ) -> Result<(), Error>
        ensures sent { OnOk result (IfOk (spec.sending self.now
            (header_to target target_socket source_socket kind summed)
            (length payload.now)) (λ way. PutsOut 1 outputs.old.items outputs.new.items
            (λ added. added ≡ made way payload.now ∷ []))) }
        ensures unsendable { IfErr (spec.sending self.now
            (header_to target target_socket source_socket kind summed) (length payload.now)) (λ e. result ≡ Err e) }
        ensures refused { IfOk (spec.sending self.now
            (header_to target target_socket source_socket kind summed) (length payload.now)) (λ _. IsOkUnless result Error.Memory) }
        ensures outputs_stay { OnErr result (outputs.new.items ≡ outputs.old.items) }
    {
        let header = Header {
            summed,
            target,
            source: Addr::NONE,
            target_socket,
            source_socket,
            kind,
        };
        self.send_by(header, payload, outputs)
    }
}
