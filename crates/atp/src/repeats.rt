//! The requests that a tick makes due, which are sent again in it.

ghost use Rattle.std.specs.Prelude.{◌≡◌, ◌<◌, ◌≤◌, ◌∷◌, ◌++◌, ◌-◌, [], length, Some};
ghost use Rattle.std.specs.Prelude.{IfOk, IsOk, IsOkUnless, OnOk};
ghost use Rattle.atp.specs.Repeating as spec;
ghost use Rattle.atp.specs.Repeating.{AreShort, repeat_of, repeats_from, stepped};
ghost use Rattle.atp.specs.Requesting.{IsSendable, known};
ghost use Rattle.atp.specs.Slots.{IsTable};
ghost use Rattle.atp.specs.declared.transaction.Transaction.{Transaction as Value};
ghost use Rattle.slab.specs.Slab.{get};
ghost use Rattle.at_base.specs.Limits.{max_data};

use crate::ask::Peer;
use crate::table::{key_of, least_due};
use crate::transaction::Transaction;
use at_base::{Bytes, Error};
use slab::Slab;
use std::alloc::Global;

/// A request that is sent again.
#[derive(Debug, Drop)]
pub struct Repeat {
    /// The socket that it goes to.
    pub to: Peer,
    /// The bytes of its packet.
    pub bytes: Bytes,
}

/// By when a request is due.
#[derive(Clone, Copy, Debug, PartialEq, Eq)]
pub(crate) enum When {
    Now,
    NextTick,
}

/// A tick of a transaction: a request that is due then waits to be sent, or counts as sent.
#[derive(Clone, Copy, Debug, PartialEq, Eq)]
pub(crate) enum Step {
    Tick,
    Renew,
}

impl Transaction {
    /// Whether its request is due, now or after the next tick.
    pub(crate) fn is_due_by(&self, when: When) -> bool
        ensures { result ≡ spec.is_due_by when self.now }
    {
        match when {
            When::Now => self.is_due(),
            When::NextTick => {
                self.is_waiting() && (self.due || (self.wait <= 1 && 0 < self.tries))
            }
        }
    }

    /// Advances the transaction by one tick.
    pub(crate) fn step(&mut self, step: Step)
        ensures { self.new ≡ stepped step self.old }
    {
        self.tick();
        if step == Step::Renew && self.is_due() {
            self.send();
        }
    }

    /// Its request, to be sent again. Error: `Memory`.
    fn repeat(&self, alloc: Global) -> Result<Repeat, Error>
        requires { IsSendable self.now.ask }
        ensures ok { IfOk result (λ repeat. repeat ≡ repeat_of self.now) }
        ensures short { IfOk result (λ repeat. length repeat.bytes ≤ max_data) }
        ensures refused { IsOkUnless result Error.Memory }
    {
        let bytes = self.request(alloc)?;
        Ok(Repeat {
            to: Peer {
                addr: self.ask.to,
                socket: self.ask.socket,
            },
            bytes,
        })
    }
}

/// Adds the request of the transaction with this key. Error: `Memory`.
fn put_at(repeats: &mut Vec<Repeat>, table: &Slab<Transaction>, key: usize) -> Result<(), Error>
    requires { IsTable table.now }
    ensures put { OnOk result ((t : Value) → get table.now key ≡ Some t
        → repeats.new.items ≡ repeats.old.items ++ repeat_of t ∷ []) }
    ensures short { OnOk result (AreShort repeats.old.items → AreShort repeats.new.items) }
    ensures refused { IsOkUnless result Error.Memory }
{
    if let Some(transaction) = table.get(key) {
        let repeat = transaction.repeat(*repeats.allocator())?;
        repeats.push(repeat)?;
    }
    Ok(())
}

/// Adds the request of the transaction with this ID. Error: `Memory`.
fn put_one(repeats: &mut Vec<Repeat>, table: &Slab<Transaction>, id: u16) -> Result<(), Error>
    requires { IsTable table.now }
    ensures near { id < 65536 }
    ensures put { OnOk result ((t : Value) → known id table.now.slots ≡ Some t
        → repeats.new.items ≡ repeats.old.items ++ repeat_of t ∷ []) }
    ensures short { OnOk result (AreShort repeats.old.items → AreShort repeats.new.items) }
    ensures refused { IsOkUnless result Error.Memory }
{
    if let Some(key) = key_of(table, id) {
        put_at(repeats, table, key)?;
    }
    Ok(())
}

/// Adds the requests that the next tick makes due, from this ID on, by rising IDs. Error: `Memory`.
fn put_from(repeats: &mut Vec<Repeat>, table: &Slab<Transaction>, first: u16) -> Result<(), Error>
    requires { IsTable table.now }
    ensures put { OnOk result (repeats.new.items
        ≡ repeats.old.items ++ repeats_from first (65536 - first) table.now.slots) }
    ensures short { OnOk result (AreShort repeats.old.items → AreShort repeats.new.items) }
    ensures none { repeats_from first (65536 - first) table.now.slots ≡ [] → IsOk result }
    ensures refused { IsOkUnless result Error.Memory }
{
    let Some(id) = least_due(table, When::NextTick, first) else {
        return Ok(());
    };
    put_one(repeats, table, id)?;
    match id.checked_add(1) {
        Some(next) => put_from(repeats, table, next),
        None => Ok(()),
    }
}

/// The requests that the next tick makes due, by rising IDs. Error: `Memory`, which no requests
/// never need.
pub(crate) fn repeats_in(alloc: Global, table: &Slab<Transaction>) -> Result<Vec<Repeat>, Error>
    requires { IsTable table.now }
    ensures ok { IfOk result (λ made. made.items ≡ spec.repeats table.now.slots) }
    ensures few { IfOk result (λ made. length made.items ≤ 32) }
    ensures short { IfOk result (λ made. AreShort made.items) }
    ensures none { spec.repeats table.now.slots ≡ [] → IsOk result }
    ensures refused { IsOkUnless result Error.Memory }
{
    let mut repeats = Vec::new(alloc);
    if table.is_empty() {
        return Ok(repeats);
    }
    put_from(&mut repeats, table, 0)?;
    Ok(repeats)
}
