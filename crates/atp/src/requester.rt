//! A requester: it sends requests, sends them again while parts are missing, and gives up after a
//! number of tries.

ghost use Rattle.std.specs.Prelude.{◌≡◌, ◌≢◌, ◌==◌, ◌⊎◌, ◌↔◌, ◌<◌, ◌≤◌, ◌+◌, ◌%◌, Some, None};
ghost use Rattle.std.specs.Prelude.{false, ℕ, length, IfOk, IfErr, IfNone, IfSome, IsOk, IsOkUnless};
ghost use Rattle.std.specs.Prelude.{[], IsTrue, List, OnErr, OnOk, nat_le};
ghost use Rattle.std.specs.Option.{option_map};
ghost use Rattle.at_base.specs.Spelling.{bytes_of};
ghost use Rattle.at_base.specs.declared.error.What.TheVariants.{Transaction as Missing};
ghost use Rattle.atp.specs.InPlace.{packet_value};
ghost use Rattle.atp.specs.Packets as spec;
ghost use Rattle.atp.specs.Repeating.{AreShort, renewed, repeats};
ghost use Rattle.atp.specs.Requesting.{known, begun, sent, ticked, after_hearing, AreOpen, IsAsk};
ghost use Rattle.atp.specs.Requesting.{IsLeastDue, is_due_in, is_heard, open_count, release_for};
ghost use Rattle.atp.specs.Requesting.{IsNextId, request_of};
ghost use Rattle.atp.specs.Outcomes.{left_open, outcome_of};

use crate::ask::{Ask, Peer};
use crate::outcome::Outcome;
use crate::packet::{MAX_DATA, Packet};
use crate::repeats::{Repeat, Step, When, repeats_in};
use crate::table::{
    close_at, copy_all, hear_at, insert, key_of, least_due, next_id, request_at, send_at, step_all,
};
use crate::transaction::Transaction;
use at_base::{Bytes, Error, What};
use slab::Slab;
use std::alloc::Global;
use std::marker::Model;

/// The greatest number of open transactions.
pub const MAX_OPEN: usize = 32;

/// The open transactions, by their IDs.
///
/// Inside AppleTalk, the chapter on ATP.
#[derive(Debug, Drop)]
pub struct Requester {
    alloc: Global,
    next: u16,
    table: Slab<Transaction>,
}

impl Model for Requester {
    ghost use Rattle.atp.specs.Requesting.{Transactions};
    ghost use Rattle.atp.specs.Slots.{IsTable};

    ghost Value = { Transactions };

    ghost view = { λ r. record { next = r.next; slots = r.table.slots } };

    ghost invariant = { λ r. IsTable r.table };
}

impl Requester {
    /// A requester without transactions; the ID of the first one is looked for from `first` on.
    /// Allocates room for all transactions that may be open. Error: `Memory`.
    pub fn new(alloc: Global, first: u16) -> Result<Requester, Error>
        ensures next { IfOk result (λ r. r.next ≡ first) }
        ensures none { IfOk result (λ r. (id : ℕ) → known id r.slots ≡ None) }
        ensures refused { IsOkUnless result Error.Memory }
    {
        let table = Slab::with_capacity(alloc, MAX_OPEN)?;
        Ok(Requester {
            alloc,
            next: first,
            table,
        })
    }

    /// A copy, with the same transaction for each ID and the same next ID. Allocates room for all
    /// transactions that may be open. Error: `Memory`.
    pub fn copy(&self) -> Result<Requester, Error>
        ensures next { IfOk result (λ r. r.next ≡ self.now.next) }
        ensures same { IfOk result (λ r. (id : ℕ) → known id r.slots ≡ known id self.now.slots) }
        ensures count { IfOk result (λ r. open_count r.slots ≡ open_count self.now.slots) }
        ensures refused { IsOkUnless result Error.Memory }
    {
        let table = copy_all(self.alloc, &self.table)?;
        Ok(Requester {
            alloc: self.alloc,
            next: self.next,
            table,
        })
    }

    /// Whether the greatest number of transactions is open. Allocates nothing.
    pub fn is_full(&self) -> bool
        ensures { result ≡ nat_le 32 (open_count self.now.slots) }
    {
        MAX_OPEN <= self.table.len()
    }

    /// Opens a transaction, whose request is then due, and returns its ID. Allocates nothing.
    ///
    /// Errors: `TooLong` above 578 bytes of data, `Full` where 32 are open. A refusal changes
    /// nothing.
    pub fn begin(&mut self, ask: Ask) -> Result<u16, Error>
        requires { IsAsk ask }
        ensures id { IfOk result (λ id. IsNextId self.old.next self.old.slots id) }
        ensures begun { IfOk result (λ id. known id self.new.slots ≡ Some (begun id ask)) }
        ensures others { IfOk result (λ id. (other : ℕ) → other ≢ id
            → known other self.new.slots ≡ known other self.old.slots) }
        ensures next { IfOk result (λ id. self.new.next ≡ (id + 1) % 65536) }
        ensures long { (result ≡ Err Error.TooLong) ↔ (578 < length ask.payload) }
        ensures full { (result ≡ Err Error.Full)
            ↔ ((length ask.payload ≤ 578) × (32 ≤ open_count self.old.slots)) }
        ensures refused { IfErr result (λ e. (e ≡ Error.TooLong) ⊎ (e ≡ Error.Full)) }
        ensures kept { OnErr result (self.new ≡ self.old) }
    {
        if MAX_DATA < ask.payload.len() {
            return Err(Error::TooLong);
        }
        if MAX_OPEN <= self.table.len() {
            return Err(Error::Full);
        }
        let id = next_id(&self.table, self.next);
        insert(&mut self.table, Transaction::new(id, ask));
        self.next = id.wrapping_add(1);
        Ok(id)
    }

    /// The least ID of a transaction whose request is due, if any. Allocates nothing.
    pub fn due(&self) -> Option<u16>
        ensures some { IfSome result (λ id. IsLeastDue self.now.slots id) }
        ensures none { IfNone result ((id : ℕ) → is_due_in (known id self.now.slots) ≡ false) }
    {
        least_due(&self.table, When::Now, 0)
    }

    /// The bytes of a request that is due, for the missing parts. The request then counts as sent.
    ///
    /// Errors: `NoSuch` where no request with this ID is due, `Memory`. A refusal changes nothing.
    pub fn request(&mut self, id: u16) -> Result<Bytes, Error>
        ensures ok { IfOk result (λ bytes. IfSome (known id self.old.slots)
            (λ t. bytes ≡ bytes_of spec.packet (request_of t))) }
        ensures sent { OnOk result (known id self.new.slots
            ≡ option_map sent (known id self.old.slots)) }
        ensures others { (other : ℕ) → other ≢ id
            → known other self.new.slots ≡ known other self.old.slots }
        ensures next { self.new.next ≡ self.old.next }
        ensures unasked { (result ≡ Err (Error.NoSuch Missing))
            ↔ (is_due_in (known id self.old.slots) ≡ false) }
        ensures refused { IfErr result (λ e. (e ≡ Error.NoSuch Missing) ⊎ (e ≡ Error.Memory)) }
        ensures kept { OnErr result (self.new ≡ self.old) }
    {
        match key_of(&self.table, id) {
            Some(key) => {
                let bytes = request_at(self.alloc, &self.table, key)?;
                send_at(&mut self.table, key);
                Ok(bytes)
            }
            None => Err(Error::NoSuch(What::Transaction)),
        }
    }

    /// Handles a packet. Returns the bytes of a release if the packet completes an exactly-once
    /// transaction.
    ///
    /// Error: `Memory`. A refusal changes nothing.
    pub fn heard(&mut self, from: Peer, packet: &Packet<'_>) -> Result<Option<Bytes>, Error>
        ensures ok { OnOk result (known packet.now.id self.new.slots
            ≡ option_map (after_hearing from (packet_value packet.now))
            (known packet.now.id self.old.slots)) }
        ensures others { (other : ℕ) → other ≢ packet.now.id
            → known other self.new.slots ≡ known other self.old.slots }
        ensures next { self.new.next ≡ self.old.next }
        ensures release { IfOk result (λ release. release
            ≡ release_for from (packet_value packet.now) (known packet.now.id self.old.slots)) }
        // A packet that no transaction accepts needs no memory.
        ensures ignored { IfSome (known packet.now.id self.old.slots)
            (λ t. is_heard from (packet_value packet.now) t ≡ false) → IsOk result }
        ensures refused { IsOkUnless result Error.Memory }
        ensures kept { OnErr result (self.new ≡ self.old) }
    {
        match key_of(&self.table, packet.id) {
            Some(key) => hear_at(self.alloc, &mut self.table, key, from, packet),
            None => Ok(None),
        }
    }

    /// Advances each transaction by one tick. Allocates nothing.
    pub fn tick(&mut self)
        ensures ticked { (id : ℕ) → known id self.new.slots
            ≡ option_map ticked (known id self.old.slots) }
        ensures next { self.new.next ≡ self.old.next }
    {
        step_all(&mut self.table, Step::Tick);
    }

    /// Whether no transaction is open, so that no request is ever due. Allocates nothing.
    pub fn is_idle(&self) -> bool
        ensures count { result ≡ (open_count self.now.slots == 0) }
        ensures none { IsTrue result → repeats self.now.slots ≡ [] }
    {
        self.table.is_empty()
    }

    /// The requests that the next tick makes due, by rising IDs of their transactions. Error:
    /// `Memory`, which no requests never need.
    pub fn repeats(&self) -> Result<Vec<Repeat>, Error>
        ensures ok { IfOk result (λ made. made.items ≡ repeats self.now.slots) }
        ensures few { IfOk result (λ made. length made.items ≤ 32) }
        ensures short { IfOk result (λ made. AreShort made.items) }
        ensures none { repeats self.now.slots ≡ [] → IsOk result }
        ensures refused { IsOkUnless result Error.Memory }
    {
        repeats_in(self.alloc, &self.table)
    }

    /// Advances each transaction by one tick; each request that is due then counts as sent.
    /// Allocates nothing.
    pub fn renew(&mut self)
        ensures renewed { (id : ℕ) → known id self.new.slots
            ≡ option_map renewed (known id self.old.slots) }
        ensures next { self.new.next ≡ self.old.next }
    {
        if !self.table.is_empty() {
            step_all(&mut self.table, Step::Renew);
        }
    }

    /// The outcome of a transaction. The transaction is closed unless it waits. Allocates nothing.
    ///
    /// Error: `NoSuch` where no transaction with this ID is open. A refusal changes nothing.
    pub fn result(&mut self, id: u16) -> Result<Outcome, Error>
        ensures ok { IfOk result (λ outcome. IfSome (known id self.old.slots)
            (λ t. outcome ≡ outcome_of t)) }
        ensures after { OnOk result (known id self.new.slots
            ≡ left_open (known id self.old.slots)) }
        ensures others { (other : ℕ) → other ≢ id
            → known other self.new.slots ≡ known other self.old.slots }
        ensures next { self.new.next ≡ self.old.next }
        ensures unknown { (result ≡ Err (Error.NoSuch Missing))
            ↔ (known id self.old.slots ≡ None) }
        ensures refused { IsOkUnless result (Error.NoSuch Missing) }
        ensures kept { OnErr result (self.new ≡ self.old) }
    {
        match key_of(&self.table, id) {
            Some(key) => Ok(close_at(&mut self.table, key)),
            None => Err(Error::NoSuch(What::Transaction)),
        }
    }
}

/// Does nothing. Its contract says what `open_count` counts: the IDs that are known, each once. So
/// `begin` returns `Full` where 32 IDs are known.
pub fn transactions_are_counted(requester: &Requester)
    ensures { (ids : List ℕ) × AreOpen requester.now.slots ids
        × (length ids ≡ open_count requester.now.slots) }
{
    let _table = &requester.table;
}
