//! Open transactions in a slab.

ghost use Rattle.std.specs.Prelude.{◌≡◌, ◌≢◌, ◌⊎◌, ◌≤◌, ◌<◌, ◌+◌, suc, Some, None, false, true, ℕ};
ghost use Rattle.std.specs.Prelude.{if◌then◌else◌, IfOk, IfErr, IfNone, IfSome, IsOk, IsOkUnless, OnErr};
ghost use Rattle.std.specs.Prelude.{OnOk};
ghost use Rattle.std.specs.Option.{option_map};
ghost use Rattle.slab.specs.Slab.{get, slab_len};
ghost use Rattle.at_base.specs.Spelling.{bytes_of};
ghost use Rattle.at_base.specs.declared.error.What.TheVariants.{Transaction as Missing};
ghost use Rattle.atp.specs.InPlace.{packet_value};
ghost use Rattle.atp.specs.Packets as spec;
ghost use Rattle.atp.specs.Requesting.{known, IsNextId, IsSendable, is_due, request_of};
ghost use Rattle.atp.specs.Repeating.{is_due_by, stepped};
ghost use Rattle.atp.specs.Requesting.{passes, sent};
ghost use Rattle.atp.specs.Requesting.{is_complete, part_of, with_part, with_end, with_status};
ghost use Rattle.atp.specs.Outcomes.{left_open, outcome_of};
ghost use Rattle.atp.specs.Requesting.{IsLeast, is_heard, is_waiting, after_hearing};
ghost use Rattle.atp.specs.Requesting.{release_for, release_of};
ghost use Rattle.atp.specs.Slots.{IsTable, Put};
ghost use Rattle.atp.specs.Copies.{CopiedTo, IsCopy};
ghost use Rattle.atp.specs.declared.transaction.Transaction.{Transaction as Value};

use crate::ask::{AnswerPart, Peer};
use crate::outcome::{Outcome, closed};
use crate::packet::Packet;
use crate::repeats::{Step, When};
use crate::requester::MAX_OPEN;
use crate::transaction::{Transaction, part_from};
use at_base::{Bytes, Error, What};
use slab::Slab;
use std::alloc::Global;

/// The key of the transaction with this ID, if any.
pub(crate) fn key_of(table: &Slab<Transaction>, id: u16) -> Option<usize>
    ensures none { IfNone result (known id table.now.slots ≡ None) }
    ensures some { IfSome result (λ key. (t : Value) × (get table.now key ≡ Some t)
        × (t.id ≡ id) × (known id table.now.slots ≡ Some t)) }
{
    for key in 0..table.capacity() {
        if let Some(transaction) = table.get(key) {
            if transaction.id == id {
                return Some(key);
            }
        }
    }
    None
}

/// The first ID from `first` on, and after 65,535 from 0 on, that no transaction has.
pub(crate) fn next_id(table: &Slab<Transaction>, first: u16) -> u16
    requires { slab_len table.now ≤ 32 }
    ensures { IsNextId first table.now.slots result }
{
    for step in 0..33 {
        let id = first.wrapping_add(step);
        match key_of(table, id) {
            Some(_) => {}
            None => return id,
        }
    }
    // Not reached: of 33 IDs at most 32 are open.
    first
}

/// Puts a transaction into a vacant slot.
pub(crate) fn insert(table: &mut Slab<Transaction>, transaction: Transaction)
    requires table { IsTable table.old }
    requires some { slab_len table.old < 32 }
    requires fresh { known transaction.id table.old.slots ≡ None }
    requires sendable { IsSendable transaction.ask }
    ensures put { Put table.old table.new transaction.id (Some transaction) }
    ensures len { slab_len table.new ≡ slab_len table.old + 1 }
{
    table.insert_reserved(transaction);
}

/// Copies the transaction with this key, if any. Error: `Memory`.
fn copy_at(
    alloc: Global,
    table: &Slab<Transaction>,
    key: usize,
    copy: &mut Slab<Transaction>,
) -> Result<(), Error>
    requires table { IsTable table.now }
    requires before { CopiedTo key table.now copy.old }
    ensures copied { OnOk result (CopiedTo (suc key) table.now copy.new) }
    ensures err { IsOkUnless result Error.Memory }
{
    if let Some(transaction) = table.get(key) {
        insert(copy, transaction.copy(alloc)?);
    }
    Ok(())
}

/// A copy of the transactions, with room for all that may be open. Error: `Memory`.
pub(crate) fn copy_all(alloc: Global, table: &Slab<Transaction>) -> Result<Slab<Transaction>, Error>
    requires { IsTable table.now }
    ensures ok { IfOk result (λ copy. IsCopy table.now copy) }
    ensures err { IsOkUnless result Error.Memory }
{
    let mut copy = Slab::with_capacity(alloc, MAX_OPEN)?;
    for key in 0..table.capacity() {
        copy_at(alloc, table, key, &mut copy)?;
    }
    Ok(copy)
}

/// Removes the transaction with this key.
pub(crate) fn take(table: &mut Slab<Transaction>, key: usize) -> Option<Transaction>
    requires { IsTable table.old }
    ensures value { result ≡ get table.old key }
    ensures taken { IfSome result (λ t. Put table.old table.new t.id None) }
    ensures none { IfNone result (table.new ≡ table.old) }
{
    table.try_remove(key)
}

/// Marks the request of the transaction with this key as sent.
pub(crate) fn send_at(table: &mut Slab<Transaction>, key: usize)
    requires { IsTable table.old }
    ensures { (t : Value) → get table.old key ≡ Some t
        → Put table.old table.new t.id (Some (sent t)) }
{
    if let Some(transaction) = table.get_mut(key) {
        transaction.send();
    }
}

/// Advances the transaction with this key by one tick.
fn step_at(table: &mut Slab<Transaction>, key: usize, step: Step)
    requires { IsTable table.old }
    ensures table { IsTable table.new }
    ensures at { get table.new key ≡ option_map (stepped step) (get table.old key) }
    ensures others { (k : ℕ) → k ≢ key → get table.new k ≡ get table.old k }
{
    if let Some(transaction) = table.get_mut(key) {
        transaction.step(step);
    }
}

/// Advances each transaction by one tick.
pub(crate) fn step_all(table: &mut Slab<Transaction>, step: Step)
    requires { IsTable table.old }
    ensures table { IsTable table.new }
    ensures known { (id : ℕ)
        → known id table.new.slots ≡ option_map (stepped step) (known id table.old.slots) }
{
    for key in 0..table.capacity() {
        step_at(table, key, step);
    }
}

/// Gives a packet to the transaction with this key, and returns whether it is complete then.
pub(crate) fn hear_in(
    table: &mut Slab<Transaction>,
    key: usize,
    packet: &Packet<'_>,
    part: AnswerPart,
) -> bool
    requires table { IsTable table.old }
    requires same { part ≡ part_of (packet_value packet.now) }
    requires near { packet.now.part < 8 }
    ensures changed { (t : Value) → get table.old key ≡ Some t → let p = packet_value packet.now in
        Put table.old table.new t.id (Some (with_status p (with_end p (with_part p t)))) }
    ensures complete { (t : Value) → get table.old key ≡ Some t → let p = packet_value packet.now in
        result ≡ is_complete (with_status p (with_end p (with_part p t))) }
{
    if let Some(transaction) = table.get_mut(key) {
        transaction.hear(packet, part);
        transaction.is_complete()
    } else {
        false
    }
}

/// The ID of the transaction with this key, if it is at least `first` and the request is due by
/// then.
fn due_at(table: &Slab<Transaction>, key: usize, when: When, first: u16) -> Option<u16>
    ensures none { IfNone result ((t : Value) → get table.now key ≡ Some t → first ≤ t.id
        → is_due_by when t ≡ false) }
    ensures some { IfSome result (λ id. (t : Value) × (get table.now key ≡ Some t)
        × (t.id ≡ id) × (first ≤ id) × (is_due_by when t ≡ true)) }
{
    let transaction = table.get(key)?;
    if first <= transaction.id && transaction.is_due_by(when) {
        Some(transaction.id)
    } else {
        None
    }
}

/// The least ID from `first` on of a transaction whose request is due by then, if any.
pub(crate) fn least_due(table: &Slab<Transaction>, when: When, first: u16) -> Option<u16>
    requires { IsTable table.now }
    ensures some { IfSome result (λ id. IsLeast (is_due_by when) first table.now.slots id) }
    ensures none { IfNone result ((id : ℕ) → first ≤ id
        → passes (is_due_by when) (known id table.now.slots) ≡ false) }
{
    let mut best = None;
    for key in 0..table.capacity() {
        if let Some(id) = due_at(table, key, when, first) {
            match best {
                Some(least) if least <= id => {}
                _ => best = Some(id),
            }
        }
    }
    best
}

/// The bytes of the request of the transaction with this key. Errors: `NoSuch` where it isn't due,
/// `Memory`.
pub(crate) fn request_at(
    alloc: Global,
    table: &Slab<Transaction>,
    key: usize,
) -> Result<Bytes, Error>
    requires { (t : Value) → get table.now key ≡ Some t → IsSendable t.ask }
    ensures ok { IfOk result (λ bytes. (t : Value) → get table.now key ≡ Some t
        → (is_due t ≡ true) × (bytes ≡ bytes_of spec.packet (request_of t))) }
    ensures err { IfErr result (λ e. (t : Value) → get table.now key ≡ Some t
        → e ≡ (if is_due t then Error.Memory else Error.NoSuch Missing)) }
    ensures refused { IfErr result (λ e. (e ≡ Error.NoSuch Missing) ⊎ (e ≡ Error.Memory)) }
{
    match table.get(key) {
        Some(transaction) => {
            if !transaction.is_due() {
                return Err(Error::NoSuch(What::Transaction));
            }
            transaction.request(alloc)
        }
        None => Err(Error::NoSuch(What::Transaction)),
    }
}

/// The outcome of the transaction with this key. The transaction is closed unless it waits.
pub(crate) fn close_at(table: &mut Slab<Transaction>, key: usize) -> Outcome
    requires { IsTable table.old }
    ensures outcome { (t : Value) → get table.old key ≡ Some t → result ≡ outcome_of t }
    ensures after { (t : Value) → get table.old key ≡ Some t
        → Put table.old table.new t.id (left_open (Some t)) }
{
    if waits_at(table, key) {
        return Outcome::Waiting;
    }
    match take(table, key) {
        Some(transaction) => closed(transaction),
        None => Outcome::Waiting,
    }
}

/// Whether the transaction with this key waits for parts.
fn waits_at(table: &Slab<Transaction>, key: usize) -> bool
    ensures { (t : Value) → get table.now key ≡ Some t → result ≡ is_waiting t }
{
    match table.get(key) {
        Some(transaction) => transaction.is_waiting(),
        None => false,
    }
}

/// Whether the transaction with this key accepts a packet.
fn hears_at(table: &Slab<Transaction>, key: usize, from: Peer, packet: &Packet<'_>) -> bool
    ensures { (t : Value) → get table.now key ≡ Some t
        → result ≡ is_heard from (packet_value packet.now) t }
{
    match table.get(key) {
        Some(transaction) => transaction.hears(from, packet),
        None => false,
    }
}

/// The bytes of the release of the transaction with this key, if it is exactly-once. Error:
/// `Memory`.
fn release_at(alloc: Global, table: &Slab<Transaction>, key: usize) -> Result<Option<Bytes>, Error>
    ensures ok { IfOk result (λ release. (t : Value) → get table.now key ≡ Some t → release
        ≡ (if t.ask.exactly_once then Some (bytes_of spec.packet (release_of t)) else None)) }
    ensures err { IsOkUnless result Error.Memory }
{
    match table.get(key) {
        Some(transaction) if transaction.ask.exactly_once => {
            Ok(Some(transaction.release(alloc)?))
        }
        _ => Ok(None),
    }
}

/// Handles a packet for the transaction with this key. Returns the bytes of a release if the packet
/// completes an exactly-once transaction. Error: `Memory`; nothing changes then.
pub(crate) fn hear_at(
    alloc: Global,
    table: &mut Slab<Transaction>,
    key: usize,
    from: Peer,
    packet: &Packet<'_>,
) -> Result<Option<Bytes>, Error>
    requires table { IsTable table.old }
    requires there { (t : Value) × (get table.old key ≡ Some t) }
    ensures table { IsTable table.new }
    ensures others { (t : Value) → get table.old key ≡ Some t → (other : ℕ) → other ≢ t.id
        → known other table.new.slots ≡ known other table.old.slots }
    ensures changed { OnOk result ((t : Value) → get table.old key ≡ Some t
        → Put table.old table.new t.id (Some (after_hearing from (packet_value packet.now) t))) }
    ensures release { IfOk result (λ release. (t : Value) → get table.old key ≡ Some t
        → release ≡ release_for from (packet_value packet.now) (Some t)) }
    ensures ignored { (t : Value) → get table.old key ≡ Some t
        → is_heard from (packet_value packet.now) t ≡ false → IsOk result }
    ensures refused { IsOkUnless result Error.Memory }
    ensures kept { OnErr result (table.new ≡ table.old) }
{
    if !hears_at(table, key, from, packet) {
        return Ok(None);
    }
    // Both are made first, so that a refusal leaves the transaction as it is.
    let release = release_at(alloc, table, key)?;
    let part = part_from(alloc, packet)?;
    if hear_in(table, key, packet, part) {
        Ok(release)
    } else {
        Ok(None)
    }
}
