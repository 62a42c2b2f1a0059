//! One open transaction of a requester.

ghost use Rattle.std.specs.Prelude.{◌≡◌, ◌≤◌, ◌<◌, ◌+◌, ◌^◌, None, false, length, map};
ghost use Rattle.std.specs.Prelude.{IfOk, IsOkUnless};
ghost use Rattle.std.specs.List.{list_any};
ghost use Rattle.at_base.specs.Spelling.{bytes_of};
ghost use Rattle.atp.specs.Bitmaps as bitmaps_spec;
ghost use Rattle.atp.specs.InPlace.{packet_value};
ghost use Rattle.atp.specs.Packets as packets_spec;
ghost use Rattle.atp.specs.Requesting as requesting_spec;
ghost use Rattle.atp.specs.Requesting.{begun, request_control, request_of, sent, ticked};
ghost use Rattle.atp.specs.Requesting.{answers, is_heard, with_end, with_part, with_status};
ghost use Rattle.atp.specs.Requesting.{part_of, release_of};
ghost use Rattle.at_base.specs.Limits.{max_data};

use crate::ask::{AnswerPart, Ask, Peer};
use crate::packet::{Packet, write};
use at_base::{Bytes, Error};
use std::alloc::Global;

/// The control byte of a request.
const REQUEST: u8 = 0x40;

/// The control byte of an exactly-once request, without its release time.
const REQUEST_ONCE: u8 = 0x60;

/// The control byte of a release.
const RELEASE: u8 = 0xC0;

/// The state of an open transaction: its ID and request; which parts are missing, and the parts
/// received; whether the request is due, and otherwise the number of ticks until it is; the number
/// of requests that may still be sent; and whether the transaction was given up.
#[derive(Debug, Drop)]
pub(crate) struct Transaction {
    pub(crate) id: u16,
    pub(crate) ask: Ask,
    pub(crate) missing: [bool; 8],
    pub(crate) came: [Option<AnswerPart>; 8],
    pub(crate) due: bool,
    pub(crate) wait: u16,
    pub(crate) tries: u8,
    pub(crate) failed: bool,
}

/// The first `count` of eight parts, as flags.
fn first_parts(count: u8) -> [bool; 8]
    ensures { result ≡ bitmaps_spec.first_parts count }
{
    [
        0 < count,
        1 < count,
        2 < count,
        3 < count,
        4 < count,
        5 < count,
        6 < count,
        7 < count,
    ]
}

/// The bitmap of flags, as a number.
fn bitmap(bits: &[bool]) -> u8
    requires { length bits.now ≤ 8 }
    ensures value { result ≡ bitmaps_spec.bitmap bits.now }
    ensures small { result < 2 ^ length bits.now }
{
    match bits {
        [] => 0,
        [first, rest @ ..] => u8::from(*first) + 2 * bitmap(rest),
    }
}

/// Whether one of the flags is set.
fn is_any(bits: &[bool]) -> bool
    ensures { result ≡ list_any (λ bit. bit) bits.now }
{
    bits.iter().any(|bit| *bit)
}

/// Clears all flags.
fn clear_bits(bits: &mut [bool])
    ensures { bits.new ≡ map (λ bit. false) bits.old }
{
    for bit in bits.iter_mut() {
        *bit = false;
    }
}

/// Removes all parts.
fn clear_parts(parts: &mut [Option<AnswerPart>])
    ensures { parts.new ≡ map (λ part. None) parts.old }
{
    for part in parts.iter_mut() {
        *part = None;
    }
}

/// The control byte of a request.
fn control_of(ask: &Ask) -> u8
    requires { ask.now.release ≤ 7 }
    ensures { result ≡ request_control ask.now }
{
    if ask.exactly_once {
        REQUEST_ONCE + ask.release
    } else {
        REQUEST
    }
}

/// The part that a packet carries. Error: `Memory`.
pub(crate) fn part_from(alloc: Global, packet: &Packet<'_>) -> Result<AnswerPart, Error>
    ensures ok { IfOk result (λ part. part ≡ part_of (packet_value packet.now)) }
    ensures err { IsOkUnless result Error.Memory }
{
    Ok(AnswerPart {
        user: packet.user,
        payload: Bytes::copy(alloc, packet.payload)?,
    })
}

/// A copy of a part, if it exists. Error: `Memory`.
fn copy_part(alloc: Global, part: &Option<AnswerPart>) -> Result<Option<AnswerPart>, Error>
    ensures ok { IfOk result (λ copy. copy ≡ part.now) }
    ensures err { IsOkUnless result Error.Memory }
{
    match part {
        Some(part) => Ok(Some(part.copy(alloc)?)),
        None => Ok(None),
    }
}

/// A copy of the eight parts. Error: `Memory`.
fn copy_parts(
    alloc: Global,
    parts: &[Option<AnswerPart>; 8],
) -> Result<[Option<AnswerPart>; 8], Error>
    ensures ok { IfOk result (λ copy. copy ≡ parts.now) }
    ensures err { IsOkUnless result Error.Memory }
{
    let [a, b, c, d, e, f, g, h] = parts;
    Ok([
        copy_part(alloc, a)?,
        copy_part(alloc, b)?,
        copy_part(alloc, c)?,
        copy_part(alloc, d)?,
        copy_part(alloc, e)?,
        copy_part(alloc, f)?,
        copy_part(alloc, g)?,
        copy_part(alloc, h)?,
    ])
}

impl Transaction {
    /// A copy of the transaction. Error: `Memory`.
    pub(crate) fn copy(&self, alloc: Global) -> Result<Transaction, Error>
        ensures ok { IfOk result (λ copy. copy ≡ self.now) }
        ensures err { IsOkUnless result Error.Memory }
    {
        Ok(Transaction {
            id: self.id,
            ask: self.ask.copy(alloc)?,
            missing: self.missing,
            came: copy_parts(alloc, &self.came)?,
            due: self.due,
            wait: self.wait,
            tries: self.tries,
            failed: self.failed,
        })
    }

    /// A new transaction.
    pub(crate) fn new(id: u16, ask: Ask) -> Transaction
        ensures { result ≡ begun id ask }
    {
        Transaction {
            id,
            missing: first_parts(ask.parts),
            came: [None, None, None, None, None, None, None, None],
            due: true,
            wait: 0,
            tries: ask.tries,
            failed: false,
            ask,
        }
    }

    /// Whether no part is missing.
    pub(crate) fn is_complete(&self) -> bool
        ensures { result ≡ requesting_spec.is_complete self.now }
    {
        !is_any(self.missing.as_slice())
    }

    /// Whether the transaction waits for parts.
    pub(crate) fn is_waiting(&self) -> bool
        ensures { result ≡ requesting_spec.is_waiting self.now }
    {
        !self.failed && !self.is_complete()
    }

    /// Whether its request is due.
    pub(crate) fn is_due(&self) -> bool
        ensures { result ≡ requesting_spec.is_due self.now }
    {
        self.is_waiting() && self.due
    }

    /// The bytes of its request. Error: `Memory`.
    pub(crate) fn request(&self, alloc: Global) -> Result<Bytes, Error>
        requires short { length self.now.ask.payload ≤ 578 }
        requires release { self.now.ask.release ≤ 7 }
        ensures ok { IfOk result (λ bytes. bytes ≡ bytes_of packets_spec.packet (request_of self.now)) }
        ensures short { IfOk result (λ bytes. length bytes ≤ max_data) }
        ensures err { IsOkUnless result Error.Memory }
    {
        write(
            alloc,
            control_of(&self.ask),
            bitmap(self.missing.as_slice()),
            self.id,
            self.ask.user,
            self.ask.payload.as_slice(),
        )
    }

    /// The bytes of its release. Error: `Memory`.
    pub(crate) fn release(&self, alloc: Global) -> Result<Bytes, Error>
        ensures ok { IfOk result (λ bytes. bytes ≡ bytes_of packets_spec.packet (release_of self.now)) }
        ensures err { IsOkUnless result Error.Memory }
    {
        write(alloc, RELEASE, 0, self.id, [0; 4], &[])
    }

    /// Marks its request as sent.
    pub(crate) fn send(&mut self)
        ensures { self.new ≡ sent self.old }
    {
        self.due = false;
        self.wait = self.ask.every;
        self.tries = self.tries.saturating_sub(1);
    }

    /// Advances the transaction by one tick.
    pub(crate) fn tick(&mut self)
        ensures { self.new ≡ ticked self.old }
    {
        if !self.is_waiting() || self.due {
            return;
        }
        if 1 < self.wait {
            self.wait -= 1;
        } else {
            self.wait = 0;
            if 0 < self.tries {
                self.due = true;
            } else {
                self.failed = true;
            }
        }
    }

    /// Whether a packet is a response from the socket that the request went to, for a part that it
    /// asked for.
    fn is_answered_by(&self, from: Peer, packet: &Packet<'_>) -> bool
        ensures { result ≡ answers from (packet_value packet.now) self.now }
    {
        packet.is_response()
            && packet.id == self.id
            && (from.addr.net == self.ask.to.net && from.addr.node == self.ask.to.node)
            && from.socket == self.ask.socket
            && packet.part < self.ask.parts
    }

    /// Whether a packet is accepted.
    pub(crate) fn hears(&self, from: Peer, packet: &Packet<'_>) -> bool
        ensures { result ≡ is_heard from (packet_value packet.now) self.now }
    {
        self.is_waiting() && self.is_answered_by(from, packet)
    }

    /// Keeps a part that was missing.
    fn take_part(&mut self, packet: &Packet<'_>, part: AnswerPart)
        requires near { packet.now.part < 8 }
        requires same { part ≡ part_of (packet_value packet.now) }
        ensures { self.new ≡ with_part (packet_value packet.now) self.old }
    {
        let index = packet.part as usize;
        if self.missing[index] {
            self.missing[index] = false;
            self.came[index] = Some(part);
        }
    }

    /// If the packet is marked as the end, nothing after its part is missing.
    fn end(&mut self, packet: &Packet<'_>)
        requires { packet.now.part < 8 }
        ensures { self.new ≡ with_end (packet_value packet.now) self.old }
    {
        if packet.is_end() {
            let count = packet.part as usize + 1;
            let missing = &mut self.missing[..];
            clear_bits(&mut missing[count..]);
            let came = &mut self.came[..];
            clear_parts(&mut came[count..]);
        }
    }

    /// Makes the request due at once, if the responder asks for it.
    fn note_status(&mut self, packet: &Packet<'_>)
        ensures { self.new ≡ with_status (packet_value packet.now) self.old }
    {
        if packet.wants_status() && self.is_waiting() && 0 < self.tries {
            self.due = true;
        }
    }

    /// Handles a packet that is accepted, with the part that it carries.
    pub(crate) fn hear(&mut self, packet: &Packet<'_>, part: AnswerPart)
        requires near { packet.now.part < 8 }
        requires same { part ≡ part_of (packet_value packet.now) }
        ensures { let p = packet_value packet.now in
            self.new ≡ with_status p (with_end p (with_part p self.old)) }
    {
        self.take_part(packet, part);
        self.end(packet);
        self.note_status(packet);
    }
}
