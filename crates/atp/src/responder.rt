//! A responder: it keeps requests until they are answered, and the answers to exactly-once
//! requests.

ghost use Rattle.std.specs.Prelude.{◌≡◌, ◌⊎◌, ◌<◌, ◌≤◌, ◌↔◌, ◌++◌, ◌∷◌, not, true, false, None, []};
ghost use Rattle.std.specs.Prelude.{length, filter, map, position, is_some, IfOk, IfErr, IfNone};
ghost use Rattle.std.specs.Prelude.{IfSome, IsOk, IsOkUnless, OnErr, OnOk};
ghost use Rattle.std.specs.Option.{option_copied};
ghost use Rattle.atp.specs.InPlace.{packet_value};
ghost use Rattle.atp.specs.Answers.{AreShort, is_answer, answer_packets, bytes_of_all};
ghost use Rattle.atp.specs.Places.{IsPlace, with_first};
ghost use Rattle.atp.specs.Responding as spec;
ghost use Rattle.atp.specs.Responding.{asked_again, asked_by, is_of, is_over, new_request, of_kind};
ghost use Rattle.atp.specs.Responding.{IsRequests, older, parts_or_none, request_of};
ghost use Rattle.atp.specs.Responding.{ticked, waits, with_answer, without};
ghost use Rattle.atp.specs.declared.request.Request.{Request as RequestValue};
ghost use Rattle.at_base.specs.declared.error.What.TheVariants.{Transaction};

use crate::answer::{Answer, is_short, packets_of};
use crate::ask::{AnswerPart, Peer};
use crate::packet::Packet;
use crate::request::{Request, Todo};
use at_base::{Bytes, Error, What};
use std::alloc::Global;
use std::marker::Model;

/// The greatest number of requests of each kind: exactly-once requests, and the others.
pub const MAX_REQUESTS: usize = 64;

/// The requests of a responder: those that wait for an answer, and those whose answer is kept.
///
/// Inside AppleTalk, the chapter on ATP.
#[derive(Debug, Drop)]
pub struct Responder {
    requests: Vec<Request>,
}

impl Model for Responder {
    ghost use Rattle.std.specs.Prelude.{List};
    ghost use Rattle.atp.specs.declared.request.Request.{Request as RequestValue};
    ghost use Rattle.atp.specs.Responding.{IsRequests};

    ghost Value = { List RequestValue };

    ghost view = { λ r. r.requests.items };

    ghost invariant = { λ r. IsRequests r.requests.items };
}

/// The index of the first request with this asker and ID, if any.
fn position_of(requests: &[Request], from: Peer, id: u16) -> Option<usize>
    ensures { result ≡ position (is_of from id) requests.now }
{
    requests.iter().position(|request| request.is_of(from, id))
}

/// The index of the request with this asker and ID, if any.
fn place_of(requests: &[Request], from: Peer, id: u16) -> Option<usize>
    ensures none { IfNone result (request_of from id requests.now ≡ None) }
    ensures some { IfSome result (λ place.
        (r : RequestValue) × IsPlace (is_of from id) place requests.now r) }
{
    position_of(requests, from, id)
}

/// The number of requests of a kind: exactly-once (`once`) or not.
fn count_of(requests: &[Request], once: bool) -> usize
    ensures { result ≡ of_kind once requests.now }
{
    requests
        .iter()
        .filter(|request| if once { request.once } else { !request.once })
        .count()
}

/// A copy of each request. Error: `Memory`.
fn copy_all(alloc: Global, requests: &[Request]) -> Result<Vec<Request>, Error>
    ensures ok { IfOk result (λ copies. copies.items ≡ requests.now) }
    ensures err { IsOkUnless result Error.Memory }
{
    let mut copies = Vec::with_capacity(alloc, requests.len())?;
    for request in requests {
        copies.push(request.copy(alloc)?)?;
    }
    Ok(copies)
}

/// Removes the request with this asker and ID.
fn forget(requests: &mut Vec<Request>, from: Peer, id: u16)
    ensures { requests.new.items ≡ without from id requests.old.items }
{
    requests.retain(|request| !request.is_of(from, id));
}

/// Removes the requests whose time is over.
fn forget_old(requests: &mut Vec<Request>)
    ensures { requests.new.items ≡ filter (λ r. not (is_over r)) requests.old.items }
{
    requests.retain(|request| !request.is_over());
}

/// Advances each request by one tick.
fn tick_all(requests: &mut [Request])
    ensures { requests.new ≡ map older requests.old }
{
    for request in requests.iter_mut() {
        request.tick();
    }
}

/// Removes the requests whose time is over, and advances the others by one tick.
fn pass_tick(requests: &mut Vec<Request>)
    ensures { requests.new.items ≡ ticked requests.old.items }
{
    forget_old(requests);
    tick_all(requests.as_mut_slice());
}

/// The request with this asker and ID, if any.
fn find(requests: &[Request], from: Peer, id: u16) -> Option<&Request>
    ensures { option_copied result ≡ request_of from id requests.now }
{
    requests.iter().find(|request| request.is_of(from, id))
}

/// The index of the request with this asker and ID, if it waits for an answer.
fn waiting_place(requests: &[Request], from: Peer, id: u16) -> Option<usize>
    ensures none { IfNone result (waits (request_of from id requests.now) ≡ false) }
    ensures some { IfSome result (λ place. (r : RequestValue)
        × IsPlace (is_of from id) place requests.now r × (is_some r.answer ≡ false)) }
{
    let place = place_of(requests, from, id)?;
    if requests[place].is_answered() {
        return None;
    }
    Some(place)
}

/// The answer that is kept for this asker and ID, if any.
fn kept_answer(requests: &[Request], from: Peer, id: u16) -> Option<&Answer>
    ensures { option_copied result ≡ spec.kept (request_of from id requests.now) }
{
    let request = find(requests, from, id)?;
    request.answer.as_ref()
}

/// Handles a request that is known already: if it was answered, the time of its answer is
/// restarted.
fn hear_again(requests: &mut Vec<Request>, place: usize, from: Peer, id: u16) -> Todo
    requires { (r : RequestValue) × IsPlace (is_of from id) place requests.old.items r }
    ensures { IfSome (request_of from id requests.old.items)
        (λ r. (result, requests.new.items) ≡ asked_again from id requests.old.items r) }
{
    let request = &mut requests[place];
    if request.is_answered() {
        request.repeat();
        Todo::Again
    } else {
        Todo::Wait
    }
}

/// Handles a new request. Errors: `Full` where 64 of its kind wait or are kept, `Memory`.
fn hear_new(requests: &mut Vec<Request>, from: Peer, packet: &Packet<'_>) -> Result<Todo, Error>
    ensures ok { IfOk result (λ todo. (todo ≡ Todo.Ask) × (requests.new.items
        ≡ requests.old.items ++ new_request from (packet_value packet.now) ∷ [])) }
    ensures full { (result ≡ Err Error.Full)
        ↔ (spec.has_room (packet_value packet.now) requests.old.items ≡ false) }
    ensures refused { IfErr result (λ e. (e ≡ Error.Full) ⊎ (e ≡ Error.Memory)) }
    ensures kept { OnErr result (requests.new.items ≡ requests.old.items) }
{
    if count_of(requests.as_slice(), packet.is_exactly_once()) >= MAX_REQUESTS {
        return Err(Error::Full);
    }
    // Room is made first, so that a refusal leaves the requests as they are.
    requests.reserve(1)?;
    requests.push(Request::new(from, packet)).unwrap();
    Ok(Todo::Ask)
}

/// Keeps the answer to the request at an index.
fn keep_at(requests: &mut Vec<Request>, place: usize, from: Peer, id: u16, answer: Answer)
    requires { (r : RequestValue) × IsPlace (is_of from id) place requests.old.items r }
    ensures { requests.new.items
        ≡ with_first (is_of from id) (with_answer answer) requests.old.items }
{
    requests[place].keep(answer);
}

impl Responder {
    /// A responder without requests. Error: `Memory`, which an empty responder never needs.
    pub fn new(alloc: Global) -> Result<Responder, Error>
        ensures ok { IfOk result (λ responder. responder ≡ []) }
        ensures made { IsOk result }
        ensures refused { IsOkUnless result Error.Memory }
    {
        Ok(Responder {
            requests: Vec::new(alloc),
        })
    }

    /// The allocator of the requests.
    pub(crate) fn allocator(&self) -> Global {
        *self.requests.allocator()
    }

    /// A copy of the responder. Error: `Memory`.
    pub fn copy(&self) -> Result<Responder, Error>
        ensures ok { IfOk result (λ responder. responder ≡ self.now) }
        ensures refused { IsOkUnless result Error.Memory }
    {
        match copy_all(self.allocator(), self.requests.as_slice()) {
            Ok(requests) => Ok(Responder { requests }),
            Err(error) => Err(error),
        }
    }

    /// Whether a request from an asker is new and there is no room for it, so that it is dropped.
    /// Allocates nothing.
    pub fn is_full_for(&self, from: Peer, packet: &Packet<'_>) -> bool
        ensures { result ≡ spec.is_full_for from (packet_value packet.now) self.now }
    {
        if find(self.requests.as_slice(), from, packet.id).is_some() {
            return false;
        }
        count_of(self.requests.as_slice(), packet.is_exactly_once()) >= MAX_REQUESTS
    }

    /// Handles a packet from an asker, and returns the action for it. A release removes the request
    /// that it names.
    ///
    /// Errors: `Full` for a new request where 64 of its kind wait or are kept, `Memory` for a new
    /// request. A refusal changes nothing.
    pub fn heard(&mut self, from: Peer, packet: &Packet<'_>) -> Result<Todo, Error>
        ensures ok { IfOk result (λ todo.
            (todo, self.new) ≡ spec.heard from (packet_value packet.now) self.old) }
        ensures full { (result ≡ Err Error.Full)
            ↔ (((spec.heard from (packet_value packet.now) self.old).0 ≡ Todo.Ask)
            × (spec.has_room (packet_value packet.now) self.old ≡ false)) }
        ensures refused { IfErr result (λ e. (e ≡ Error.Full) ⊎ (e ≡ Error.Memory)) }
        ensures new_alone { IfErr result (λ e.
            (spec.heard from (packet_value packet.now) self.old).0 ≡ Todo.Ask) }
        ensures kept { OnErr result (self.new ≡ self.old) }
    {
        if packet.is_release() {
            self.released(from, packet.id);
            return Ok(Todo::Nothing);
        }
        if !packet.is_request() {
            return Ok(Todo::Nothing);
        }
        match place_of(self.requests.as_slice(), from, packet.id) {
            Some(place) => Ok(hear_again(&mut self.requests, place, from, packet.id)),
            None => hear_new(&mut self.requests, from, packet),
        }
    }

    /// Answers a request: returns the packets of the parts that were asked for. The answer to an
    /// exactly-once request is kept; any other request is removed.
    ///
    /// Errors: `NoSuch` where no request with this asker and ID waits for an answer; `TooLong`
    /// above 8 parts, or 578 bytes in a part; `Memory`. A refusal changes nothing.
    pub fn respond(
        &mut self,
        from: Peer,
        id: u16,
        parts: &[AnswerPart],
    ) -> Result<Vec<Bytes>, Error>
        requires { 0 < length parts.now }
        ensures ok { IfOk result (λ packets. packets.items ≡ bytes_of_all
            (answer_packets id (asked_by (request_of from id self.old)) parts.now)) }
        ensures few { IfOk result (λ packets. length packets.items ≤ 8) }
        ensures short { IfOk result (λ packets. AreShort packets.items) }
        ensures after { OnOk result (self.new ≡ spec.answered from id parts.now self.old) }
        ensures unasked { (result ≡ Err (Error.NoSuch Transaction))
            ↔ (waits (request_of from id self.old) ≡ false) }
        ensures long { (result ≡ Err Error.TooLong)
            ↔ ((waits (request_of from id self.old) ≡ true)
            × (is_answer parts.now ≡ false)) }
        ensures refused { IfErr result (λ e. (e ≡ Error.NoSuch Transaction)
            ⊎ (e ≡ Error.TooLong) ⊎ (e ≡ Error.Memory)) }
        ensures kept { OnErr result (self.new ≡ self.old) }
    {
        let place = match waiting_place(self.requests.as_slice(), from, id) {
            Some(place) => place,
            None => return Err(Error::NoSuch(What::Transaction)),
        };
        if !is_short(parts) {
            return Err(Error::TooLong);
        }
        let alloc = self.allocator();
        let packets = packets_of(alloc, id, self.requests[place].asked, parts)?;
        if self.requests[place].once {
            // The copy is made first, so that a refusal leaves the request as it is.
            let answer = Answer::copy(alloc, parts)?;
            keep_at(&mut self.requests, place, from, id, answer);
        } else {
            forget(&mut self.requests, from, id);
        }
        Ok(packets)
    }

    /// The packets of the parts of a kept answer that a bitmap asks for.
    ///
    /// Errors: `NoSuch` where no answer for this asker and ID is kept, `Memory`.
    pub fn parts(&self, from: Peer, id: u16, bitmap: u8) -> Result<Vec<Bytes>, Error>
        ensures ok { IfOk result (λ packets. packets.items ≡ bytes_of_all
            (answer_packets id bitmap
            (parts_or_none (spec.kept (request_of from id self.now))))) }
        ensures few { IfOk result (λ packets. length packets.items ≤ 8) }
        ensures short { IfOk result (λ packets. AreShort packets.items) }
        ensures unasked { (result ≡ Err (Error.NoSuch Transaction))
            ↔ (spec.kept (request_of from id self.now) ≡ None) }
        ensures refused { IfErr result (λ e. (e ≡ Error.NoSuch Transaction)
            ⊎ (e ≡ Error.Memory)) }
    {
        match kept_answer(self.requests.as_slice(), from, id) {
            Some(answer) => { packets_of(self.allocator(), id, bitmap, answer.as_slice()) }
            None => Err(Error::NoSuch(What::Transaction)),
        }
    }

    /// Removes the request with this asker and ID. Allocates nothing.
    pub fn released(&mut self, from: Peer, id: u16)
        ensures { self.new ≡ without from id self.old }
    {
        forget(&mut self.requests, from, id);
    }

    /// Advances the responder by one tick, and removes the answers whose time is over. Allocates
    /// nothing.
    pub fn tick(&mut self)
        ensures { self.new ≡ ticked self.old }
    {
        pass_tick(&mut self.requests);
    }
}

/// Does nothing. Its contract has the invariant of a responder's requests: at most 64 of each kind,
/// at most one of each asker and ID, and each is sound.
pub fn requests_are_few(responder: &Responder)
    ensures { IsRequests responder.now }
{
    let _requests = &responder.requests;
}
