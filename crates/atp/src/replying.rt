//! The packets that a responder sends in reply to a packet, where the user's answer is known
//! already.

ghost use Rattle.std.specs.Prelude.{◌≡◌, ◌⊎◌, ◌<◌, ◌≤◌, ◌↔◌, false, true, length, IfOk, IfErr};
ghost use Rattle.std.specs.Prelude.{IsOk, IsOkUnless, OnErr, OnOk};
ghost use Rattle.atp.specs.Answers.{AreShort, answer_packets, bytes_of_all, is_answer};
ghost use Rattle.atp.specs.InPlace.{packet_value};
ghost use Rattle.atp.specs.Replies as spec;
ghost use Rattle.atp.specs.Responding.{answered, asked_by, heard, request_of, waits, without};

use crate::answer::is_short;
use crate::ask::{AnswerPart, Peer};
use crate::packet::Packet;
use crate::request::Todo;
use crate::responder::Responder;
use at_base::{Bytes, Error};

/// The packets of a kept answer, if the packet is a request for it. Error: `Memory`.
fn kept_packets(responder: &Responder, from: Peer, packet: &Packet<'_>) -> Result<Vec<Bytes>, Error>
    ensures ok { IfOk result (λ packets. packets.items
        ≡ bytes_of_all (spec.kept_packets from (packet_value packet.now) responder.now)) }
    ensures few { IfOk result (λ packets. length packets.items ≤ 8) }
    ensures short { IfOk result (λ packets. AreShort packets.items) }
    // Only a kept answer needs memory.
    ensures again { OnErr result ((heard from (packet_value packet.now) responder.now).0
        ≡ Todo.Again) }
    ensures err { IsOkUnless result Error.Memory }
{
    if !packet.is_request() {
        return Ok(Vec::new(responder.allocator()));
    }
    match responder.parts(from, packet.id, packet.part) {
        Ok(packets) => Ok(packets),
        Err(Error::Memory) => Err(Error::Memory),
        Err(_) => Ok(Vec::new(responder.allocator())),
    }
}

/// Responds to a request that waits for its answer. Error: `Memory`; the request is removed then.
fn respond_or_forget(
    responder: &mut Responder,
    from: Peer,
    id: u16,
    user: &[AnswerPart],
) -> Result<Vec<Bytes>, Error>
    requires some { 0 < length user.now }
    requires short { is_answer user.now ≡ true }
    requires waits { waits (request_of from id responder.old) ≡ true }
    ensures ok { IfOk result (λ packets. packets.items ≡ bytes_of_all
        (answer_packets id (asked_by (request_of from id responder.old)) user.now)) }
    ensures few { IfOk result (λ packets. length packets.items ≤ 8) }
    ensures short { IfOk result (λ packets. AreShort packets.items) }
    ensures after { OnOk result (responder.new ≡ answered from id user.now responder.old) }
    ensures err { IsOkUnless result Error.Memory }
    ensures forgotten { OnErr result (responder.new ≡ without from id responder.old) }
{
    match responder.respond(from, id, user) {
        Ok(packets) => Ok(packets),
        Err(error) => {
            responder.released(from, id);
            Err(error)
        }
    }
}

/// The packets to send in reply to a packet from an asker. A new request is answered with the
/// user's parts, a repeated one with the kept answer. Nothing is sent for any other packet, for a
/// request that waits for its answer, and for a new request where 64 of its kind wait or are kept.
///
/// Inside AppleTalk, the chapter on ATP.
///
/// Errors: `TooLong` above 8 parts, or 578 bytes in a part; `Memory`, which what gets no answer
/// never needs. A refusal changes nothing.
pub fn reply(
    responder: &mut Responder,
    from: Peer,
    packet: &Packet<'_>,
    user: &[AnswerPart],
) -> Result<Vec<Bytes>, Error>
    requires { 0 < length user.now }
    ensures ok { IfOk result (λ packets. packets.items ≡ bytes_of_all
        (spec.reply from (packet_value packet.now) user.now responder.old).0) }
    // A response has at most 8 parts.
    ensures few { IfOk result (λ packets. length packets.items ≤ 8) }
    // Each is the data of a datagram.
    ensures short { IfOk result (λ packets. AreShort packets.items) }
    ensures after { OnOk result (responder.new
        ≡ (spec.reply from (packet_value packet.now) user.now responder.old).1) }
    ensures long { (result ≡ Err Error.TooLong) ↔ (is_answer user.now ≡ false) }
    // What gets no answer needs no memory.
    ensures silent { is_answer user.now ≡ true
        → spec.is_answered from (packet_value packet.now) responder.old ≡ false → IsOk result }
    ensures refused { IfErr result (λ e. (e ≡ Error.TooLong) ⊎ (e ≡ Error.Memory)) }
    ensures kept { OnErr result (responder.new ≡ responder.old) }
{
    if !is_short(user) {
        return Err(Error::TooLong);
    }
    // The kept answer is read first, so that a refusal leaves its time as it is.
    let kept = kept_packets(responder, from, packet)?;
    match responder.heard(from, packet) {
        Ok(Todo::Ask) => respond_or_forget(responder, from, packet.id, user),
        Ok(Todo::Again | Todo::Wait | Todo::Nothing) => Ok(kept),
        Err(Error::Full) => Ok(kept),
        Err(error) => Err(error),
    }
}
