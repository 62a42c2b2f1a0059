//! The answers to questions.

use crate::question::{Question, Wanted, echo_data};
use at_base::Addr;
use ddp::{View, kind};
use nbp::Function;

/// The node number that means any router of a network.
const ANY_ROUTER: u8 = 0;

/// The node number that means every node of a cable.
const EVERY_NODE: u8 = 255;

/// What a datagram answers.
#[derive(Drop)]
enum Answer<'a> {
    /// The lookups with this ID.
    Names(u8),
    /// The echo requests with these data.
    Echo(&'a [u8]),
    /// The transactions with this ID.
    Transaction(u16),
}

/// Whether a target means several stations, or one of several.
pub(crate) fn is_several(target: Addr) -> bool {
    target.node == ANY_ROUTER || target.node == EVERY_NODE
}

/// Whether an answer from this source may come from the target. Network 0 is that of the asker's
/// cable, and an answer is from the network that the station has there.
fn comes_from(target: Addr, source: Addr) -> bool {
    is_several(target)
        || (target.node == source.node && (target.net == 0 || target.net == source.net))
}

/// What data of this type answer, if anything.
fn answer_in(kind: u8, payload: &[u8]) -> Option<Answer<'_>> {
    match kind {
        kind::NBP => names_in(payload),
        kind::AEP => echo_in(payload),
        kind::ATP => response_in(payload),
        _ => None,
    }
}

/// The reply to a lookup.
fn names_in(payload: &[u8]) -> Option<Answer<'_>> {
    let packet = nbp::Packet::at(payload)?;
    if packet.function() == Function::Reply {
        Some(Answer::Names(packet.id()))
    } else {
        None
    }
}

/// The reply to an echo request.
fn echo_in(payload: &[u8]) -> Option<Answer<'_>> {
    match payload {
        [echo::REPLY, rest @ ..] => Some(Answer::Echo(rest)),
        _ => None,
    }
}

/// A part of a response.
fn response_in(payload: &[u8]) -> Option<Answer<'_>> {
    let packet = atp::Packet::at(payload)?;
    if packet.is_response() {
        Some(Answer::Transaction(packet.id))
    } else {
        None
    }
}

/// Whether the bytes are a datagram that answers something.
pub(crate) fn is_answer(bytes: &[u8]) -> bool {
    match View::read(bytes) {
        Ok(view) => answer_in(view.kind(), view.payload()).is_some(),
        Err(_) => false,
    }
}

/// Whether a datagram wants these data back, and no others.
fn has_echoed(asked: &[u8], echoed: &[u8]) -> bool {
    match View::read(asked) {
        Ok(view) => echo_data(view.payload()) == Some(echoed),
        Err(_) => false,
    }
}

/// Whether a datagram answers a question, whose own datagram has the bytes `asked`. What is for
/// another address than the one from which the question came is no answer to it.
pub(crate) fn is_answered(question: &Question, asked: &[u8], answer: &[u8]) -> bool {
    let Ok(view) = View::read(answer) else {
        return false;
    };
    let source = view.source();
    if view.target() != question.source {
        return false;
    }
    match (question.wanted, answer_in(view.kind(), view.payload())) {
        (Wanted::Names(sought), Some(Answer::Names(id))) => sought.id == id,
        (Wanted::Echo(target), Some(Answer::Echo(echoed))) => {
            comes_from(target, source) && has_echoed(asked, echoed)
        }
        (Wanted::Zones(target, asked_id), Some(Answer::Transaction(id))) => {
            comes_from(target, source) && asked_id == id
        }
        _ => false,
    }
}
