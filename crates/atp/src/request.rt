//! A request that a responder received.

ghost use Rattle.std.specs.Prelude.{◌≡◌, is_some, IfOk, IsOkUnless};
ghost use Rattle.atp.specs.InPlace.{packet_value};
ghost use Rattle.atp.specs.Responding as spec;
ghost use Rattle.atp.specs.Responding.{new_request, older, repeated, same_peer, with_answer};

use crate::answer::Answer;
use crate::ask::Peer;
use crate::packet::Packet;
use at_base::Error;
use std::alloc::Global;

/// The action for a packet that a responder received.
///
/// Inside AppleTalk, the chapter on ATP.
#[derive(Clone, Copy, Debug, PartialEq, Eq)]
pub enum Todo {
    /// A new request: the user is to answer it.
    Ask,
    /// A request that was answered: the kept answer is to be sent again.
    Again,
    /// A request that already waits for its answer.
    Wait,
    /// The packet isn't a request.
    Nothing,
}

/// A request: its asker and ID, the parts asked for, the kept answer, and the number of ticks for
/// which the answer is still kept.
#[derive(Debug, Drop)]
pub(crate) struct Request {
    pub(crate) from: Peer,
    pub(crate) id: u16,
    pub(crate) once: bool,
    pub(crate) asked: u8,
    pub(crate) release: u16,
    pub(crate) answer: Option<Answer>,
    pub(crate) left: u16,
}

/// Whether the sockets are equal.
fn is_same(a: Peer, b: Peer) -> bool
    ensures { result ≡ same_peer a b }
{
    a.addr.net == b.addr.net && a.addr.node == b.addr.node && a.socket == b.socket
}

impl Request {
    /// A new request, without an answer.
    pub(crate) fn new(from: Peer, packet: &Packet<'_>) -> Request
        ensures { result ≡ new_request from (packet_value packet.now) }
    {
        Request {
            from,
            id: packet.id,
            once: packet.is_exactly_once(),
            asked: packet.part,
            release: packet.release_ticks(),
            answer: None,
            left: 0,
        }
    }

    /// A copy of the request. Error: `Memory`.
    pub(crate) fn copy(&self, alloc: Global) -> Result<Request, Error>
        ensures ok { IfOk result (λ request. request ≡ self.now) }
        ensures err { IsOkUnless result Error.Memory }
    {
        let answer = match &self.answer {
            Some(answer) => Some(Answer::copy(alloc, answer.as_slice())?),
            None => None,
        };
        Ok(Request {
            from: self.from,
            id: self.id,
            once: self.once,
            asked: self.asked,
            release: self.release,
            answer,
            left: self.left,
        })
    }

    /// Whether the request has this asker and ID.
    pub(crate) fn is_of(&self, from: Peer, id: u16) -> bool
        ensures { result ≡ spec.is_of from id self.now }
    {
        is_same(self.from, from) && self.id == id
    }

    /// Whether the request was answered.
    pub(crate) fn is_answered(&self) -> bool
        ensures { result ≡ is_some self.now.answer }
    {
        self.answer.is_some()
    }

    /// Restarts the time of its answer.
    pub(crate) fn repeat(&mut self)
        ensures { self.new ≡ repeated self.old }
    {
        self.left = self.release;
    }

    /// Keeps the answer to the request, and starts its time.
    pub(crate) fn keep(&mut self, answer: Answer)
        ensures { self.new ≡ with_answer answer self.old }
    {
        self.answer = Some(answer);
        self.left = self.release;
    }

    /// Whether its answer has at most one tick left.
    pub(crate) fn is_over(&self) -> bool
        ensures { result ≡ spec.is_over self.now }
    {
        self.answer.is_some() && self.left <= 1
    }

    /// Advances the time of its answer by one tick. The answer must have more than one tick left.
    pub(crate) fn tick(&mut self)
        ensures { self.new ≡ older self.old }
    {
        if self.answer.is_some() {
            self.left = self.left.saturating_sub(1);
        }
    }
}
