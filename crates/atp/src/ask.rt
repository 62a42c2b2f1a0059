//! Requests of a requester, and the parts of responses.

ghost use Rattle.std.specs.Prelude.{◌≡◌, IfOk, IsOkUnless};

use at_base::{Addr, Bytes, Error};
use std::alloc::Global;

/// A socket of a node.
#[derive(Clone, Copy, Debug, PartialEq, Eq)]
pub struct Peer {
    pub addr: Addr,
    pub socket: u8,
}

/// A request, as the user of a requester gives it.
///
/// Inside AppleTalk, the chapter on ATP.
#[derive(Debug, Drop)]
pub struct Ask {
    /// The node that the request goes to.
    pub to: Addr,
    /// The socket that the request goes to.
    pub socket: u8,
    /// The greatest number of parts that the response may have: 1 to 8.
    pub parts: u8,
    /// Whether the responder is to handle the request exactly once, even if it comes several times.
    pub exactly_once: bool,
    /// The time for which the responder keeps its answer, as in the low bits of a control byte: 0
    /// to 7.
    pub release: u8,
    /// Four bytes for the users of the transaction.
    pub user: [u8; 4],
    /// The data: at most 578 bytes.
    pub payload: Bytes,
    /// The number of ticks after which the request is sent again: at least 1.
    pub every: u16,
    /// The number of times that the request is sent at most: at least 1.
    pub tries: u8,
}

impl Ask {
    /// A copy of the request. Error: `Memory`.
    pub fn copy(&self, alloc: Global) -> Result<Ask, Error>
        ensures ok { IfOk result (λ ask. ask ≡ self.now) }
        ensures err { IsOkUnless result Error.Memory }
    {
        Ok(Ask {
            to: self.to,
            socket: self.socket,
            parts: self.parts,
            exactly_once: self.exactly_once,
            release: self.release,
            user: self.user,
            payload: Bytes::copy(alloc, self.payload.as_slice())?,
            every: self.every,
            tries: self.tries,
        })
    }
}

/// A part of a response.
///
/// Inside AppleTalk, the chapter on ATP.
#[derive(Debug, Drop)]
pub struct AnswerPart {
    /// Four bytes for the users of the transaction.
    pub user: [u8; 4],
    /// The data: at most 578 bytes.
    pub payload: Bytes,
}

impl AnswerPart {
    /// A copy of the part. Error: `Memory`.
    pub fn copy(&self, alloc: Global) -> Result<AnswerPart, Error>
        ensures ok { IfOk result (λ part. part ≡ self.now) }
        ensures err { IsOkUnless result Error.Memory }
    {
        Ok(AnswerPart {
            user: self.user,
            payload: Bytes::copy(alloc, self.payload.as_slice())?,
        })
    }
}
