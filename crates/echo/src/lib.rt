//! The echo service: the reply that a station sends back.
#![tactic(auto)]

ghost use Rattle.std.specs.Prelude.{◌≡◌, ◌≤◌, ◌∷◌, length, None, IfOk, IfSome, IsOk, IsOkUnless};
ghost use Rattle.echo.specs.Echo.{echo_reply};
ghost use Rattle.at_base.specs.Limits.{max_data};

use at_base::{Bytes, Error};
use ddp::{View, kind, socket};
use std::alloc::Global;

/// The first data byte of a request.
pub const REQUEST: u8 = 1;

/// The first data byte of a reply.
pub const REPLY: u8 = 2;

/// The request's data, with the first byte of a reply. Error: `Memory`.
fn reply_data(alloc: Global, rest: &[u8]) -> Result<Bytes, Error>
    ensures made { IfOk result (λ answer. answer ≡ 2 ∷ rest.now) }
    ensures refused { IsOkUnless result Error.Memory }
{
    let mut data = Vec::with_capacity(alloc, 1 + rest.len())?;
    data.push(REPLY)?;
    data.extend_from_slice(rest)?;
    Ok(Bytes::from_vec(data))
}

/// The data of the reply to an echo request, and `None` for any other datagram. A request has type
/// 4, target socket 4, and 1 as the first byte of its data. Error: `Memory`.
///
/// Inside AppleTalk, the chapter on AEP.
pub fn reply(alloc: Global, view: &View<'_>) -> Result<Option<Bytes>, Error>
    ensures made { IfOk result (λ answer. answer ≡ echo_reply view.now) }
    // The data fits in a datagram.
    ensures short { IfOk result (λ answer. IfSome answer (λ bytes. length bytes ≤ max_data)) }
    // Only a request needs memory.
    ensures silent { echo_reply view.now ≡ None → IsOk result }
    ensures refused { IsOkUnless result Error.Memory }
{
    if view.kind() != kind::AEP || view.target_socket() != socket::ECHO {
        return Ok(None);
    }
    match view.payload() {
        [REQUEST, rest @ ..] => Ok(Some(reply_data(alloc, rest)?)),
        _ => Ok(None),
    }
}
