//! The example of the README of `echo`.

use at_base::{Bytes, Error};
use ddp::View;
use echo::reply;
use std::alloc::Global;

/// The data that answers the datagram at the front of the bytes, if it is an echo request.
fn answered(alloc: Global, bytes: &[u8]) -> Result<Option<Bytes>, Error> {
    reply(alloc, &View::read(bytes)?)
}

/// The echo request from 10.7, socket 128, to 30.5, after two routers forwarded it.
const PING: [u8; 18] = [
    0x08, 0x12, 0x00, 0x00, // hop count 2, length 18, no checksum
    0x00, 0x1E, 0x00, 0x0A, 0x05, 0x07, // to 30.5, from 10.7
    0x04, 0x80, 0x04, // to socket 4, from socket 128, type 4
    0x01, 0x70, 0x69, 0x6E, 0x67, // a request, "ping"
];

/// The data of the reply to it.
const REPLY: [u8; 5] = [0x02, 0x70, 0x69, 0x6E, 0x67];

/// Whether this data, if any, answers the datagram.
fn is_answered(alloc: Global, bytes: &[u8], wanted: Option<&[u8]>) -> Result<bool, Error> {
    match answered(alloc, bytes)? {
        Some(data) => Ok(wanted == Some(data.as_slice())),
        None => Ok(wanted.is_none()),
    }
}

/// Whether the request is answered, and the same datagram as a reply isn't.
pub(super) fn a_request_is_answered_and_a_reply_is_not(alloc: Global) -> Result<bool, Error> {
    let mut bytes = PING;
    bytes[13] = 0x02;
    Ok(is_answered(alloc, &bytes, None)? && is_answered(alloc, &PING, Some(&REPLY))?)
}
