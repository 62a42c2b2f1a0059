//! The example of the README of `atp`, and its law on a responder.

use at_base::{Addr, Bytes, Error};
use atp::{AnswerPart, Packet, Peer, Responder, Todo};
use std::alloc::Global;

/// The packets that answer a request from 10.7, socket 128, with one part, or none where nothing
/// new is asked.
fn answer(alloc: Global, responder: &mut Responder, bytes: &[u8]) -> Result<Vec<Bytes>, Error> {
    let from = Peer {
        addr: Addr { net: 10, node: 7 },
        socket: 128,
    };
    let packet = Packet::read(bytes)?;
    match responder.heard(from, &packet)? {
        Todo::Ask => {
            let payload = Bytes::copy(alloc, b"hello")?;
            let part = AnswerPart {
                user: [0; 4],
                payload,
            };
            responder.respond(from, packet.id, &[part])
        }
        Todo::Again => responder.parts(from, packet.id, packet.part),
        Todo::Wait | Todo::Nothing => Ok(Vec::new(alloc)),
    }
}

/// An exactly-once request for part 0, with transaction ID 1.
const ONCE: [u8; 8] = [0x60, 1, 0, 1, 0, 0, 0, 0];

/// The response with part 0, which is the last one, and "hello".
const HELLO: [u8; 13] = [0x90, 0, 0, 1, 0, 0, 0, 0, b'h', b'e', b'l', b'l', b'o'];

/// Whether the responder answers the request with "hello".
fn says_hello(alloc: Global, responder: &mut Responder) -> Result<bool, Error> {
    match answer(alloc, responder, &ONCE)?.as_slice() {
        [packet] => Ok(packet.as_slice() == HELLO.as_slice()),
        _ => Ok(false),
    }
}

/// Whether a new responder answers a request and its repeat.
pub(super) fn a_request_and_its_repeat_are_answered(alloc: Global) -> Result<bool, Error> {
    let mut responder = Responder::new(alloc)?;
    atp::requests_are_few(&responder);
    let first = says_hello(alloc, &mut responder);
    let second = says_hello(alloc, &mut responder);
    match (first, second) {
        (Ok(first), Ok(second)) => Ok(first && second),
        (Err(error), _) | (_, Err(error)) => Err(error),
    }
}
