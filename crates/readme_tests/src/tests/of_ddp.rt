//! The example of the README of `ddp`.

use at_base::{Addr, Bytes, Error};
use ddp::{Header, View, kind, set_hops, socket, write};
use std::alloc::Global;

/// Sends "ping" to the echo socket of 30.5, as it leaves a router two cables further on.
fn ping(alloc: Global) -> Result<Bytes, Error> {
    let header = Header {
        summed: true,
        target: Addr { net: 30, node: 5 },
        source: Addr { net: 10, node: 7 },
        target_socket: socket::ECHO,
        source_socket: 128,
        kind: kind::AEP,
    };
    let mut bytes = write(alloc, &header, b"\x01ping")?.into_vec();
    let hops = View::read(&bytes)?.hops();
    if hops <= 13 {
        set_hops(&mut bytes, hops + 2);
    }
    View::read(&bytes)?.check()?;
    Ok(Bytes::from_vec(bytes))
}

const PING: [u8; 18] = [
    0x08, 0x12, 0x83, 0xF2, // hop count 2, length 18, checksum
    0x00, 0x1E, 0x00, 0x0A, 0x05, 0x07, // to 30.5, from 10.7
    0x04, 0x80, 0x04, // to socket 4, from socket 128, type 4
    0x01, 0x70, 0x69, 0x6E, 0x67, // a request, "ping"
];

/// Whether the ping has these bytes.
pub(super) fn a_ping_is_sent(alloc: Global) -> Result<bool, Error> {
    Ok(ping(alloc)?.as_slice() == PING.as_slice())
}
