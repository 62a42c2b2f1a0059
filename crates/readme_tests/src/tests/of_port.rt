//! The example of the README of `port`.

use at_base::{Addr, Bytes, Error, Hw};
use port::Port;
use std::alloc::Global;

/// Whether a datagram for 10.2 waits for a request, and goes out when the response comes.
fn is_released(alloc: Global) -> Result<bool, Error> {
    let mut port = Port::new(alloc, Hw([2, 0, 0, 0, 0, 1]))?;
    let next = Addr { net: 10, node: 2 };
    let waits = port.hold(next, Bytes::copy(alloc, &[0, 5, 0, 0, 1])?);
    port.learn(next, Hw([2, 0, 0, 0, 0, 2]))?;
    Ok(waits.first && port.release(next).is_some() && port.find(next).is_some())
}

/// Whether it does.
pub(super) fn a_datagram_waits(alloc: Global) -> Result<bool, Error> {
    is_released(alloc)
}
