//! The example of the README of `aarp`.

use aarp::{Chooser, are_on};
use at_base::{Addr, Error, Hw, Range};
use std::alloc::Global;

/// The address of a port on the cable 10-19 that tries 10.7 first, after nobody objected to it.
fn chosen(alloc: Global) -> Result<Option<Addr>, Error> {
    let range = Range::new(10, 19)?;
    let first = [Addr { net: 10, node: 7 }];
    if !are_on(range, &first) {
        return Err(Error::BadRange);
    }
    let mut chooser = Chooser::new(alloc, range, &first, Hw([2, 0, 0, 0, 0, 5]))?;
    for _tick in 0..11 {
        let _probe = chooser.tick();
    }
    Ok(chooser.settled())
}

/// Whether the address that was tried is chosen.
pub(super) fn a_port_has_the_address_that_it_tried(alloc: Global) -> Result<bool, Error> {
    Ok(chosen(alloc)? == Some(Addr { net: 10, node: 7 }))
}
