//! The example of the README of `at_base`.

use at_base::{Addr, Error, Range};
use std::alloc::Global;

/// Whether a station of this address may be on a cable of this range, as a sentence.
fn judged(alloc: Global, start: u16, end: u16, addr: Addr) -> Result<String, Error> {
    let range = Range::new(start, end)?;
    if range.holds(addr.net) {
        Ok(format!(in alloc; "{addr} is in {range}")?)
    } else {
        Ok(format!(in alloc; "{addr} is not in {range}")?)
    }
}

/// Whether a range that has 10.7 and one that hasn't are told apart, and one that ends before it
/// starts is refused.
pub(super) fn addresses_are_judged(alloc: Global) -> Result<bool, Error> {
    let addr = Addr { net: 10, node: 7 };
    let inside = judged(alloc, 10, 19, addr)?.as_str() == "10.7 is in 10-19";
    let outside = judged(alloc, 20, 29, addr)?.as_str() == "10.7 is not in 20-29";
    let turned = judged(alloc, 19, 10, addr).err() == Some(Error::BadRange);
    Ok(inside && outside && turned)
}
