//! Queries of a router.

use at_base::Addr;

/// A query for the zones of a range, with the port and the router that it goes to.
///
/// Inside AppleTalk, the chapter on ZIP.
#[derive(Clone, Copy, Debug, PartialEq, Eq)]
pub struct Query {
    /// The index of the port on which the query is sent.
    pub port: u8,
    /// The router that the query goes to, on that port's cable.
    pub next: Addr,
    /// The first network of the range.
    pub start: u16,
}
