//! Rows of routing tables.

use crate::state::State;
use at_base::{Addr, Range, Spanned};

/// A row of a routing table: the route to the networks of a range.
///
/// Inside AppleTalk, the chapter on RTMP.
#[derive(Clone, Copy, Debug, PartialEq, Eq)]
pub struct Row {
    /// The range of networks of one cable.
    pub range: Range,
    /// The number of routers on the route, 0 to 31; above 15 the networks can't be reached.
    pub distance: u8,
    /// The index of the router's port at which the route begins.
    pub port: u8,
    /// The next router on that port's cable; 0.0 if the port is on the range's own cable.
    pub next: Addr,
    /// How recently the row was confirmed.
    pub state: State,
}

impl Spanned for Row {
    ghost span = { λ r. r.range };

    fn range(&self) -> Range {
        self.range
    }
}

impl Row {
    ghost use Rattle.std.specs.Prelude.{◌≡◌};
    ghost use Rattle.rtmp.specs.Routes as spec;

    /// Whether a port is on the range's own cable, so that the route has no next router.
    pub fn is_direct(&self) -> bool
        ensures { result ≡ spec.is_direct self.now }
    {
        self.next.is_none()
    }
}
