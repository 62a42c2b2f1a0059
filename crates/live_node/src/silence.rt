//! Routers that send no routing data any more.

ghost use Rattle.std.specs.Prelude.{◌≡◌};
ghost use Rattle.live_node.specs.Ticking.{silent};

use crate::live::LiveNode;

/// The number of ticks without routing data after which a node forgets its router: 50 seconds.
const MAX_SILENCE: u8 = 250;

impl LiveNode {
    /// Counts a tick without routing data, if the node has a router. In the 250th the node forgets
    /// its router.
    pub(crate) fn count_silence(&mut self)
        ensures { self.new ≡ record self.old {
          node = record self.old.node {
            router = (silent self.old.node.router self.old.silence).0;
          };
          silence = (silent self.old.node.router self.old.silence).1;
        } }
    {
        if self.node.router().is_none() {
            return;
        }
        if self.silence + 1 < MAX_SILENCE {
            self.silence += 1;
        } else {
            self.node.set_router(None);
            self.silence = 0;
        }
    }
}
