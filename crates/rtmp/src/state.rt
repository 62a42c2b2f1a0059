//! The state of a routing table's row.

/// How recently a row was confirmed. A row ages from `Good` through the other states and is then
/// removed. A row is used for forwarding while it is `Good` or `Suspect`.
///
/// Inside AppleTalk, the chapter on RTMP.
#[derive(Clone, Copy, Debug, PartialEq, Eq)]
pub enum State {
    Good,
    Suspect,
    Bad,
    Last,
}

impl State {
    ghost use Rattle.std.specs.Prelude.{◌≡◌};
    ghost use Rattle.rtmp.specs.States as spec;

    /// Whether a row in this state is used for forwarding.
    pub fn is_usable(self) -> bool
        ensures { result ≡ spec.is_usable self }
    {
        match self {
            State::Good | State::Suspect => true,
            State::Bad | State::Last => false,
        }
    }
}
