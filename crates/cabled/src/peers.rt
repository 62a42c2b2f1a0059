//! The rules that a router follows towards other stations.

/// Which rules a router follows towards the other stations on its cables.
///
/// This project's own.
#[derive(Clone, Copy, Debug, PartialEq, Eq)]
pub enum Peers {
    /// Those of a play: it hears frames of its own hardware addresses, skips nonextended tuples of
    /// routing data, answers no request for routing data, and no probe changes a mapping.
    Played,
    /// Those of real cables: it hears no frame of its own, takes a nonextended tuple for a range of
    /// one network, answers requests for routing data, and forgets a mapping that a probe shows to be
    /// another station's.
    Real,
}
