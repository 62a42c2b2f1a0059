//! The tuples of routing data.

ghost use Rattle.std.specs.Prelude.{◌≡◌};
ghost use Rattle.rtmp.specs.Data.{heard_tuple};

use at_base::Range;

/// A range, and its distance from the router that sends the packet.
///
/// Inside AppleTalk, the chapter on RTMP.
#[derive(Clone, Copy, Debug, PartialEq, Eq)]
pub struct Tuple {
    pub range: Range,
    /// The number of routers on the route, 0 to 31; 31 means that the range can't be reached.
    pub distance: u8,
}

/// A tuple of either kind.
///
/// Inside AppleTalk, the chapter on RTMP.
#[derive(Clone, Copy, Debug, PartialEq, Eq)]
pub enum AnyTuple {
    /// An extended tuple: a range and its distance.
    Extended(Tuple),
    /// A nonextended tuple: a network that is no range, as that of a LocalTalk cable, and its
    /// distance.
    Nonextended(u16, u8),
}

/// What a hearer makes of nonextended tuples.
///
/// This project's own.
#[derive(Clone, Copy, Debug, PartialEq, Eq)]
pub enum Nonextended {
    /// They are skipped.
    Skipped,
    /// Each is the range of its one network, but for networks that a range may not have.
    AsRanges,
}

impl AnyTuple {
    /// The range and distance that are heard of the tuple, if any. Allocates nothing.
    #[inline(always)]
    pub fn heard(self, nonextended: Nonextended) -> Option<Tuple>
        ensures { result ≡ heard_tuple nonextended self }
    {
        match (self, nonextended) {
            (AnyTuple::Extended(tuple), _) => Some(tuple),
            (AnyTuple::Nonextended(_, _), Nonextended::Skipped) => None,
            (AnyTuple::Nonextended(net, distance), Nonextended::AsRanges) => {
                match Range::new(net, net) {
                    Ok(range) => Some(Tuple { range, distance }),
                    Err(_) => None,
                }
            }
        }
    }
}
