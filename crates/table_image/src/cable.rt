//! Cables of an internet.

ghost use Rattle.table_image.specs.Spelling.{cable_spelling};

use crate::checking::CheckItem;
use crate::context::Context;
use crate::flaw::{Fault, Flaw};
use crate::input::u16_at;
use crate::item::{Item, PassItem, WriteItem};
use crate::listed::Listed;
use crate::output::put_u16;
use crate::sizes::RANGE_SIZE;
use crate::version::Version;
use crate::zones::{check_zones, pass_zones, put_zones};
use at_base::Name;
use std::alloc::AllocError;

/// A cable: a network of the internet. In AppleTalk Phase 2 it has a range of network numbers.
///
/// Inside AppleTalk, the chapters on DDP and ZIP.
#[derive(Debug, PartialEq, Eq, Drop)]
pub struct Cable {
    /// The first network number of its range. The image has no rule that relates it to `end`.
    pub start: u16,
    /// The last network number of its range.
    pub end: u16,
    /// The names of its zones, at most as many as the version allows; the first is the default zone.
    pub zones: Listed<Name>,
}

impl Item for Cable {
    ghost spelling = { λ context low. cable_spelling context.version };

    ghost next = { λ _. 0 };

    fn next_low(&self) -> u32 {
        0
    }

    fn written_alike() {}
}

impl PassItem for Cable {
    #[tactic(auto, unfolding(crate::specs::Spelling::cable_spelling))]
    fn pass_one(context: Context, _low: u32, bytes: &[u8]) -> Result<(u32, &[u8]), Fault> {
        let (_start, rest) = u16_at(bytes)?;
        let (_end, rest) = u16_at(rest)?;
        let (_zones, rest) = pass_zones(context.version, rest)?;
        Ok((0, rest))
    }
}

impl WriteItem for Cable {
    #[tactic(auto, unfolding(crate::specs::Spelling::cable_spelling))]
    fn write_one(&self, version: Version, out: &mut Vec<u8>) -> Result<(), AllocError> {
        put_u16(out, self.start)?;
        put_u16(out, self.end)?;
        put_zones(out, version, &self.zones)
    }
}

impl CheckItem for Cable {
    ghost use Rattle.table_image.specs.Short.{short_cable};
    ghost use Rattle.table_image.specs.Sizes.{cable_size};

    ghost short = { short_cable };

    ghost max_size = { cable_size };

    fn check_one(&self, context: Context, _low: u32, at: usize) -> Result<usize, Flaw> {
        // Read only for the prover: a field that is read is known to fit its type.
        let (_start, _end) = (self.start, self.end);
        check_zones(context.version, at + RANGE_SIZE, &self.zones)
    }
}
