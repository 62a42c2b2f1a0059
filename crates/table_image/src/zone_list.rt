//! Zone lists of routers.

ghost use Rattle.std.specs.Prelude.{◌+◌};
ghost use Rattle.table_image.specs.Spelling.{zone_list_spelling};

use crate::checking::CheckItem;
use crate::context::Context;
use crate::flaw::{Fault, Flaw};
use crate::input::{byte_within, rising_at, u16_at};
use crate::item::{Item, PassItem, WriteItem};
use crate::listed::Listed;
use crate::output::{put_byte, put_u16};
use crate::sizes::{BYTE_SIZE, RANGE_SIZE};
use crate::version::Version;
use crate::zones::{check_zones, pass_zones, put_zones};
use at_base::{Cause, Name};
use std::alloc::AllocError;

/// A row of a router's zone information table: the zones of the networks from `start` to `end`, as
/// far as the router knows them.
///
/// Inside AppleTalk, the chapter on ZIP.
#[derive(Debug, PartialEq, Eq, Drop)]
pub struct ZoneList {
    /// The first network number of the range. The zone lists of a router rise strictly by it.
    pub start: u16,
    /// The last network number of the range.
    pub end: u16,
    /// Whether the router knows all zones of the range.
    pub complete: bool,
    /// The names of the zones, at most as many as the version allows; the first is the default zone.
    pub zones: Listed<Name>,
}

impl Item for ZoneList {
    ghost spelling = { λ context low. zone_list_spelling context.version low };

    ghost next = { λ l. l.start + 1 };

    fn next_low(&self) -> u32 {
        u32::from(self.start) + 1
    }

    #[tactic(auto, unfolding(crate::specs::Spelling::zone_list_spelling))]
    fn written_alike() {}
}

impl PassItem for ZoneList {
    #[tactic(auto, unfolding(crate::specs::Spelling::zone_list_spelling))]
    fn pass_one(context: Context, low: u32, bytes: &[u8]) -> Result<(u32, &[u8]), Fault> {
        let (start, rest) = rising_at(bytes, low)?;
        let (_end, rest) = u16_at(rest)?;
        let (_complete, rest) = byte_within(rest, 0, 1, Cause::Value)?;
        let (_zones, rest) = pass_zones(context.version, rest)?;
        Ok((u32::from(start) + 1, rest))
    }
}

impl WriteItem for ZoneList {
    #[tactic(auto, unfolding(crate::specs::Spelling::zone_list_spelling))]
    fn write_one(&self, version: Version, out: &mut Vec<u8>) -> Result<(), AllocError> {
        put_u16(out, self.start)?;
        put_u16(out, self.end)?;
        put_byte(out, u8::from(self.complete))?;
        put_zones(out, version, &self.zones)
    }
}

// The offset of a list's zones from its first byte.
const ZONES_AT: usize = RANGE_SIZE + BYTE_SIZE;

impl CheckItem for ZoneList {
    ghost use Rattle.table_image.specs.Short.{short_list};
    ghost use Rattle.table_image.specs.Sizes.{zone_list_size};

    ghost short = { short_list };

    ghost max_size = { zone_list_size };

    fn check_one(&self, context: Context, low: u32, at: usize) -> Result<usize, Flaw> {
        // Read only for the prover: a field that is read is known to fit its type.
        let _end = self.end;
        if u32::from(self.start) < low {
            return Err(Flaw {
                place: at,
                cause: Cause::Order,
            });
        }
        check_zones(context.version, at + ZONES_AT, &self.zones)
    }
}
