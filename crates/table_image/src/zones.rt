//! Length-prefixed lists of zones.

ghost use Rattle.std.specs.Prelude.{◌≡◌, ◌++◌, ◌+◌, ◌^◌, ◌<◌, ◌≤◌, length};
ghost use Rattle.std.specs.Prelude.{OnOk, MatchResult};
ghost use Rattle.at_base.specs.Spelling.{bytes_of};
ghost use Rattle.at_base.specs.Reading.{read};
ghost use Rattle.table_image.specs.Checking.{Checks};
ghost use Rattle.table_image.specs.Flaws.{faults, GoesPast};
ghost use Rattle.table_image.specs.Versions.{zone_limit};
ghost use Rattle.table_image.specs.Sizes.{zones_size};
ghost use Rattle.table_image.specs.Spelling.{zone_spelling, zones_spelling};

use crate::checking::{CheckItem, check_counted};
use crate::context::Context;
use crate::count::CountSize;
use crate::flaw::{Fault, Flaw};
use crate::input::name_at;
use crate::item::{FlatItem, Item, WriteItem, pass_counted, put_counted};
use crate::listed::Listed;
use crate::output::put_text;
use crate::sizes::BYTE_SIZE;
use crate::version::Version;
use at_base::Name;
use std::alloc::AllocError;

impl Item for Name {
    ghost spelling = { λ context low. zone_spelling };

    ghost next = { λ _. 0 };

    fn next_low(&self) -> u32 {
        0
    }

    fn written_alike() {}
}

impl FlatItem for Name {
    fn flat_at(_context: Context, _low: u32, bytes: &[u8]) -> Result<(Name, &[u8]), Fault> {
        name_at(bytes)
    }
}

impl WriteItem for Name {
    #[tactic(auto, unfolding(crate::specs::Spelling::text_spelling))]
    fn write_one(&self, _version: Version, out: &mut Vec<u8>) -> Result<(), AllocError> {
        put_text(out, self.as_slice())
    }
}

/// Reads past a count and zones, and returns the number of zones.
#[tactic(auto, unfolding(crate::specs::Spelling::zones_spelling))]
pub(crate) fn pass_zones(version: Version, bytes: &[u8]) -> Result<(usize, &[u8]), Fault>
    ensures { GoesPast (λ xs. length xs) (λ x. (x.0, x.1.now)) result
        (read faults (zones_spelling version) bytes.now) }
{
    let context = Context::nothing(version);
    pass_counted::<Name>(CountSize::One, version.zone_limit(), context, bytes)
}

/// Appends a count and zones.
#[tactic(auto, unfolding(crate::specs::Spelling::zones_spelling))]
pub(crate) fn put_zones(
    out: &mut Vec<u8>,
    version: Version,
    names: &Listed<Name>,
) -> Result<(), AllocError>
    ensures { OnOk result
        (out.new.items ≡ out.old.items ++ bytes_of (zones_spelling version) names.now) }
{
    let context = Context::nothing(version);
    put_counted(out, CountSize::One, version.zone_limit(), context, names)
}

impl CheckItem for Name {
    ghost use Rattle.std.specs.Prelude.{true};
    ghost use Rattle.table_image.specs.Sizes.{text_size};

    ghost short = { λ version name. true };

    ghost max_size = { text_size };

    fn check_one(&self, _context: Context, _low: u32, at: usize) -> Result<usize, Flaw> {
        Ok(at + BYTE_SIZE + self.as_slice().len())
    }
}

/// Checks a count and zones.
#[tactic(auto, unfolding(crate::specs::Spelling::zones_spelling))]
pub(crate) fn check_zones(version: Version, at: usize, names: &Listed<Name>) -> Result<usize, Flaw>
    requires few { length names.now ≤ zone_limit version }
    requires room { at + zones_size < 2 ^ 40 }
    ensures checked { Checks (zones_spelling version) names.now at result }
    ensures near { MatchResult result (λ end. end ≤ at + zones_size)
        (λ m. m.place ≤ at + zones_size) }
{
    let context = Context::nothing(version);
    check_counted(CountSize::One, version.zone_limit(), context, at, names)
}
