//! The cables of an image.

ghost use Rattle.std.specs.Prelude.{◌≡◌, ◌≤◌, length, IfOk, IsOkUnless};
ghost use Rattle.at_base.specs.Spelling.{IsValue};
ghost use Rattle.freeze.specs.Freezing.{frozen_cable};
ghost use Rattle.table_image.specs.Spelling.{cable_spelling};
ghost use Rattle.table_image.specs.Versions.{zone_limit};
ghost use Rattle.table_image.specs.declared.version.Version.{Version};

use crate::fits::fit_cable;
use at_base::{Error, Name, Range};
use std::alloc::Global;
use table_image::{Cable, Listed};

/// The image's cable with this range and these zones; the first zone is the default zone. Error:
/// `Memory`.
pub fn freeze_cable(alloc: Global, range: Range, zones: &[Name]) -> Result<Cable, Error>
    ensures ok { IfOk result (λ frozen. frozen ≡ frozen_cable range zones.now) }
    // With at most as many zones as an image of a version allows, it is a valid cable of one.
    ensures valid { (v : Version) → length zones.now ≤ zone_limit v
        → IfOk result (λ frozen. IsValue (cable_spelling v) frozen) }
    ensures refused { IsOkUnless result Error.Memory }
{
    let frozen = Cable {
        start: range.start(),
        end: range.end(),
        zones: Listed::from_vec(Vec::from_slice(alloc, zones)?),
    };
    fit_cable(&frozen);
    Ok(frozen)
}
