//! Mappings of ports and nodes that come in pieces.

ghost use Rattle.image_feed.specs.Growing.{Advances, none_left};
ghost use Rattle.image_feed.specs.Parts.{mappings_on};

use crate::several::Several;
use crate::stop::Stop;
use at_base::limits::MAX_MAPPINGS;
use table_image::parts::{Context, CountSize};
use table_image::{Mapping, Version};

/// Reads what the bytes have of the mappings of a port or a node. An image of version 1 has none.
/// Returns the bytes after them.
pub(crate) fn advance_mappings<'a>(
    mappings: &mut Several<Mapping>,
    version: Version,
    bytes: &'a [u8],
) -> Result<&'a [u8], Stop>
    ensures { Advances (λ rest. rest.now) (mappings_on version mappings.old) bytes.now
        (mappings_on version mappings.new) (none_left mappings.new.left) result }
{
    match version {
        Version::V1 => {
            mappings.left = Some(0);
            Ok(bytes)
        }
        Version::V2 => {
            let context = Context::nothing(version);
            mappings.advance(context, CountSize::Two, MAX_MAPPINGS, bytes)
        }
    }
}
