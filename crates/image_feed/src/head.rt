//! The fields of a part before its list.

ghost use Rattle.std.specs.Prelude.{◌≡◌, is_some};
ghost use Rattle.image_feed.specs.Growing.{Advances, head_on};

use crate::cut::unless_cut;
use crate::stop::Stop;
use table_image::parts::{Context, Fault};

/// The fields of a part before its list.
pub(crate) trait Head: Drop {
    ghost use Rattle.std.specs.Prelude.{ℕ, true};
    ghost use Rattle.at_base.specs.Grammar.{Grammar};
    ghost use Rattle.at_base.specs.Reading.{Gives, read};
    ghost use Rattle.table_image.specs.Flaws.{Wrong, faults};
    ghost use Rattle.table_image.specs.declared.context.Context.{Context as ContextValue};

    // The format of the head, given what it may refer to, and the number that the part before passes
    // on.
    ghost spelling: { ContextValue → ℕ → Grammar Wrong true Self };

    /// The head at the front of the bytes, and the bytes after it.
    fn head_at(context: Context, low: u32, bytes: &[u8]) -> Result<(Self, &[u8]), Fault>
        ensures { Gives (λ x. (x.0, x.1.now)) result
            (read faults (Self.spelling context low) bytes.now) };
}

/// Reads the head of a part, if it wasn't read before.
pub(crate) fn read_head<'a, H: Head>(
    head: &mut Option<H>,
    context: Context,
    low: u32,
    bytes: &'a [u8],
) -> Result<&'a [u8], Stop>
    ensures { Advances (λ rest. rest.now) (head_on (H.spelling context low) head.old) bytes.now
        (head_on (H.spelling context low) head.new) (is_some head.new) result }
{
    if head.is_some() {
        return Ok(bytes);
    }
    match H::head_at(context, low, bytes) {
        Ok((found, rest)) => {
            *head = Some(found);
            Ok(rest)
        }
        Err(fault) => unless_cut(fault, bytes),
    }
}
