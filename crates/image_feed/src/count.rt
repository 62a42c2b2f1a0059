//! How many parts of a list are still to be read.

ghost use Rattle.std.specs.Prelude.{◌≡◌, ◌⊎◌, suc, true, is_some, IfNone, IfSome, None, Some};
ghost use Rattle.table_image.specs.Counts.{size_of};
ghost use Rattle.image_feed.specs.Growing.{Advances, count_on, none_left};

use crate::cut::unless_cut;
use crate::stop::Stop;
use table_image::parts::{CountSize, count_within};

/// Reads the count of a list, of this size, if it wasn't read before.
pub(crate) fn read_count<'a>(
    left: &mut Option<u16>,
    size: CountSize,
    limit: usize,
    bytes: &'a [u8],
) -> Result<&'a [u8], Stop>
    ensures { Advances (λ rest. rest.now) (count_on (size_of size) limit left.old) bytes.now
        (count_on (size_of size) limit left.new) (is_some left.new) result }
{
    if left.is_some() {
        return Ok(bytes);
    }
    match count_within(bytes, size, limit) {
        Ok((count, rest)) => {
            *left = Some(count);
            Ok(rest)
        }
        Err(fault) => unless_cut(fault, bytes),
    }
}

/// Whether no part is left to be read.
#[inline(always)]
pub(crate) fn is_none_left(left: Option<u16>) -> bool
    ensures { result ≡ none_left left }
{
    match left {
        None => false,
        Some(count) => count == 0,
    }
}

/// The number of parts after the next one, if there is a next one.
#[inline(always)]
pub(crate) fn after_next(left: Option<u16>) -> Option<u16>
    ensures some { IfSome result (λ n. left ≡ Some (suc n)) }
    ensures none { IfNone result ((left ≡ None) ⊎ (none_left left ≡ true)) }
{
    match left {
        None => None,
        Some(0) => None,
        Some(count) => Some(count - 1),
    }
}
