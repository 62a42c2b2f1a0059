//! Checks of parts, with the same result as reading the parts if they were written in order.

ghost use Rattle.std.specs.Prelude.{◌+◌, ◌*◌, ◌^◌, ◌<◌, ◌≤◌, ℕ, Bool, length, IsTrue};
ghost use Rattle.std.specs.Prelude.{MatchResult};
ghost use Rattle.std.specs.List.{list_all};
ghost use Rattle.table_image.specs.Counts.{count_len, size_of};
ghost use Rattle.table_image.specs.Sizes.{counted_size};
ghost use Rattle.table_image.specs.Spelling.{counted};
ghost use Rattle.table_image.specs.Checking.{Checks, ChecksList};
ghost use Rattle.table_image.specs.declared.version.Version.{Version as VersionValue};

use crate::context::Context;
use crate::count::CountSize;
use crate::flaw::Flaw;
use crate::item::Item;
use crate::listed::Listed;

/// A part that can be checked.
pub trait CheckItem: Item {
    // The lists of the part are within the limits of a version.
    ghost short: { VersionValue → Self → Bool };

    // The greatest number of bytes of such a part.
    ghost max_size: { ℕ };

    /// Checks the part at the offset `at`. It may refer to the parts of its context, and may not be
    /// below `low`. Returns the offset of its end, or its first flaw.
    fn check_one(&self, context: Context, low: u32, at: usize) -> Result<usize, Flaw>
        requires short { IsTrue (short context.version self.now) }
        requires room { at + max_size < 2 ^ 40 }
        ensures checked { Checks (Self.spelling context low) self.now at result }
        ensures near { MatchResult result (λ end. end ≤ at + max_size)
            (λ m. m.place ≤ at + max_size) };
}

fn check_list<T: CheckItem>(context: Context, at: usize, items: &[T]) -> Result<usize, Flaw>
    requires short { IsTrue (list_all (T.short context.version) items.now) }
    requires room { at + length items.now * T.max_size < 2 ^ 40 }
    ensures checked { ChecksList (T.spelling context) T.next items.now at result }
    ensures near { MatchResult result (λ end. end ≤ at + length items.now * T.max_size)
        (λ m. m.place ≤ at + length items.now * T.max_size) }
{
    let mut end = at;
    let mut low = 0;
    for item in items {
        end = item.check_one(context, low, end)?;
        low = item.next_low();
    }
    Ok(end)
}

/// Checks a count of this size at the offset `at`, and the parts after it.
pub(crate) fn check_counted<T: CheckItem>(
    size: CountSize,
    limit: usize,
    context: Context,
    at: usize,
    items: &Listed<T>,
) -> Result<usize, Flaw>
    requires short { IsTrue (list_all (T.short context.version) items.now) }
    requires few { length items.now ≤ limit }
    requires fits { limit < 2 ^ (8 * count_len (size_of size)) }
    requires room { at + counted_size (size_of size) limit T.max_size < 2 ^ 40 }
    ensures checked { Checks (counted (size_of size) limit (T.spelling context) T.next) items.now at
        result }
    ensures near { MatchResult result
        (λ end. end ≤ at + counted_size (size_of size) limit T.max_size)
        (λ m. m.place ≤ at + counted_size (size_of size) limit T.max_size) }
{
    check_list(context, at + size.len(), items.as_slice())
}
