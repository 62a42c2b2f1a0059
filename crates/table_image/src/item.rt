//! Length-prefixed lists of parts.

ghost use Rattle.std.specs.Prelude.{◌≡◌, ◌++◌, ℕ, true, length, OnOk};
ghost use Rattle.std.specs.List.{flat_map};
ghost use Rattle.at_base.specs.Grammar.{Grammar};
ghost use Rattle.at_base.specs.Spelling.{bytes_of};
ghost use Rattle.at_base.specs.Reading.{Gives, read, list_at};
ghost use Rattle.table_image.specs.Contexts.{nothing};
ghost use Rattle.table_image.specs.Counts.{size_of};
ghost use Rattle.table_image.specs.Flaws.{Wrong, faults, GoesPast};
ghost use Rattle.table_image.specs.Spelling.{counted};
ghost use Rattle.table_image.specs.declared.context.Context.{Context as ContextValue};

use crate::context::Context;
use crate::count::CountSize;
use crate::flaw::Fault;
use crate::input::count_within;
use crate::listed::Listed;
use crate::output::put_count;
use crate::version::Version;
use std::alloc::AllocError;

/// A part of an image that lists consist of.
pub trait Item: Drop {
    // The format of the part, given what it may refer to, and the number that the part before it
    // passes on.
    ghost spelling: { ContextValue → ℕ → Grammar Wrong true Self };

    // The number that the part passes to the next one.
    ghost next: { Self → ℕ };

    /// The number that the part passes to the next one, which may not be below it.
    fn next_low(&self) -> u32
        ensures { result ≡ next self.now };

    /// A law, without run time: the bytes of a part don't depend on the parts around it, only on the
    /// version.
    fn written_alike()
        ensures { (context : ContextValue) (low : ℕ) (x : Self)
            → bytes_of (spelling context low) x
            ≡ bytes_of (spelling (nothing context.version) 0) x };
}

/// A part that can be passed over.
pub trait PassItem: Item {
    /// Reads past the part at the front of the bytes without an allocation: returns the number that
    /// the part passes on, and the bytes after it.
    fn pass_one(context: Context, low: u32, bytes: &[u8]) -> Result<(u32, &[u8]), Fault>
        ensures { GoesPast Self.next (λ x. (x.0, x.1.now)) result
            (read faults (Self.spelling context low) bytes.now) };
}

/// A part that is read without an allocation.
pub trait FlatItem: Item {
    /// The part at the front of the bytes, and the bytes after it.
    fn flat_at(context: Context, low: u32, bytes: &[u8]) -> Result<(Self, &[u8]), Fault>
        ensures { Gives (λ x. (x.0, x.1.now)) result
            (read faults (Self.spelling context low) bytes.now) };
}

impl<T: FlatItem> PassItem for T {
    fn pass_one(context: Context, low: u32, bytes: &[u8]) -> Result<(u32, &[u8]), Fault> {
        match T::flat_at(context, low, bytes) {
            Ok((found, rest)) => Ok((found.next_low(), rest)),
            Err(fault) => Err(fault),
        }
    }
}

/// A part that can be written.
pub trait WriteItem: Item {
    /// Appends the bytes of the part in a version's image.
    fn write_one(&self, version: Version, out: &mut Vec<u8>) -> Result<(), AllocError>
        ensures { OnOk result (out.new.items
            ≡ out.old.items ++ bytes_of (Self.spelling (nothing version) 0) self.now) };
}

fn pass_list<T: PassItem>(
    context: Context,
    count: u16,
    bytes: &[u8],
) -> Result<(usize, &[u8]), Fault>
    ensures { GoesPast (λ xs. length xs) (λ x. (x.0, x.1.now)) result
        (list_at (λ low. read faults (T.spelling context low)) T.next 0 count bytes.now) }
{
    let mut rest = bytes;
    let mut low = 0;
    for _ in 0..count {
        let (next, after) = T::pass_one(context, low, rest)?;
        low = next;
        rest = after;
    }
    Ok((count as usize, rest))
}

/// Reads past a count and as many parts, and returns their number.
#[tactic(auto, unfolding(crate::specs::Spelling::counted))]
pub(crate) fn pass_counted<T: PassItem>(
    size: CountSize,
    limit: usize,
    context: Context,
    bytes: &[u8],
) -> Result<(usize, &[u8]), Fault>
    ensures { GoesPast (λ xs. length xs) (λ x. (x.0, x.1.now)) result
        (read faults (counted (size_of size) limit (T.spelling context) T.next) bytes.now) }
{
    let (count, rest) = count_within(bytes, size, limit)?;
    pass_list::<T>(context, count, rest)
}

fn put_list<T: WriteItem>(
    out: &mut Vec<u8>,
    version: Version,
    items: &[T],
) -> Result<(), AllocError>
    ensures { OnOk result (out.new.items
        ≡ out.old.items ++ flat_map (bytes_of (T.spelling (nothing version) 0)) items.now) }
{
    for item in items {
        item.write_one(version, out)?;
    }
    Ok(())
}

/// Appends a count and the parts. The limit doesn't affect the bytes, nor does the context but for
/// its version; they say which format is meant.
pub(crate) fn put_counted<T: WriteItem>(
    out: &mut Vec<u8>,
    size: CountSize,
    _limit: usize,
    context: Context,
    items: &Listed<T>,
) -> Result<(), AllocError>
    ensures { OnOk result
        (out.new.items ≡ out.old.items
        ++ bytes_of (counted (size_of size) _limit (T.spelling context) T.next) items.now) }
{
    T::written_alike();
    put_count(out, size, items.len())?;
    put_list(out, context.version, items.as_slice())?;
    Ok(())
}
