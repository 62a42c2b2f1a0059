//! Lists of small parts: the count, and then each part as soon as its bytes are there.

ghost use Rattle.std.specs.Prelude.{◌≡◌, [], None, Some, suc, true, IfOk, IfSome, IsOkUnless, IsSome, OnOk};
ghost use Rattle.image_feed.specs.declared.stop.Stop.TheVariants.{Memory};
ghost use Rattle.at_base.specs.Grammar.{one};
ghost use Rattle.table_image.specs.Counts.{size_of};
ghost use Rattle.image_feed.specs.Growing.{Advances, Steps, counted_on, none_left};
ghost use Rattle.image_feed.specs.Parts.{AreUnread};

use crate::count::{after_next, is_none_left, read_count};
use crate::cut::none_if_cut;
use crate::stop::Stop;
use std::alloc::Global;
use table_image::Listed;
use table_image::parts::{Context, CountSize, FlatItem};

/// A counted list of which the first parts were read.
#[derive(Drop)]
pub(crate) struct Several<T> {
    /// The number of parts still to be read; none until the count was read.
    pub left: Option<u16>,
    /// The parts that were read.
    pub items: Vec<T>,
    /// The number that the last of them passes on.
    pub low: u32,
}

/// The values as a list. One value needs no allocation.
pub(crate) fn listed<T: Drop>(items: Vec<T>) -> Listed<T>
    ensures { result ≡ items.items }
{
    let mut items = items;
    if items.len() != 1 {
        return Listed::from_vec(items);
    }
    match items.pop() {
        Some(item) => Listed::one(item),
        None => Listed::from_vec(items),
    }
}

/// Makes room for so many parts, if there are none.
pub(crate) fn make_room<T: Drop>(items: &mut Vec<T>, count: u16) -> Result<(), Stop>
    ensures stays { items.new.items ≡ items.old.items }
    ensures refused { IsOkUnless result Memory }
{
    if items.is_empty() {
        items.reserve_exact(count as usize)?;
    }
    Ok(())
}

impl<T: FlatItem> Several<T> {
    /// A list of which nothing was read.
    pub(crate) fn new(alloc: Global) -> Several<T>
        ensures { AreUnread result }
    {
        Several {
            left: None,
            items: Vec::new(alloc),
            low: 0,
        }
    }

    /// Whether nothing of it was read.
    pub(crate) fn is_new(&self) -> bool
        ensures { result ≡ true → AreUnread self.now }
    {
        self.left.is_none() && self.items.as_slice().is_empty() && self.low == 0
    }

    /// Whether all of it was read.
    pub(crate) fn is_whole(&self) -> bool
        ensures { result ≡ none_left self.now.left }
    {
        is_none_left(self.left)
    }

    /// The list, which begins anew.
    pub(crate) fn take(&mut self, alloc: Global) -> Listed<T>
        ensures taken { result ≡ self.old.items.items }
        ensures anew { AreUnread self.new }
    {
        let taken = std::mem::replace(&mut self.items, Vec::new(alloc));
        self.left = None;
        self.low = 0;
        listed(taken)
    }

    // Reads the next part, where so many come after it.
    #[inline(always)]
    fn step<'a>(
        &mut self,
        context: Context,
        after: u16,
        bytes: &'a [u8],
    ) -> Result<Option<&'a [u8]>, Stop>
        requires { self.old.left ≡ Some (suc after) }
        ensures steps { Steps (λ rest. rest.now)
            (counted_on one 0 (T.spelling context) T.next self.old.left self.old.items.items
            self.old.low) bytes.now
            (counted_on one 0 (T.spelling context) T.next self.new.left self.new.items.items
            self.new.low) result }
        ensures left { IfOk result (λ o. IfSome o (λ _. self.new.left ≡ Some after)) }
        ensures some { OnOk result (IsSome self.new.left) }
    {
        match T::flat_at(context, self.low, bytes) {
            Ok((item, rest)) => {
                self.low = item.next_low();
                self.items.push(item)?;
                self.left = Some(after);
                Ok(Some(rest))
            }
            Err(fault) => none_if_cut(fault),
        }
    }

    // Reads the parts of which the bytes are there.
    fn advance_items<'a>(&mut self, context: Context, bytes: &'a [u8]) -> Result<&'a [u8], Stop>
        requires { IsSome self.old.left }
        ensures some { OnOk result (IsSome self.new.left) }
        ensures next { Advances (λ rest. rest.now)
            (counted_on one 0 (T.spelling context) T.next self.old.left self.old.items.items
            self.old.low) bytes.now
            (counted_on one 0 (T.spelling context) T.next self.new.left self.new.items.items
            self.new.low) (none_left self.new.left) result }
    {
        let mut rest = bytes;
        while let Some(after) = after_next(self.left) {
            match self.step(context, after, rest)? {
                Some(more) => rest = more,
                None => return Ok(rest),
            }
        }
        Ok(rest)
    }

    /// Reads the count, if it wasn't read, and the parts of which the bytes are there. Returns the
    /// bytes after them.
    pub(crate) fn advance<'a>(
        &mut self,
        context: Context,
        size: CountSize,
        limit: usize,
        bytes: &'a [u8],
    ) -> Result<&'a [u8], Stop>
        ensures { Advances (λ rest. rest.now)
            (counted_on (size_of size) limit (T.spelling context) T.next self.old.left self.old.items.items
            self.old.low) bytes.now
            (counted_on (size_of size) limit (T.spelling context) T.next self.new.left self.new.items.items
            self.new.low) (none_left self.new.left) result }
    {
        let rest = read_count(&mut self.left, size, limit, bytes)?;
        let Some(left) = self.left else {
            return Ok(rest);
        };
        make_room(&mut self.items, left)?;
        self.advance_items(context, rest)
    }
}
