//! Lists of items in packets. The items stay in place; they are checked once, and then read one by
//! one.

ghost use Rattle.std.specs.Prelude.{◌≡◌, ◌==◌, ℕ, true, length};
ghost use Rattle.at_base.specs.Grammar.{Grammar};
ghost use Rattle.at_base.specs.InPlace.{AreItems, found};
ghost use Rattle.at_base.specs.Packets.{packets};
ghost use Rattle.at_base.specs.Reading.{Gives, read, list_at, many_at};

use crate::error::Error;
use std::marker::Model;

/// A format of items that packets have lists of.
pub trait ItemFormat: Copy + Drop {
    /// An item.
    type Item: Drop;

    ghost use Rattle.at_base.specs.declared.error.Error.{Error};

    // The format of an item, given the number that the item before it passes on, which is 0 for the
    // first.
    ghost format: { Self → ℕ → Grammar Error true Self.Item };

    // The number that an item passes on.
    ghost next: { Self → Self.Item → ℕ };

    /// The item at the front of the bytes, and the bytes after it.
    fn item_at(self, low: u32, bytes: &[u8]) -> Result<(Self::Item, &[u8]), Error>
        ensures { Gives (λ x. (x.0, x.1.now)) result (read packets (format self low) bytes.now) };

    /// The number that the item passes on.
    fn low_after(self, item: &Self::Item) -> u32
        ensures { result ≡ next self item.now };

    /// A law, without run time: the formats are lawful, and an item has at least one byte.
    fn are_items(self)
        ensures { AreItems (format self) };
}

/// Checks the `count` items at the front of the bytes, and returns the bytes after them.
fn after_items<F: ItemFormat>(format: F, low: u32, count: u8, bytes: &[u8]) -> Result<&[u8], Error>
    ensures { Gives (λ rest. (
      found (list_at (λ n. read packets (F.format format n))
          (F.next format) low count bytes.now),
      rest.now,
    )) result
        (list_at (λ n. read packets (F.format format n)) (F.next format) low count bytes.now) }
{
    if count == 0 {
        return Ok(bytes);
    }
    match format.item_at(low, bytes) {
        Ok((item, rest)) => after_items(format, format.low_after(&item), count - 1, rest),
        Err(error) => Err(error),
    }
}

/// The `count` items at the front of the bytes, and the bytes after them. Allocates nothing.
pub fn items_at<F: ItemFormat>(
    format: F,
    count: u8,
    bytes: &[u8],
) -> Result<(Items<'_, F>, &[u8]), Error>
    ensures { Gives (λ x. (x.0, x.1.now)) result
        (list_at (λ low. read packets (F.format format low)) (F.next format) 0 count bytes.now) }
{
    let rest = after_items(format, 0, count, bytes)?;
    let items = Items {
        format,
        low: 0,
        left: count as usize,
        rest: bytes,
    };
    Ok((items, rest))
}

/// The items up to the end of the bytes. Allocates nothing.
pub fn all_items<F: ItemFormat>(format: F, bytes: &[u8]) -> Result<Items<'_, F>, Error>
    ensures { Gives (λ x. x) result (many_at (λ low. read packets (F.format format low))
        (F.next format) 0 (length bytes.now) bytes.now) }
{
    format.are_items();
    let mut low = 0;
    let mut left = 0;
    let mut rest = bytes;
    while rest.len() > 0 {
        match format.item_at(low, rest) {
            Ok((item, after)) => {
                low = format.low_after(&item);
                left += 1;
                rest = after;
            }
            Err(error) => return Err(error),
        }
    }
    Ok(Items {
        format,
        low: 0,
        left,
        rest: bytes,
    })
}

/// The items that are left of a list in a packet; an iterator. Contracts see them as a list.
#[derive(Debug, Drop)]
pub struct Items<'a, F: ItemFormat> {
    format: F,
    low: u32,
    left: usize,
    rest: &'a [u8],
}

impl<'a, F: ItemFormat> Model for Items<'a, F> {
    ghost use Rattle.std.specs.Prelude.{List};
    ghost use Rattle.at_base.specs.InPlace.{found, IsFound};
    ghost use Rattle.at_base.specs.Packets.{packets};
    ghost use Rattle.at_base.specs.Reading.{read, list_at};

    ghost Value = { List F.Item };

    ghost view = { λ i. found (list_at (λ low. read packets (F.format i.format low))
        (F.next i.format) i.low i.left i.rest.now) };

    ghost invariant = { λ i. IsFound (list_at (λ low. read packets (F.format i.format low))
        (F.next i.format) i.low i.left i.rest.now) };
}

impl<'a, F: ItemFormat> Items<'a, F> {
    /// The same items once more.
    pub fn again(&self) -> Items<'a, F>
        ensures { result ≡ self.now }
    {
        Items {
            format: self.format,
            low: self.low,
            left: self.left,
            rest: self.rest,
        }
    }

    /// Whether no items are left.
    pub fn is_empty(&self) -> bool
        ensures { result ≡ (length self.now == 0) }
    {
        self.left == 0
    }
}

impl<'a, F: ItemFormat> Iterator for Items<'a, F> {
    type Item = F::Item;

    ghost use Rattle.std.specs.Prelude.{◌≡◌, ◌++◌, [], length, option_to_list, IfNone};
    ghost use Rattle.std.specs.Iterator.{at_most};

    ghost next_gives = { λ old result new. (old ≡ option_to_list result ++ new)
        × IfNone result (old ≡ []) };

    ghost remaining = { λ left. at_most (length left) };

    fn next(&mut self) -> Option<F::Item> {
        if self.left == 0 {
            return None;
        }
        match self.format.item_at(self.low, self.rest) {
            Ok((item, rest)) => {
                self.low = self.format.low_after(&item);
                self.left -= 1;
                self.rest = rest;
                Some(item)
            }
            Err(_) => unreachable!(),
        }
    }
}
