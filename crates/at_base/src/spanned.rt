//! Finite maps from disjoint ranges, as slices and vectors by rising range.

ghost use Rattle.std.specs.Prelude.{◌≡◌, ◌≤◌, ◌<◌, suc, length, true, false};
ghost use Rattle.std.specs.Prelude.{IfErr, IfNone, IfOk, IfSome, None, slice_get};
ghost use Rattle.std.specs.Prelude.{vec_capacity, vec_len};
ghost use Rattle.std.specs.List.{list_any};
ghost use Rattle.std.specs.Option.{option_copied};
ghost use Rattle.at_base.specs.Range.{overlaps};
ghost use Rattle.at_base.specs.Spans.{AreApart, IsAt, IsBefore, before, item_for, with_item};

use crate::range::Range;

/// A value for the networks of a range.
pub trait Spanned: Drop {
    ghost use Rattle.std.specs.Prelude.{◌≡◌};
    ghost use Rattle.at_base.specs.Range.{Span};

    ghost span: { Self → Span };

    /// The range.
    fn range(&self) -> Range
        ensures { result ≡ span self.now };
}

/// Whether the item at the index starts below the network.
fn starts_below<T: Spanned>(items: &[T], index: usize, start: u16) -> bool
    requires map { AreApart T.span 0 items.now }
    requires inside { index < length items.now }
    ensures below { result ≡ true → index < before T.span start items.now }
    ensures past { result ≡ false → before T.span start items.now ≤ index }
{
    items[index].range().start() < start
}

/// The number of items that start below the network, which is from `low` to `high`.
fn place_between<T: Spanned>(items: &[T], start: u16, low: usize, high: usize) -> usize
    requires map { AreApart T.span 0 items.now }
    requires from { low ≤ before T.span start items.now }
    requires to { before T.span start items.now ≤ high }
    requires inside { high ≤ length items.now }
    ensures { result ≡ before T.span start items.now }
{
    if low >= high {
        return low;
    }
    let middle = low + (high - low) / 2;
    if starts_below(items, middle, start) {
        place_between(items, start, middle + 1, high)
    } else {
        place_between(items, start, low, middle)
    }
}

/// The number of items that start below the network, by binary search.
fn place_in<T: Spanned>(items: &[T], start: u16) -> usize
    requires { AreApart T.span 0 items.now }
    ensures { result ≡ before T.span start items.now }
{
    place_between(items, start, 0, items.len())
}

/// The number of items that start at the network or below it.
fn place_past<T: Spanned>(items: &[T], net: u16) -> usize
    requires { AreApart T.span 0 items.now }
    ensures place { result ≡ before T.span (suc net) items.now }
    ensures inside { result ≤ length items.now }
{
    items.partition_point(|item| item.range().start() <= net)
}

/// Whether the index is the number of items that start below the network, and less than that of all
/// items.
fn is_place<T: Spanned>(items: &[T], start: u16, index: usize) -> bool
    requires { AreApart T.span 0 items.now }
    ensures { result ≡ true → index ≡ before T.span start items.now }
{
    if index >= items.len() || starts_below(items, index, start) {
        return false;
    }
    index == 0 || starts_below(items, index - 1, start)
}

/// The index of the item of a range, or as an error the index at which one is to be inserted, given
/// the number of items that start below the range.
fn found_at<T: Spanned>(items: &[T], range: Range, place: usize) -> Result<usize, usize>
    requires map { AreApart T.span 0 items.now }
    requires place { place ≡ before T.span range.start items.now }
    ensures found { IfOk result (IsAt T.span range items.now) }
    ensures missing { IfErr result (IsBefore T.span range items.now) }
{
    if place < items.len() && items[place].range() == range {
        Ok(place)
    } else {
        Err(place)
    }
}

/// The index of the item of a range; or, as an error, the index at which one is to be inserted. By
/// binary search.
pub fn place_of<T: Spanned>(items: &[T], range: Range) -> Result<usize, usize>
    requires { AreApart T.span 0 items.now }
    ensures found { IfOk result (IsAt T.span range items.now) }
    ensures missing { IfErr result (IsBefore T.span range items.now) }
{
    let place = place_in(items, range.start());
    found_at(items, range, place)
}

/// The same as `place_of`, but the index `near` is looked at first.
pub fn place_near<T: Spanned>(items: &[T], range: Range, near: usize) -> Result<usize, usize>
    requires { AreApart T.span 0 items.now }
    ensures found { IfOk result (IsAt T.span range items.now) }
    ensures missing { IfErr result (IsBefore T.span range items.now) }
{
    if is_place(items, range.start(), near) {
        return found_at(items, range, near);
    }
    place_of(items, range)
}

/// The index of the item whose range contains the network, if any. By binary search.
pub fn index_at<T: Spanned>(items: &[T], net: u16) -> Option<usize>
    requires { AreApart T.span 0 items.now }
    ensures found { IfSome result
        (λ index. slice_get items.now index ≡ item_for T.span net items.now) }
    ensures inside { IfSome result (λ index. index < length items.now) }
    ensures none { IfNone result (item_for T.span net items.now ≡ None) }
{
    let place = place_past(items, net);
    if place == 0 {
        return None;
    }
    let index = place - 1;
    if items[index].range().end() < net {
        return None;
    }
    Some(index)
}

/// The item whose range contains the network, if any. By binary search.
pub fn item_at<T: Spanned>(items: &[T], net: u16) -> Option<&T>
    requires { AreApart T.span 0 items.now }
    ensures { option_copied result ≡ item_for T.span net items.now }
{
    match index_at(items, net) {
        Some(index) => Some(&items[index]),
        None => None,
    }
}

/// Whether the range overlaps that of any item. By binary search.
pub fn overlaps_any<T: Spanned>(items: &[T], range: Range) -> bool
    requires map { AreApart T.span 0 items.now }
    ensures { result ≡ list_any (λ a. overlaps (T.span a) range) items.now }
{
    let place = place_past(items, range.end());
    place > 0 && items[place - 1].range().end() >= range.start()
}

/// Puts an item at its place, instead of the one of its range, if any. The vector must have room.
pub fn put<T: Spanned>(items: &mut Vec<T>, item: T)
    requires map { AreApart T.span 0 items.old.items }
    requires room { vec_len items.old < vec_capacity items.old }
    ensures { items.new.items ≡ with_item T.span item items.old.items }
{
    match place_of(items.as_slice(), item.range()) {
        Ok(place) => items[place] = item,
        Err(place) => items.insert(place, item).unwrap(),
    }
}
