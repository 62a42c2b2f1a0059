//! A router's zone lists, which are often those of another router.

ghost use Rattle.std.specs.Prelude.{◌≡◌, ◌≤◌, [], ◌+◌, ◌++◌, ℕ, List, Ok, Some, length, suc, take, true};
ghost use Rattle.std.specs.Prelude.{IfNone, IfOk, IfSome, IsOkUnless, IsSome, OnOk, unwrap_or};
ghost use Rattle.std.specs.Option.{option_copied};
ghost use Rattle.at_base.specs.Reading.{read};
ghost use Rattle.table_image.specs.Flaws.{faults};
ghost use Rattle.image_feed.specs.declared.stop.Stop.TheVariants.{Memory};
ghost use Rattle.table_image.specs.declared.version.Version.{Version as VersionValue};
ghost use Rattle.table_image.specs.declared.zone_list.ZoneList.{ZoneList as ListValue};
ghost use Rattle.image_feed.specs.Growing.{Advances, Leads, Wants, items_on, none_left};
ghost use Rattle.image_feed.specs.Fronts.{front_of};
ghost use Rattle.table_image.specs.Spelling.{zone_list_spelling};
ghost use Rattle.image_feed.specs.Zones.{IsFresh, is_next_whole, lists_on, next_on, zones_in};

use crate::count::{after_next, is_none_left, read_count};
use crate::front::{Again, Front, after_first, part_at, parts_of};
use crate::head::read_head;
use crate::heading::ListHead;
use crate::names::{Names, after_zones};
use crate::stop::Stop;
use at_base::limits::MAX_LISTS;
use at_base::{Cause, Name};
use std::alloc::Global;
use table_image::parts::{Context, CountSize, Item, byte_within, rising_at, u16_at};
use table_image::{Listed, Version, ZoneList};

impl Again for ZoneList {
    fn once_more(&self, alloc: Global) -> Result<ZoneList, Stop> {
        let zones = match self.zones.again() {
            Some(zones) => zones,
            None => Listed::from_vec(Vec::from_slice(alloc, self.zones.as_slice())?),
        };
        Ok(ZoneList {
            start: self.start,
            end: self.end,
            complete: self.complete,
            zones,
        })
    }
}

/// A count and zone lists, of which the first were read, and the next one was begun. Another
/// router's lists, which they may be like, are given to each call.
#[derive(Drop)]
pub(crate) struct Lists {
    /// The number of lists still to be read; none until the count was read.
    pub left: Option<u16>,
    /// The lists that were read.
    pub front: Front<ZoneList>,
    /// The number that the last of them passes on.
    pub low: u32,
    /// The head of the next list, if it was read.
    pub head: Option<ListHead>,
    /// The zones of the next list.
    pub names: Names,
}

/// The zones of the list, if there is one.
fn zones_of(list: Option<&ZoneList>) -> Option<&Listed<Name>>
    ensures { unwrap_or (option_copied result) [] ≡ zones_in (option_copied list.entry) }
{
    match list {
        Some(list) => Some(&list.zones),
        None => None,
    }
}

/// The most bytes of a zone list with so many zones.
fn room_of(zones: usize) -> usize {
    zones.saturating_mul(33).saturating_add(6)
}

/// The bytes after the zone list, if they begin with it.
#[inline(always)]
#[tactic(auto, unfolding(table_image::specs::Spelling::zone_list_spelling))]
fn after_list<'a>(list: &ZoneList, version: Version, low: u32, bytes: &'a [u8]) -> Option<&'a [u8]>
    ensures { IfSome result (λ rest.
        read faults (zone_list_spelling version low) bytes.now ≡ Ok (list.now, rest.now)) }
{
    let Ok((start, rest)) = rising_at(bytes, low) else {
        return None;
    };
    let Ok((end, rest)) = u16_at(rest) else {
        return None;
    };
    let Ok((complete, rest)) = byte_within(rest, 0, 1, Cause::Value) else {
        return None;
    };
    if start != list.start || end != list.end || (complete == 1) != list.complete {
        return None;
    }
    after_zones(list.zones.as_slice(), version, rest)
}

/// The bytes after the zone list, if they begin with it. Bytes that may end within it aren't looked
/// at, since they are read name by name then.
#[inline(always)]
fn after_whole<'a>(list: &ZoneList, version: Version, low: u32, bytes: &'a [u8]) -> Option<&'a [u8]>
    ensures { IfSome result (λ rest. read faults (zone_list_spelling version low) bytes.now
        ≡ Ok (list.now, rest.now)) }
{
    if bytes.len() < room_of(list.zones.len()) {
        return None;
    }
    after_list(list, version, low, bytes)
}

/// How many of the zone lists the bytes begin with, at most so many, the number that the last of
/// them passes on, and the bytes after them. A list within which the bytes may end isn't looked at.
#[inline(never)]
fn after_same<'a>(
    lists: &[ZoneList],
    version: Version,
    most: u16,
    low: u32,
    bytes: &'a [u8],
) -> (u16, u32, &'a [u8])
    ensures most { result.0 ≤ most }
    ensures fits { result.0 ≤ length lists.now }
    ensures leads { (front : List ListValue) (n : ℕ)
        → Leads (items_on (zone_list_spelling version) (λ l. l.start + 1) front low (result.0 + n))
        bytes.now (items_on (zone_list_spelling version) (λ l. l.start + 1)
        (front ++ take result.0 lists.now) result.1 n) result.2.now }
{
    let mut rest = bytes;
    let mut last = low;
    let mut count = 0;
    for list in lists {
        if count == most {
            return (count, last, rest);
        }
        match after_whole(list, version, last, rest) {
            Some(after) => rest = after,
            None => return (count, last, rest),
        }
        last = list.next_low();
        count += 1;
    }
    (count, last, rest)
}

impl Lists {
    /// Lists of which nothing was read.
    pub(crate) fn new() -> Lists
        ensures { IsFresh result }
    {
        Lists {
            left: None,
            front: Front::Same(0),
            low: 0,
            head: None,
            names: Names::new(),
        }
    }

    /// Whether nothing of it was read.
    pub(crate) fn is_new(&self) -> bool
        ensures { result ≡ true → IsFresh self.now }
    {
        match self.front {
            Front::Same(count) => {
                count == 0
                    && self.left.is_none()
                    && self.low == 0
                    && self.head.is_none()
                    && self.names.is_fresh()
            }
            Front::Own(_) => false,
        }
    }

    /// Whether all of it was read.
    pub(crate) fn is_whole(&self) -> bool
        ensures { result ≡ none_left self.now.left }
    {
        is_none_left(self.left)
    }

    // Goes past the lists that are the other router's, if all before them are, and the bytes surely
    // go on past them.
    #[inline(always)]
    fn pass_all<'a>(&mut self, version: Version, like: &[ZoneList], bytes: &'a [u8]) -> &'a [u8]
        ensures leads { Leads (lists_on version like.now self.old) bytes.now
            (lists_on version like.now self.new) result.now }
        ensures some { IsSome self.old.left → IsSome self.new.left }
        ensures fewer { unwrap_or self.new.left 0 ≤ unwrap_or self.old.left 0 }
    {
        let Front::Same(count) = self.front else {
            return bytes;
        };
        let Some(left) = self.left else {
            return bytes;
        };
        if count > like.len() || self.head.is_some() || !self.names.is_fresh() {
            return bytes;
        }
        let expected = after_first(like, count);
        let (more, low, rest) = after_same(expected, version, left, self.low, bytes);
        self.left = Some(left - more);
        self.front = Front::Same(count + more as usize);
        self.low = low;
        rest
    }

    // Goes past the next list, where so many come after it, if it is the other router's and the
    // bytes surely go on past it.
    #[inline(always)]
    fn pass_same<'a>(
        &mut self,
        alloc: Global,
        version: Version,
        like: &[ZoneList],
        after: u16,
        bytes: &'a [u8],
    ) -> Result<Option<&'a [u8]>, Stop>
        requires { self.old.left ≡ Some (suc after) }
        ensures passed { IfOk result (λ o. IfSome o (λ rest.
            Leads (lists_on version like.now self.old) bytes.now (lists_on version like.now self.new)
            rest.now)) }
        ensures stays { IfOk result (λ o. IfNone o (self.new ≡ self.old)) }
        ensures left { IfOk result (λ o. IfSome o (λ _. self.new.left ≡ Some after)) }
        ensures refused { IsOkUnless result Memory }
    {
        if self.head.is_some() || !self.names.is_fresh() {
            return Ok(None);
        }
        let Some(list) = part_at(like, self.front.place()) else {
            return Ok(None);
        };
        let Some(rest) = after_whole(list, version, self.low, bytes) else {
            return Ok(None);
        };
        self.front.push_same(alloc, like, list)?;
        self.low = list.next_low();
        self.left = Some(after);
        Ok(Some(rest))
    }

    // Reads what the bytes have of the next list.
    #[inline(never)]
    fn advance_next<'a>(
        &mut self,
        alloc: Global,
        version: Version,
        like: &[ZoneList],
        bytes: &'a [u8],
    ) -> Result<&'a [u8], Stop>
        ensures next { Advances (λ rest. rest.now) (next_on version like.now self.old) bytes.now
            (next_on version like.now self.new) (is_next_whole self.new) result }
        ensures others { (self.new.low ≡ self.old.low) × (self.new.left ≡ self.old.left)
            × (self.new.front ≡ self.old.front) }
    {
        let context = Context::nothing(version);
        let rest = read_head(&mut self.head, context, self.low, bytes)?;
        let Some(_) = self.head else {
            return Ok(rest);
        };
        let expected = part_at(like, self.front.place());
        self.names.advance(alloc, version, zones_of(expected), rest)
    }

    // Ends the next list, whose head and zones were read, where so many come after it.
    #[inline(never)]
    fn end(
        &mut self,
        alloc: Global,
        like: &[ZoneList],
        head: ListHead,
        after: u16,
    ) -> Result<(), Stop>
        requires left { self.old.left ≡ Some (suc after) }
        requires head { self.old.head ≡ Some head }
        requires whole { none_left self.old.names.left ≡ true }
        ensures ended { OnOk result ((version : VersionValue) (bytes : List ℕ)
            → lists_on version like.now self.old bytes ≡ lists_on version like.now self.new bytes) }
        ensures left { OnOk result (self.new.left ≡ Some after) }
        ensures refused { IsOkUnless result Memory }
    {
        self.head = None;
        self.left = Some(after);
        self.low = u32::from(head.start) + 1;
        let expected = part_at(like, self.front.place());
        if let Some(list) = expected {
            if head.is_of(list) && self.names.are_same(list.zones.as_slice()) {
                self.names = Names::new();
                return self.front.push_same(alloc, like, list);
            }
        }
        let zones = self.names.take(alloc, zones_of(expected))?;
        self.front.push(alloc, like, head.with(zones), after)
    }

    // Reads the lists of which the bytes are there.
    fn advance_lists<'a>(
        &mut self,
        alloc: Global,
        version: Version,
        like: &[ZoneList],
        bytes: &'a [u8],
    ) -> Result<&'a [u8], Stop>
        requires { IsSome self.old.left }
        ensures some { OnOk result (IsSome self.new.left) }
        ensures next { Advances (λ rest. rest.now) (lists_on version like.now self.old) bytes.now
            (lists_on version like.now self.new) (none_left self.new.left) result }
    {
        let mut rest = self.pass_all(version, like, bytes);
        while let Some(after) = after_next(self.left) {
            if let Some(more) = self.pass_same(alloc, version, like, after, rest)? {
                rest = more;
                continue;
            }
            rest = self.advance_next(alloc, version, like, rest)?;
            let Some(head) = self.head else {
                return Ok(rest);
            };
            if !self.names.is_whole() {
                return Ok(rest);
            }
            self.end(alloc, like, head, after)?;
            rest = self.pass_all(version, like, rest);
        }
        Ok(rest)
    }

    /// Reads the count, if it wasn't read, and the lists of which the bytes are there. Returns the
    /// bytes after them.
    pub(crate) fn advance<'a>(
        &mut self,
        alloc: Global,
        version: Version,
        like: Option<&Listed<ZoneList>>,
        bytes: &'a [u8],
    ) -> Result<&'a [u8], Stop>
        ensures { Advances (λ rest. rest.now)
            (lists_on version (unwrap_or (option_copied like.entry) []) self.old) bytes.now
            (lists_on version (unwrap_or (option_copied like.entry) []) self.new)
            (none_left self.new.left) result }
    {
        let rest = read_count(&mut self.left, CountSize::One, MAX_LISTS, bytes)?;
        if self.left.is_none() {
            return Ok(rest);
        }
        self.advance_lists(alloc, version, parts_of(like), rest)
    }

    /// The bytes end within a name as long as they are fewer than this.
    pub(crate) fn wants(&self, bytes: &[u8]) -> usize
        ensures { (version : VersionValue) (like : List ListValue)
            → Wants (lists_on version like self.now) bytes.now result }
    {
        match after_next(self.left) {
            Some(_) if self.head.is_some() => self.names.wants(bytes),
            _ => 0,
        }
    }

    /// The lists, which begin anew. If they are those of the other router, they are stored once.
    pub(crate) fn take(
        &mut self,
        alloc: Global,
        like: Option<&Listed<ZoneList>>,
    ) -> Result<Listed<ZoneList>, Stop>
        ensures taken { IfOk result (λ lists. lists
            ≡ front_of (unwrap_or (option_copied like.entry) []) self.old.front) }
        ensures anew { OnOk result (IsFresh self.new) }
        ensures refused { IsOkUnless result Memory }
    {
        let front = std::mem::replace(&mut self.front, Front::Same(0));
        *self = Lists::new();
        let mut front = front;
        front.take(alloc, like)
    }
}
