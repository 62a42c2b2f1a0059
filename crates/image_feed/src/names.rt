//! Lists of zone names, which are often those of another list.

ghost use Rattle.std.specs.Prelude.{◌≡◌, ◌≤◌, [], ℕ, List, None, Ok, Some, suc, take, length, true};
ghost use Rattle.std.specs.Prelude.{IfOk, IfSome, IsOkUnless, IsSome, OnOk, unwrap_or};
ghost use Rattle.std.specs.Option.{option_copied};
ghost use Rattle.at_base.specs.Reading.{list_at, read};
ghost use Rattle.table_image.specs.Flaws.{faults};
ghost use Rattle.table_image.specs.Spelling.{zone_spelling, zones_spelling};
ghost use Rattle.image_feed.specs.declared.stop.Stop.TheVariants.{Memory};
ghost use Rattle.table_image.specs.declared.version.Version.{Version as VersionValue};
ghost use Rattle.image_feed.specs.declared.front.Front.TheVariants.{Same};
ghost use Rattle.image_feed.specs.Growing.{Advances, Leads, Steps, Wants, none_left};
ghost use Rattle.image_feed.specs.Fronts.{front_of};
ghost use Rattle.image_feed.specs.Zones.{names_on};

use crate::count::{after_next, is_none_left, read_count};
use crate::cut::{is_cut, none_if_cut};
use crate::front::{Again, Front, after_first, first, parts_of};
use crate::stop::Stop;
use at_base::Name;
use std::alloc::Global;
use table_image::parts::{CountSize, name_at};
use table_image::{Listed, Version};

impl Again for Name {
    fn once_more(&self, _alloc: Global) -> Result<Name, Stop> {
        Ok(*self)
    }
}

/// A count and zone names, of which the first were read. Another list, which they may be like, is
/// given to each call.
#[derive(Drop)]
pub(crate) struct Names {
    /// The number of names still to be read; none until the count was read.
    pub left: Option<u16>,
    /// The names that were read.
    pub front: Front<Name>,
}

/// The bytes after the name, if they begin with it.
#[inline(always)]
#[tactic(auto, unfolding(table_image::specs::Spelling::text_spelling))]
fn after_name<'a>(name: &Name, bytes: &'a [u8]) -> Option<&'a [u8]>
    ensures { IfSome result
        (λ rest. read faults zone_spelling bytes.now ≡ Ok (name.now, rest.now)) }
{
    let length = name.as_slice().len();
    let (len, after) = bytes.split_first()?;
    if *len as usize != length || after.len() < length || !name.begins(after) {
        return None;
    }
    Some(&after[length..])
}

/// How many of the names the bytes begin with, and the bytes after them. Not inlined: inside another
/// loop this one takes one and a half times as many instructions.
#[inline(never)]
fn after_same<'a>(names: &[Name], bytes: &'a [u8]) -> (usize, &'a [u8])
    ensures fits { result.0 ≤ length names.now }
    ensures names { list_at (λ low. read faults zone_spelling) (λ name. 0) 0 result.0 bytes.now
        ≡ Ok (take result.0 names.now, result.1.now) }
{
    let mut rest = bytes;
    let mut count = 0;
    for name in names {
        match after_name(name, rest) {
            Some(after) => rest = after,
            None => return (count, rest),
        }
        count += 1;
    }
    (count, rest)
}

/// The bytes after the names, if they begin with all of them.
fn after_all<'a>(names: &[Name], bytes: &'a [u8]) -> Option<&'a [u8]>
    ensures { IfSome result (λ rest.
        list_at (λ low. read faults zone_spelling) (λ name. 0) 0 (length names.now) bytes.now
        ≡ Ok (names.now, rest.now)) }
{
    let (count, rest) = after_same(names, bytes);
    if count < names.len() {
        return None;
    }
    Some(rest)
}

/// The bytes after a count and the names, if they begin with them.
#[inline(always)]
#[tactic(auto, unfolding(table_image::specs::Spelling::zones_spelling, table_image::specs::Spelling::counted))]
pub(crate) fn after_zones<'a>(zones: &[Name], version: Version, bytes: &'a [u8]) -> Option<&'a [u8]>
    ensures { IfSome result
        (λ rest. read faults (zones_spelling version) bytes.now ≡ Ok (zones.now, rest.now)) }
{
    let (count, after) = bytes.split_first()?;
    if *count as usize > version.zone_limit() || *count as usize != zones.len() {
        return None;
    }
    let rest = after_all(zones, after)?;
    Some(rest)
}

/// How many bytes a name has within which these end, or 0 where they don't say it.
fn name_wants(bytes: &[u8]) -> usize
    ensures { Wants (read faults zone_spelling) bytes.now result }
{
    let Some(length) = bytes.first() else {
        return 0;
    };
    match name_at(bytes) {
        Err(fault) if is_cut(fault) => *length as usize + 1,
        _ => 0,
    }
}

impl Names {
    /// A list of which nothing was read.
    pub(crate) fn new() -> Names
        ensures left { result.left ≡ None }
        ensures front { result.front ≡ Same 0 }
    {
        Names {
            left: None,
            front: Front::Same(0),
        }
    }

    /// Whether nothing of it was read.
    #[inline(always)]
    pub(crate) fn is_fresh(&self) -> bool
        ensures left { result ≡ true → self.now.left ≡ None }
        ensures front { result ≡ true → self.now.front ≡ Same 0 }
    {
        match self.front {
            Front::Same(count) => count == 0 && self.left.is_none(),
            Front::Own(_) => false,
        }
    }

    /// Whether all of it was read.
    pub(crate) fn is_whole(&self) -> bool
        ensures { result ≡ none_left self.now.left }
    {
        is_none_left(self.left)
    }

    // Goes past the names that are the other list's.
    fn pass_same<'a>(&mut self, like: &[Name], bytes: &'a [u8]) -> &'a [u8]
        ensures leads { (version : VersionValue) → Leads (names_on version like.now self.old)
            bytes.now (names_on version like.now self.new) result.now }
        ensures some { IsSome self.old.left → IsSome self.new.left }
    {
        let Front::Same(count) = self.front else {
            return bytes;
        };
        let Some(left) = self.left else {
            return bytes;
        };
        if count > like.len() {
            return bytes;
        }
        let expected = first(after_first(like, count), left as usize);
        let (more, rest) = after_same(expected, bytes);
        self.left = Some(left - more as u16);
        self.front = Front::Same(count + more);
        rest
    }

    // Reads the next name, where so many come after it.
    #[inline(always)]
    fn step<'a>(
        &mut self,
        alloc: Global,
        like: &[Name],
        after: u16,
        bytes: &'a [u8],
    ) -> Result<Option<&'a [u8]>, Stop>
        requires { self.old.left ≡ Some (suc after) }
        ensures steps { (version : VersionValue) → Steps (λ rest. rest.now)
            (names_on version like.now self.old) bytes.now (names_on version like.now self.new)
            result }
        ensures left { IfOk result (λ o. IfSome o (λ _. self.new.left ≡ Some after)) }
        ensures some { OnOk result (IsSome self.new.left) }
    {
        let (name, rest) = match name_at(bytes) {
            Ok(found) => found,
            Err(fault) => return none_if_cut(fault),
        };
        self.front.push(alloc, like, name, after)?;
        self.left = Some(after);
        Ok(Some(rest))
    }

    // Reads the names of which the bytes are there.
    fn advance_names<'a>(
        &mut self,
        alloc: Global,
        like: &[Name],
        bytes: &'a [u8],
    ) -> Result<&'a [u8], Stop>
        requires { IsSome self.old.left }
        ensures some { OnOk result (IsSome self.new.left) }
        ensures next { (version : VersionValue) → Advances (λ rest. rest.now)
            (names_on version like.now self.old) bytes.now (names_on version like.now self.new)
            (none_left self.new.left) result }
    {
        let mut rest = self.pass_same(like, bytes);
        while let Some(after) = after_next(self.left) {
            match self.step(alloc, like, after, rest)? {
                Some(more) => rest = more,
                None => return Ok(rest),
            }
        }
        Ok(rest)
    }

    /// Reads the count, if it wasn't read, and the names of which the bytes are there. Returns the
    /// bytes after them.
    pub(crate) fn advance<'a>(
        &mut self,
        alloc: Global,
        version: Version,
        like: Option<&Listed<Name>>,
        bytes: &'a [u8],
    ) -> Result<&'a [u8], Stop>
        ensures { Advances (λ rest. rest.now)
            (names_on version (unwrap_or (option_copied like.entry) []) self.old) bytes.now
            (names_on version (unwrap_or (option_copied like.entry) []) self.new)
            (none_left self.new.left) result }
    {
        let limit = version.zone_limit();
        let rest = read_count(&mut self.left, CountSize::One, limit, bytes)?;
        if self.left.is_none() {
            return Ok(rest);
        }
        self.advance_names(alloc, parts_of(like), rest)
    }

    /// The bytes end within a name as long as they are fewer than this.
    pub(crate) fn wants(&self, bytes: &[u8]) -> usize
        ensures { (version : VersionValue) (like : List (List ℕ))
            → Wants (names_on version like self.now) bytes.now result }
    {
        match after_next(self.left) {
            Some(_) => name_wants(bytes),
            None => 0,
        }
    }

    /// Whether the names are all those of the other list.
    pub(crate) fn are_same(&self, like: &[Name]) -> bool
        ensures { result ≡ true → front_of like.now self.now.front ≡ like.now }
    {
        match self.front {
            Front::Same(count) => count == like.len(),
            Front::Own(_) => false,
        }
    }

    /// The names, which begin anew. If they are those of the other list, they are stored once.
    pub(crate) fn take(
        &mut self,
        alloc: Global,
        like: Option<&Listed<Name>>,
    ) -> Result<Listed<Name>, Stop>
        ensures taken { IfOk result (λ names. names
            ≡ front_of (unwrap_or (option_copied like.entry) []) self.old.front) }
        ensures left { self.new.left ≡ None }
        ensures front { self.new.front ≡ Same 0 }
        ensures refused { IsOkUnless result Memory }
    {
        self.left = None;
        self.front.take(alloc, like)
    }
}
