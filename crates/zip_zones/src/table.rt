//! The zone table of a router.

ghost use Rattle.std.specs.Prelude.{◌≡◌, ◌⊎◌, ◌↔◌, ◌<◌, ◌≤◌, ◌++◌, [], false, filter_map, fold};
ghost use Rattle.std.specs.Prelude.{length};
ghost use Rattle.std.specs.Prelude.{option_map};
ghost use Rattle.std.specs.Prelude.{slice_get, true, vec_capacity, vec_len, None, Some};
ghost use Rattle.std.specs.Prelude.{IfErr, IfNone, IfOk, IfSome, IsOk, IsOkUnless, OnErr, OnOk};
ghost use Rattle.zip_zones.specs.Zones.{IsZoneMap, all_zones, complete_at, heard, is_full_for};
ghost use Rattle.zip_zones.specs.Zones.{lists_at, names_at, overlaps_another, ranges_of, set_list};
ghost use Rattle.zip_zones.specs.Zones.{known_for, with_known, with_name};
ghost use Rattle.zip_zones.specs.Indexing.{hit as spec_hit};
ghost use Rattle.zip_zones.specs.Zones as spec;
ghost use Rattle.zip_zones.specs.Zones.{with_zone, without};
ghost use Rattle.at_base.specs.Spans.{AreApart, IsAt, IsBefore};
ghost use Rattle.at_base.specs.Limits.{max_lists, max_zones};

use crate::change::{hear, replace, take_out};
use crate::index::numbers_of;
use crate::known::KnownZones;
use crate::search::{hit, is_full, list_for, list_of, overlaps_other};
use crate::zone::Zone;
use at_base::limits::MAX_ZONES;
use at_base::{Error, Name, Range, place_of, recall_valid};
use indexmap::IndexSet;
use std::alloc::Global;
use std::marker::Model;

/// The zone table of a router: a finite map from disjoint ranges to zone lists.
///
/// Inside AppleTalk, the chapter on ZIP.
#[derive(Drop)]
pub struct ZoneTable {
    pub(crate) lists: Vec<KnownZones>,
    pub(crate) index: Vec<u64>,
}

impl Model for ZoneTable {
    ghost use Rattle.std.specs.Prelude.{List};
    ghost use Rattle.zip_zones.specs.Indexing.{IsIndexed};
    ghost use Rattle.zip_zones.specs.Zones.{Known};

    ghost Value = { List Known };

    ghost view = { λ t. t.lists.items };

    ghost invariant = { λ t. IsIndexed t.lists.items t.index.items };
}

/// How many more lists and numbers a copy has room for: a router copies its table before it learns,
/// mostly of one range.
const SPARE: usize = 4;

/// A copy of each list. Error: `Memory`.
fn copy_all(alloc: Global, lists: &[KnownZones]) -> Result<Vec<KnownZones>, Error>
    ensures ok { IfOk result (λ copies. copies.items ≡ lists.now) }
    ensures err { IsOkUnless result Error.Memory }
{
    let mut copies = Vec::with_capacity(alloc, lists.len().saturating_add(SPARE))?;
    for known in lists {
        copies.push(known.copy()?)?;
    }
    Ok(copies)
}

/// How many numbers are copied at once. A piece of more than some 8,000 bytes would be copied by an
/// instruction that counts once for each byte.
const PIECE: usize = 512;

/// Appends numbers, piece by piece. Error: `Memory`.
fn put_pieces(copy: &mut Vec<u64>, numbers: &[u64]) -> Result<(), Error>
    ensures ok { OnOk result (copy.new.items ≡ copy.old.items ++ numbers.now) }
    ensures err { IsOkUnless result Error.Memory }
{
    if numbers.len() <= PIECE {
        copy.extend_from_slice(numbers)?;
        return Ok(());
    }
    let (piece, rest) = numbers.split_at(PIECE);
    copy.extend_from_slice(piece)?;
    put_pieces(copy, rest)
}

/// A copy of the index. Error: `Memory`.
fn copy_index(alloc: Global, index: &[u64]) -> Result<Vec<u64>, Error>
    ensures ok { IfOk result (λ copy. copy.items ≡ index.now) }
    ensures err { IsOkUnless result Error.Memory }
{
    let mut copy = Vec::with_capacity(alloc, index.len().saturating_add(SPARE))?;
    put_pieces(&mut copy, index)?;
    Ok(copy)
}

/// A copy of names. Error: `Memory`, which no names never need.
fn copy_names(alloc: Global, names: &[Name]) -> Result<Vec<Name>, Error>
    ensures ok { IfOk result (λ copies. copies.items ≡ names.now) }
    ensures none { names.now ≡ [] → IsOk result }
    ensures err { IsOkUnless result Error.Memory }
{
    if names.is_empty() {
        return Ok(Vec::new(alloc));
    }
    Ok(Vec::from_slice(alloc, names)?)
}

/// The greatest number of names that a list has, or 0 without lists.
fn most_in(lists: &[KnownZones]) -> usize
    ensures { result ≡ spec.most_names lists.now }
{
    match lists {
        [] => 0,
        [known, rest @ ..] => known.names().len().max(most_in(rest)),
    }
}

/// The names of zones. Error: `Memory`, which no zones never need.
fn names_from(alloc: Global, zones: &[Zone]) -> Result<Vec<Name>, Error>
    ensures ok { IfOk result (λ names. names.items ≡ zones.now) }
    ensures none { zones.now ≡ [] → IsOk result }
    ensures err { IsOkUnless result Error.Memory }
{
    if zones.is_empty() {
        return Ok(Vec::new(alloc));
    }
    let mut names = Vec::with_capacity(alloc, zones.len())?;
    for zone in zones {
        names.push(*zone.name())?;
    }
    Ok(names)
}

/// Adds each name that isn't in the set, ignoring case. Error: `Memory`, which no names never need.
fn insert_all(zones: &mut IndexSet<Zone>, others: &[Name]) -> Result<(), Error>
    ensures ok { OnOk result (zones.new.keys ≡ fold with_name zones.old.keys others.now) }
    ensures none { others.now ≡ [] → IsOk result }
    ensures err { IsOkUnless result Error.Memory }
{
    for name in others {
        zones.insert(Zone::new(name))?;
    }
    Ok(())
}

/// The ranges of the lists that numbers of the index are of, where their names are the zone. Error:
/// `Memory`, which no ranges never need.
fn hits(
    alloc: Global,
    lists: &[KnownZones],
    zone: &Name,
    numbers: &[u64],
) -> Result<Vec<Range>, Error>
    requires { AreApart (λ k. k.range) 0 lists.now }
    ensures ok { IfOk result
        (λ ranges. ranges.items ≡ filter_map (spec_hit zone.now lists.now) numbers.now) }
    ensures none { filter_map (spec_hit zone.now lists.now) numbers.now ≡ [] → IsOk result }
    ensures refused { IsOkUnless result Error.Memory }
{
    let mut ranges = Vec::new(alloc);
    for number in numbers {
        if let Some(range) = hit(lists, zone, *number) {
            ranges.push(range)?;
        }
    }
    Ok(ranges)
}

/// The index of the list of a range; or, as an error within Ok, the index at which one is to be
/// inserted. The table must have room for it, with this many zones. Errors: `BadRange` where another
/// range overlaps it, `Full`.
pub(crate) fn place_for(
    lists: &[KnownZones],
    range: Range,
    zones: usize,
) -> Result<Result<usize, usize>, Error>
    requires { AreApart (λ k. k.range) 0 lists.now }
    ensures ok { OnOk result ((overlaps_another range lists.now ≡ false) × (zones ≤ max_zones)
        × (is_full_for range lists.now ≡ false)) }
    ensures place { IfOk result (λ place. IfOk place (IsAt (λ k. k.range) range lists.now)
        × IfErr place (IsBefore (λ k. k.range) range lists.now)) }
    ensures range { (result ≡ Err Error.BadRange) ↔ (overlaps_another range lists.now ≡ true) }
    ensures full { (result ≡ Err Error.Full) ↔ ((overlaps_another range lists.now ≡ false)
        × ((max_zones < zones) ⊎ (is_full_for range lists.now ≡ true))) }
    ensures refused { IfErr result (λ e. (e ≡ Error.BadRange) ⊎ (e ≡ Error.Full)) }
{
    let place = place_of(lists, range);
    if overlaps_other(lists, range, place) {
        return Err(Error::BadRange);
    }
    if zones > MAX_ZONES {
        return Err(Error::Full);
    }
    if is_full(lists, range, place) {
        return Err(Error::Full);
    }
    Ok(place)
}

impl ZoneTable {
    /// A table without lists. Error: `Memory`, which an empty table never needs.
    pub fn new(alloc: Global) -> Result<ZoneTable, Error>
        ensures ok { IfOk result (λ table. table ≡ []) }
        ensures made { IsOk result }
        ensures refused { IsOkUnless result Error.Memory }
    {
        Ok(ZoneTable {
            lists: Vec::new(alloc),
            index: Vec::new(alloc),
        })
    }

    /// A copy of the table. Error: `Memory`.
    pub fn copy(&self) -> Result<ZoneTable, Error>
        ensures ok { IfOk result (λ table. table ≡ self.now) }
        ensures refused { IsOkUnless result Error.Memory }
    {
        let alloc = self.allocator();
        let lists = copy_all(alloc, self.lists.as_slice())?;
        let index = copy_index(alloc, self.index.as_slice())?;
        Ok(ZoneTable { lists, index })
    }

    /// Sets the complete list of a range: the names, each once, ignoring case.
    ///
    /// Errors: `BadRange` where another range overlaps it; `Full` above 255 names, duplicates
    /// counted too, and where 200 other ranges have lists; `Memory`. A refusal changes nothing.
    pub fn set(&mut self, range: Range, names: &[Name]) -> Result<(), Error>
        ensures ok { OnOk result (self.new ≡ with_known (set_list range names.now) self.old) }
        ensures range { (result ≡ Err Error.BadRange) ↔ (overlaps_another range self.old ≡ true) }
        ensures full { (result ≡ Err Error.Full) ↔ ((overlaps_another range self.old ≡ false)
            × ((max_zones < length names.now) ⊎ (is_full_for range self.old ≡ true))) }
        ensures refused { IfErr result
            (λ e. (e ≡ Error.BadRange) ⊎ (e ≡ Error.Full) ⊎ (e ≡ Error.Memory)) }
        ensures kept { OnErr result (self.new ≡ self.old) }
    {
        let place = place_for(self.lists.as_slice(), range, names.len())?;
        recall_valid(range);
        let known = KnownZones::of(*self.lists.allocator(), range, names)?;
        replace(&mut self.lists, &mut self.index, place, known)?;
        Ok(())
    }

    /// Adds a name of a range that has `total` zones. If the range's list has another total, it is
    /// started again. A list that is complete, or has the name in any case, is unchanged.
    ///
    /// Errors: `BadRange` where another range overlaps it; `Full` where 200 other ranges have lists;
    /// `Memory`. A refusal changes nothing. No total is too great: a range may have 255 zones.
    pub fn add(&mut self, range: Range, total: u8, name: &Name) -> Result<(), Error>
        ensures ok { OnOk result (self.new ≡ heard range total name.now self.old) }
        ensures range { (result ≡ Err Error.BadRange) ↔ (overlaps_another range self.old ≡ true) }
        ensures full { (result ≡ Err Error.Full) ↔ ((overlaps_another range self.old ≡ false)
            × ((max_zones < total) ⊎ (is_full_for range self.old ≡ true))) }
        ensures refused { IfErr result
            (λ e. (e ≡ Error.BadRange) ⊎ (e ≡ Error.Full) ⊎ (e ≡ Error.Memory)) }
        ensures kept { OnErr result (self.new ≡ self.old) }
    {
        let place = place_for(self.lists.as_slice(), range, total as usize)?;
        recall_valid(range);
        hear(&mut self.lists, &mut self.index, range, total, place, name)?;
        Ok(())
    }

    /// Removes the list of a range. Allocates nothing.
    pub fn remove(&mut self, range: Range)
        ensures { self.new ≡ without range self.old }
    {
        take_out(&mut self.lists, &mut self.index, range);
    }

    /// Whether the list of the network's range is complete. Allocates nothing.
    pub fn complete(&self, net: u16) -> bool
        ensures { result ≡ complete_at net self.now }
    {
        match list_of(self.lists.as_slice(), net) {
            Some(known) => known.is_complete(),
            None => false,
        }
    }

    /// Whether the list of the network's range has the zone, ignoring case. The list needn't be
    /// complete. Allocates nothing.
    pub fn lists(&self, net: u16, zone: &Name) -> bool
        ensures { result ≡ lists_at net zone.now self.now }
    {
        match list_of(self.lists.as_slice(), net) {
            Some(known) => known.has(self.index.as_slice(), zone),
            None => false,
        }
    }

    /// Whether the range has a complete list.
    pub(crate) fn is_answered(&self, range: Range) -> bool
        ensures { result ≡ spec.is_answered self.now range }
    {
        match list_for(self.lists.as_slice(), range) {
            Some(known) => known.is_complete(),
            None => false,
        }
    }

    /// The allocator of the lists.
    pub(crate) fn allocator(&self) -> Global {
        *self.lists.allocator()
    }

    /// The number of lists, at most `MAX_LISTS`. Allocates nothing.
    pub fn len(&self) -> usize
        ensures value { result ≡ length self.now }
        ensures map { IsZoneMap self.now }
    {
        self.lists.len()
    }

    /// The greatest number of names that a list has, or 0 without lists. Allocates nothing.
    pub fn most_names(&self) -> usize
        ensures { result ≡ spec.most_names self.now }
    {
        most_in(self.lists.as_slice())
    }

    /// The range at an index, by rising range. Allocates nothing.
    pub fn range_at(&self, index: usize) -> Option<Range>
        ensures { result ≡ option_map (λ k. k.range) (slice_get self.now index) }
    {
        self.lists.get(index).map(|known| known.range())
    }

    /// The ranges whose lists have the zone, ignoring case, in rising order. Error: `Memory`, which
    /// no ranges never need.
    pub fn cables_of(&self, zone: &Name) -> Result<Vec<Range>, Error>
        ensures ok { IfOk result (λ ranges. ranges.items ≡ ranges_of zone.now self.now) }
        ensures few { IfOk result (λ ranges. length ranges.items ≤ max_lists) }
        ensures none { ranges_of zone.now self.now ≡ [] → IsOk result }
        ensures refused { IsOkUnless result Error.Memory }
    {
        let numbers = numbers_of(self.index.as_slice(), zone);
        hits(self.allocator(), self.lists.as_slice(), zone, numbers)
    }

    /// The names in the list of the network's range, in place; none if it has no list.
    pub(crate) fn names_in_place(&self, net: u16) -> &[Name]
        ensures value { result.now ≡ names_at net self.now }
        ensures few { length result.now ≤ max_zones }
    {
        match list_of(self.lists.as_slice(), net) {
            Some(known) => known.names(),
            None => &[],
        }
    }

    /// The names in the list of the network's range, which needn't be complete; none if it has no
    /// list. Error: `Memory`, which no names never need.
    pub fn names_of(&self, net: u16) -> Result<Vec<Name>, Error>
        ensures ok { IfOk result (λ names. names.items ≡ names_at net self.now) }
        ensures few { IfOk result (λ names. length names.items ≤ max_zones) }
        ensures none { names_at net self.now ≡ [] → IsOk result }
        ensures refused { IsOkUnless result Error.Memory }
    {
        copy_names(self.allocator(), self.names_in_place(net))
    }

    /// The zones of all complete lists, by rising range, each once, ignoring case, in its first
    /// spelling. Error: `Memory`, which no zones never need.
    pub fn all(&self) -> Result<Vec<Name>, Error>
        ensures ok { IfOk result (λ names. names.items ≡ all_zones self.now) }
        ensures none { all_zones self.now ≡ [] → IsOk result }
        ensures refused { IsOkUnless result Error.Memory }
    {
        let alloc = *self.lists.allocator();
        let mut zones = IndexSet::new(alloc);
        for known in self.lists.as_slice() {
            if known.is_complete() {
                insert_all(&mut zones, known.names())?;
            }
        }
        names_from(alloc, zones.as_slice())
    }
}
