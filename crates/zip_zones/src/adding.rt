//! Adding several names of one range.

ghost use Rattle.std.specs.Prelude.{◌≡◌, ◌⊎◌, ◌↔◌, ◌<◌, ◌++◌, ℕ, List, [], drop, length};
ghost use Rattle.std.specs.Prelude.{false, true, Some};
ghost use Rattle.std.specs.Prelude.{IfErr, IfOk, IsOkUnless, OnErr, OnOk};
ghost use Rattle.std.specs.List.{list_any};
ghost use Rattle.at_base.specs.Limits.{max_zones};
ghost use Rattle.at_base.specs.Numbers.{AreRising};
ghost use Rattle.at_base.specs.Spans.{IsAt, IsBefore};
ghost use Rattle.at_base.specs.Text.{same_name};
ghost use Rattle.zip_zones.specs.Answers.{heard_all, with_names};
ghost use Rattle.zip_zones.specs.Indexing.{IsIndexed, any_named, index_of, key_of, with_start};
ghost use Rattle.zip_zones.specs.Zones as spec;
ghost use Rattle.zip_zones.specs.Zones.{is_full_for, known_for, overlaps_another, with_known};
ghost use Rattle.zip_zones.specs.Zones.{with_zone};

use crate::change::{lengthen, place_to_go_on, replace};
use crate::entries::Entries;
use crate::known::{KnownZones, has_among};
use crate::once::is_among;
use crate::table::{ZoneTable, place_for};
use at_base::{Error, Name, Range, recall_valid};

/// Whether a list has the zone, ignoring case. It begins with the names `kept`, whose numbers the
/// index has; only the others are compared.
fn has_zone(known: &KnownZones, kept: &[Name], index: &[u64], zone: &Name) -> bool
    requires rising { AreRising 0 index.now }
    requires indexed { any_named zone.now kept.now
        (with_start (key_of zone.now) known.now.range.start index.now)
        ≡ list_any (same_name zone.now) kept.now }
    requires longer { known.now.names ≡ kept.now ++ drop (length kept.now) known.now.names }
    ensures { result ≡ spec.has_zone zone.now known.now }
{
    if has_among(index, known.range().start(), kept, zone) {
        return true;
    }
    is_among(&known.names()[kept.len()..], zone)
}

/// Adds a name to a list, which begins with the names `kept`, unless it is complete or has the name
/// in any case. Error: `Memory`.
fn hear_one(known: &mut KnownZones, kept: &[Name], index: &[u64], name: &Name) -> Result<(), Error>
    requires rising { AreRising 0 index.now }
    requires indexed { any_named name.now kept.now
        (with_start (key_of name.now) known.old.range.start index.now)
        ≡ list_any (same_name name.now) kept.now }
    requires longer { known.old.names ≡ kept.now ++ drop (length kept.now) known.old.names }
    ensures ok { OnOk result (known.new ≡ with_zone name.now known.old) }
    ensures err { IsOkUnless result Error.Memory }
{
    if known.is_complete() || has_zone(known, kept, index, name) {
        return Ok(());
    }
    known.push(name)
}

/// Adds the names of these entries to a list, which begins with the names `kept`. Error: `Memory`;
/// the first ones may have been added then.
fn hear_each(
    known: &mut KnownZones,
    kept: &[Name],
    index: &[u64],
    entries: Entries<'_>,
) -> Result<(), Error>
    requires rising { AreRising 0 index.now }
    requires indexed { (zone : List ℕ) → any_named zone kept.now
        (with_start (key_of zone) known.old.range.start index.now)
        ≡ list_any (same_name zone) kept.now }
    requires longer { known.old.names ≡ kept.now ++ drop (length kept.now) known.old.names }
    ensures ok { OnOk result (known.new ≡ with_names entries.entry known.old) }
    ensures err { IsOkUnless result Error.Memory }
{
    for entry in entries {
        hear_one(known, kept, index, &entry.name)?;
    }
    Ok(())
}

/// Adds names to the list of a range, which has `total` zones and stands at an index. Error:
/// `Memory`; nothing changes then.
fn go_on_each(
    lists: &mut Vec<KnownZones>,
    index: &mut Vec<u64>,
    range: Range,
    total: u8,
    place: usize,
    entries: Entries<'_>,
) -> Result<(), Error>
    requires indexed { IsIndexed lists.old.items index.old.items }
    requires at { (at : IsAt (λ k. k.range) range lists.old.items place)
        × (spec.list_of range total (Some at.item) ≡ at.item) }
    ensures ok { OnOk result ((lists.new.items ≡ with_known (with_names entries.entry
        (spec.list_of range total (known_for range lists.old.items))) lists.old.items)
        × (index.new.items ≡ index_of (with_known (with_names entries.entry
        (spec.list_of range total (known_for range lists.old.items))) lists.old.items))) }
    ensures err { IsOkUnless result Error.Memory }
    ensures kept { OnErr result ((lists.new.items ≡ lists.old.items)
        × (index.new.items ≡ index.old.items)) }
{
    let kept = lists[place].names();
    let count = kept.len();
    // The names go to a list on its own, so that a refusal leaves the table as it is.
    let mut known = lists[place].copy()?;
    hear_each(&mut known, kept, index.as_slice(), entries)?;
    lengthen(lists, index, place, count, known)
}

/// Begins a list with names, where the range has no list of `total` zones. Error: `Memory`; nothing
/// changes then.
fn begin_each(
    lists: &mut Vec<KnownZones>,
    index: &mut Vec<u64>,
    range: Range,
    total: u8,
    place: Result<usize, usize>,
    entries: Entries<'_>,
) -> Result<(), Error>
    requires indexed { IsIndexed lists.old.items index.old.items }
    requires found { IfOk place (IsAt (λ k. k.range) range lists.old.items) }
    requires missing { IfErr place (IsBefore (λ k. k.range) range lists.old.items) }
    ensures ok { OnOk result ((lists.new.items ≡ with_known (with_names entries.entry
        (record { range = range; total = total; names = [] })) lists.old.items)
        × (index.new.items ≡ index_of (with_known (with_names entries.entry
        (record { range = range; total = total; names = [] })) lists.old.items))) }
    ensures err { IsOkUnless result Error.Memory }
    ensures kept { OnErr result ((lists.new.items ≡ lists.old.items)
        × (index.new.items ≡ index.old.items)) }
{
    recall_valid(range);
    let mut known = KnownZones::empty(*lists.allocator(), range, total)?;
    hear_each(&mut known, &[], index.as_slice(), entries)?;
    replace(lists, index, place, known)
}

/// Adds names of a range that has `total` zones, whose list is at `place` or, as an error, is to be
/// inserted there. Error: `Memory`; nothing changes then.
fn hear_all(
    lists: &mut Vec<KnownZones>,
    index: &mut Vec<u64>,
    range: Range,
    total: u8,
    place: Result<usize, usize>,
    entries: Entries<'_>,
) -> Result<(), Error>
    requires indexed { IsIndexed lists.old.items index.old.items }
    requires found { IfOk place (IsAt (λ k. k.range) range lists.old.items) }
    requires missing { IfErr place (IsBefore (λ k. k.range) range lists.old.items) }
    ensures ok { OnOk result ((lists.new.items ≡ with_known (with_names entries.entry
        (spec.list_of range total (known_for range lists.old.items))) lists.old.items)
        × (index.new.items ≡ index_of (with_known (with_names entries.entry
        (spec.list_of range total (known_for range lists.old.items))) lists.old.items))) }
    ensures err { IsOkUnless result Error.Memory }
    ensures kept { OnErr result ((lists.new.items ≡ lists.old.items)
        × (index.new.items ≡ index.old.items)) }
{
    match place_to_go_on(lists.as_slice(), range, total, place) {
        Some(place) => go_on_each(lists, index, range, total, place, entries),
        None => begin_each(lists, index, range, total, place, entries),
    }
}

impl ZoneTable {
    /// Adds the names of these entries, in their order, as names of a range that has `total` zones:
    /// all of them, or none. What `add` says of one name holds of each.
    ///
    /// Inside AppleTalk, the chapter on ZIP. Errors: `BadRange` where another range overlaps it;
    /// `Full` where 200 other ranges have lists; `Memory`. A refusal changes nothing.
    pub fn add_all(&mut self, range: Range, total: u8, entries: Entries<'_>) -> Result<(), Error>
        ensures ok { OnOk result (self.new ≡ heard_all range total entries.entry self.old) }
        ensures range { (result ≡ Err Error.BadRange) ↔ (overlaps_another range self.old ≡ true) }
        ensures full { (result ≡ Err Error.Full) ↔ ((overlaps_another range self.old ≡ false)
            × ((max_zones < total) ⊎ (is_full_for range self.old ≡ true))) }
        ensures refused { IfErr result
            (λ e. (e ≡ Error.BadRange) ⊎ (e ≡ Error.Full) ⊎ (e ≡ Error.Memory)) }
        ensures kept { OnErr result (self.new ≡ self.old) }
    {
        let place = place_for(self.lists.as_slice(), range, total as usize)?;
        if entries.is_empty() {
            return Ok(());
        }
        recall_valid(range);
        hear_all(
            &mut self.lists,
            &mut self.index,
            range,
            total,
            place,
            entries,
        )?;
        Ok(())
    }
}
