//! Changes of the lists of a zone table, and of its index with them.

ghost use Rattle.std.specs.Prelude.{◌≡◌, ◌+◌, ◌<◌, ◌≤◌, ◌++◌, ◌∷◌, [], drop, length, Some};
ghost use Rattle.std.specs.Prelude.{vec_capacity, vec_len, IfErr, IfNone, IfOk, IfSome};
ghost use Rattle.std.specs.Prelude.{IsOkUnless, OnErr, OnOk};
ghost use Rattle.at_base.specs.Limits.{max_zones};
ghost use Rattle.at_base.specs.Spans.{IsAt, IsBefore};
ghost use Rattle.zip_zones.specs.Indexing.{IsIndexed, index_of};
ghost use Rattle.zip_zones.specs.Zones as spec;
ghost use Rattle.zip_zones.specs.Zones.{heard, known_for, with_known, with_zone, without};

use crate::index::{put_name, put_names, take_names};
use crate::known::KnownZones;
use at_base::{Error, Name, Range, place_of};

/// Takes the numbers of the list of a range, if it has one, out of the index.
fn forget(lists: &[KnownZones], index: &mut Vec<u64>, range: Range, place: Result<usize, usize>)
    requires indexed { IsIndexed lists.now index.old.items }
    requires found { IfOk place (IsAt (λ k. k.range) range lists.now) }
    requires missing { IfErr place (IsBefore (λ k. k.range) range lists.now) }
    ensures kept { index.new.items ≡ index_of (without range lists.now) }
    ensures room { vec_capacity index.new ≡ vec_capacity index.old }
    ensures fewer { vec_len index.new ≤ vec_len index.old }
{
    match place {
        Ok(place) => take_names(index, range.start(), 0, lists[place].names()),
        Err(_) => {}
    }
}

/// Removes the list of a range.
fn drop_list(lists: &mut Vec<KnownZones>, range: Range)
    ensures { lists.new.items ≡ without range lists.old.items }
{
    lists.retain(|known| known.range() != range);
}

/// Removes the list of a range, if any.
pub(crate) fn take_out(lists: &mut Vec<KnownZones>, index: &mut Vec<u64>, range: Range)
    requires { IsIndexed lists.old.items index.old.items }
    ensures lists { lists.new.items ≡ without range lists.old.items }
    ensures index { index.new.items ≡ index_of (without range lists.old.items) }
{
    let place = place_of(lists.as_slice(), range);
    forget(lists.as_slice(), index, range, place);
    drop_list(lists, range);
}

/// Puts a list at its place, instead of the one of its range, if any. There must be room.
fn put_at(lists: &mut Vec<KnownZones>, place: Result<usize, usize>, known: KnownZones)
    requires found { IfOk place (IsAt (λ k. k.range) known.range lists.old.items) }
    requires missing { IfErr place (IsBefore (λ k. k.range) known.range lists.old.items) }
    requires room { vec_len lists.old < vec_capacity lists.old }
    ensures { lists.new.items ≡ with_known known lists.old.items }
{
    match place {
        Ok(place) => lists[place] = known,
        Err(place) => lists.insert(place, known).unwrap(),
    }
}

/// Puts a list at its place, instead of the one of its range, if any, with its numbers. There must
/// be room.
fn put_list(
    lists: &mut Vec<KnownZones>,
    index: &mut Vec<u64>,
    place: Result<usize, usize>,
    known: KnownZones,
)
    requires indexed { IsIndexed lists.old.items index.old.items }
    requires found { IfOk place (IsAt (λ k. k.range) known.range lists.old.items) }
    requires missing { IfErr place (IsBefore (λ k. k.range) known.range lists.old.items) }
    requires few { length known.names ≤ max_zones }
    requires room { vec_len lists.old < vec_capacity lists.old }
    requires places { vec_len index.old + length known.names ≤ vec_capacity index.old }
    ensures lists { lists.new.items ≡ with_known known lists.old.items }
    ensures index { index.new.items ≡ index_of (with_known known lists.old.items) }
{
    forget(lists.as_slice(), index, known.range(), place);
    put_names(index, known.range().start(), 0, known.names());
    put_at(lists, place, known);
}

/// Puts a list at its place, instead of the one of its range, if any. Error: `Memory`; nothing
/// changes then.
pub(crate) fn replace(
    lists: &mut Vec<KnownZones>,
    index: &mut Vec<u64>,
    place: Result<usize, usize>,
    known: KnownZones,
) -> Result<(), Error>
    requires indexed { IsIndexed lists.old.items index.old.items }
    requires found { IfOk place (IsAt (λ k. k.range) known.range lists.old.items) }
    requires missing { IfErr place (IsBefore (λ k. k.range) known.range lists.old.items) }
    requires few { length known.names ≤ max_zones }
    ensures ok { OnOk result ((lists.new.items ≡ with_known known lists.old.items)
        × (index.new.items ≡ index_of (with_known known lists.old.items))) }
    ensures err { IsOkUnless result Error.Memory }
    ensures kept { OnErr result ((lists.new.items ≡ lists.old.items)
        × (index.new.items ≡ index.old.items)) }
{
    // Room is made first, so that a refusal leaves the lists as they are.
    lists.reserve(1)?;
    index.reserve(known.names().len())?;
    put_list(lists, index, place, known);
    Ok(())
}

/// Puts a list after the others. Error: `Memory`; nothing changes then.
pub(crate) fn put_last(
    lists: &mut Vec<KnownZones>,
    index: &mut Vec<u64>,
    known: KnownZones,
) -> Result<(), Error>
    requires indexed { IsIndexed lists.old.items index.old.items }
    requires few { length known.names ≤ max_zones }
    ensures ok { OnOk result ((lists.new.items ≡ lists.old.items ++ known ∷ [])
        × (index.new.items ≡ index_of (lists.old.items ++ known ∷ []))) }
    ensures err { IsOkUnless result Error.Memory }
    ensures kept { OnErr result ((lists.new.items ≡ lists.old.items)
        × (index.new.items ≡ index.old.items)) }
{
    lists.reserve(1)?;
    index.reserve(known.names().len())?;
    put_names(index, known.range().start(), 0, known.names());
    lists.push(known).unwrap();
    Ok(())
}

/// Puts a list at a place, instead of one that had its first `kept` names. Error: `Memory`; nothing
/// changes then.
pub(crate) fn lengthen(
    lists: &mut Vec<KnownZones>,
    index: &mut Vec<u64>,
    place: usize,
    kept: usize,
    known: KnownZones,
) -> Result<(), Error>
    requires indexed { IsIndexed lists.old.items index.old.items }
    requires at { (at : IsAt (λ k. k.range) known.range lists.old.items place)
        × (kept ≡ length at.item.names) × (known.names ≡ at.item.names ++ drop kept known.names) }
    requires few { length known.names ≤ max_zones }
    ensures ok { OnOk result ((lists.new.items ≡ with_known known lists.old.items)
        × (index.new.items ≡ index_of (with_known known lists.old.items))) }
    ensures err { IsOkUnless result Error.Memory }
    ensures kept { OnErr result ((lists.new.items ≡ lists.old.items)
        × (index.new.items ≡ index.old.items)) }
{
    let (_, more) = known.names().split_at(kept);
    index.reserve(more.len())?;
    put_names(index, known.range().start(), kept as u8, more);
    lists[place] = known;
    Ok(())
}

/// The index of the list of a range, if the list has `total` zones.
pub(crate) fn place_to_go_on(
    lists: &[KnownZones],
    range: Range,
    total: u8,
    place: Result<usize, usize>,
) -> Option<usize>
    requires found { IfOk place (IsAt (λ k. k.range) range lists.now) }
    requires missing { IfErr place (IsBefore (λ k. k.range) range lists.now) }
    ensures some { IfSome result (λ place. (at : IsAt (λ k. k.range) range lists.now place)
        × (spec.list_of range total (Some at.item) ≡ at.item)) }
    ensures none { IfNone result (spec.list_of range total (known_for range lists.now)
        ≡ record { range = range; total = total; names = [] }) }
{
    match place {
        Ok(place) if lists[place].total() == total => Some(place),
        _ => None,
    }
}

/// Adds a name to the list of a range, which has `total` zones and stands at an index. Error:
/// `Memory`; nothing changes then.
fn go_on(
    lists: &mut Vec<KnownZones>,
    index: &mut Vec<u64>,
    range: Range,
    total: u8,
    place: usize,
    name: &Name,
) -> Result<(), Error>
    requires indexed { IsIndexed lists.old.items index.old.items }
    requires at { (at : IsAt (λ k. k.range) range lists.old.items place)
        × (spec.list_of range total (Some at.item) ≡ at.item) }
    ensures ok { OnOk result ((lists.new.items ≡ heard range total name.now lists.old.items)
        × (index.new.items ≡ index_of (heard range total name.now lists.old.items))) }
    ensures err { IsOkUnless result Error.Memory }
    ensures kept { OnErr result ((lists.new.items ≡ lists.old.items)
        × (index.new.items ≡ index.old.items)) }
{
    if lists[place].is_complete() {
        return Ok(());
    }
    if lists[place].has(index.as_slice(), name) {
        return Ok(());
    }
    index.reserve(1)?;
    let nth = lists[place].names().len() as u8;
    lists[place].push(name)?;
    put_name(index, range.start(), nth, name);
    Ok(())
}

/// Begins a list with a name, where the range has no list of `total` zones. Error: `Memory`;
/// nothing changes then.
fn begin(
    lists: &mut Vec<KnownZones>,
    index: &mut Vec<u64>,
    range: Range,
    total: u8,
    place: Result<usize, usize>,
    name: &Name,
) -> Result<(), Error>
    requires indexed { IsIndexed lists.old.items index.old.items }
    requires found { IfOk place (IsAt (λ k. k.range) range lists.old.items) }
    requires missing { IfErr place (IsBefore (λ k. k.range) range lists.old.items) }
    ensures ok { OnOk result ((lists.new.items ≡ with_known
        (with_zone name.now (record { range = range; total = total; names = [] }))
        lists.old.items)
        × (index.new.items ≡ index_of (with_known
        (with_zone name.now (record { range = range; total = total; names = [] }))
        lists.old.items))) }
    ensures err { IsOkUnless result Error.Memory }
    ensures kept { OnErr result ((lists.new.items ≡ lists.old.items)
        × (index.new.items ≡ index.old.items)) }
{
    let known = KnownZones::begun(*lists.allocator(), range, total, name)?;
    replace(lists, index, place, known)
}

/// Adds a name of a range that has `total` zones, whose list is at `place` or, as an error, is to be
/// inserted there. Error: `Memory`; nothing changes then.
pub(crate) fn hear(
    lists: &mut Vec<KnownZones>,
    index: &mut Vec<u64>,
    range: Range,
    total: u8,
    place: Result<usize, usize>,
    name: &Name,
) -> Result<(), Error>
    requires indexed { IsIndexed lists.old.items index.old.items }
    requires found { IfOk place (IsAt (λ k. k.range) range lists.old.items) }
    requires missing { IfErr place (IsBefore (λ k. k.range) range lists.old.items) }
    ensures ok { OnOk result ((lists.new.items ≡ heard range total name.now lists.old.items)
        × (index.new.items ≡ index_of (heard range total name.now lists.old.items))) }
    ensures err { IsOkUnless result Error.Memory }
    ensures kept { OnErr result ((lists.new.items ≡ lists.old.items)
        × (index.new.items ≡ index.old.items)) }
{
    match place_to_go_on(lists.as_slice(), range, total, place) {
        Some(place) => go_on(lists, index, range, total, place, name),
        None => begin(lists, index, range, total, place, name),
    }
}
