//! Zone lists of an image as a zone table.

ghost use Rattle.std.specs.Prelude.{◌≡◌, ◌≤◌, ◌+◌, ◌⊎◌, ◌↔◌, ◌||◌, ◌++◌, ◌∷◌, [], length};
ghost use Rattle.std.specs.Prelude.{false, true, nat_lt, option_map, if◌then◌else◌, IfErr, IfOk};
ghost use Rattle.std.specs.Prelude.{IfSome, IsOkUnless, OnOk, Some, is_some, slice_get};
ghost use Rattle.std.specs.List.{list_all};
ghost use Rattle.std.specs.Option.{option_copied};
ghost use Rattle.at_base.specs.Limits.{max_lists, max_zones};
ghost use Rattle.at_base.specs.Range.{is_range};
ghost use Rattle.zip_zones.specs.Zones.{IsZoneMap, are_above};
ghost use Rattle.table_image.specs.Bounds.{Every};
ghost use Rattle.image_zones.specs.ZoneMaps as spec;
ghost use Rattle.image_zones.specs.ZoneMaps.{have_few_zones, have_zone_ranges, lists_at, zone_map};
ghost use Rattle.table_image.specs.declared.zone_list.ZoneList.{ZoneList as ListValue};

use at_base::limits::MAX_ZONES;
use at_base::{Error, Range, What};
use std::alloc::Global;
use table_image::{Image, Router, ZoneList};
use zip_zones::ZoneTable;

/// Whether the range of the list is valid.
fn has_range(list: &ZoneList) -> bool
    ensures { result ≡ is_range list.now.start list.now.end }
{
    Range::new(list.start, list.end).is_ok()
}

/// Whether the list has a zone or is complete; other lists aren't put into the zone table.
fn is_told(list: &ZoneList) -> bool
    ensures { result ≡ spec.is_told list.now }
{
    list.complete || !list.zones.is_empty()
}

/// Whether each list of the zone table starts above the end of the one before it.
fn are_apart(lists: &[ZoneList]) -> bool
    ensures { result ≡ are_above 0 (zone_map lists.now) }
{
    let mut end = 0;
    for list in lists {
        if is_told(list) {
            if list.start <= end {
                return false;
            }
            end = list.end;
        }
    }
    true
}

/// Whether the range of each list is valid.
fn have_each_range(lists: &[ZoneList]) -> bool
    ensures { result ≡ list_all (λ (l : ListValue). is_range l.start l.end) lists.now }
{
    lists.iter().all(has_range)
}

/// Whether the ranges are valid, and those of the zone table rise without overlap.
fn have_ranges(lists: &[ZoneList]) -> bool
    ensures { result ≡ have_zone_ranges lists.now }
{
    have_each_range(lists) && are_apart(lists)
}

/// Whether a zone table has room for the zones of the list, which has at most `MAX_ZONES` names.
fn is_short(list: &ZoneList) -> bool
    ensures { result ≡ (list.now.complete || nat_lt (length list.now.zones) max_zones) }
{
    list.complete || list.zones.len() < MAX_ZONES
}

/// Whether each list is complete or has fewer than `MAX_ZONES` names.
fn are_each_short(lists: &[ZoneList]) -> bool
    ensures { result
        ≡ list_all (λ (l : ListValue). l.complete || nat_lt (length l.zones) max_zones) lists.now }
{
    lists.iter().all(is_short)
}

/// Whether a zone table has room for the zones of each list.
fn are_short(lists: &[ZoneList]) -> bool
    requires { Every (λ (l : ListValue). length l.zones ≤ max_zones) lists.now }
    ensures { result ≡ have_few_zones lists.now }
{
    are_each_short(lists)
}

/// The least number of zones of the list: one more than its names if it isn't complete, else 0.
fn least_of(list: &ZoneList) -> u8
    requires { (if list.now.complete then 0 else length list.now.zones + 1) ≤ max_zones }
    ensures { result ≡ (if list.now.complete then 0 else length list.now.zones + 1) }
{
    if list.complete {
        0
    } else {
        list.zones.len() as u8 + 1
    }
}

/// Appends the list to the table, if it has a zone or is complete. Error: `Memory`.
fn put(table: &mut ZoneTable, list: &ZoneList) -> Result<(), Error>
    requires map { IsZoneMap (table.old ++ zone_map (list.now ∷ [])) }
    requires few { length list.now.zones ≤ max_zones }
    ensures ok { OnOk result (table.new ≡ table.old ++ zone_map (list.now ∷ [])) }
    ensures err { IsOkUnless result Error.Memory }
{
    if !is_told(list) {
        return Ok(());
    }
    let range = Range::new(list.start, list.end).unwrap();
    table.append(range, least_of(list), list.zones.as_slice())
}

/// The zone table of these lists. Error: `Memory`.
fn put_all(alloc: Global, lists: &[ZoneList]) -> Result<ZoneTable, Error>
    requires map { IsZoneMap (zone_map lists.now) }
    requires zones { Every (λ (l : ListValue). length l.zones ≤ max_zones) lists.now }
    ensures ok { IfOk result (λ table. table ≡ zone_map lists.now) }
    ensures err { IsOkUnless result Error.Memory }
{
    let mut table = ZoneTable::new(alloc)?;
    for list in lists {
        put(&mut table, list)?;
    }
    Ok(table)
}

/// The zone table of these lists. Errors: `BadRange`, `Full`, `Memory`, in this order.
fn table_of(alloc: Global, lists: &[ZoneList]) -> Result<ZoneTable, Error>
    requires few { length lists.now ≤ max_lists }
    requires zones { Every (λ (l : ListValue). length l.zones ≤ max_zones) lists.now }
    ensures ok { IfOk result (λ table. table ≡ zone_map lists.now) }
    ensures range { (result ≡ Err Error.BadRange) ↔ (have_zone_ranges lists.now ≡ false) }
    ensures full { (result ≡ Err Error.Full) ↔ ((have_zone_ranges lists.now ≡ true)
        × (have_few_zones lists.now ≡ false)) }
    ensures refused { IfErr result
        (λ e. (e ≡ Error.BadRange) ⊎ (e ≡ Error.Full) ⊎ (e ≡ Error.Memory)) }
{
    if !have_ranges(lists) {
        return Err(Error::BadRange);
    }
    if !are_short(lists) {
        return Err(Error::Full);
    }
    put_all(alloc, lists)
}

/// The router with an index, if any.
fn router_at(routers: &[Router], index: u8) -> Option<&Router>
    ensures { option_copied result ≡ slice_get routers.now index }
{
    routers.get(index as usize)
}

/// The zone lists of a router, if it exists: at most `MAX_LISTS`, of at most
/// `MAX_ZONES` names each.
fn lists_of(image: &Image, router: u8) -> Option<&[ZoneList]>
    ensures lists { option_copied result ≡ lists_at router image.now }
    ensures there { is_some result ≡ nat_lt router (length image.now.routers) }
    ensures few { IfSome result (λ lists. length lists.now ≤ max_lists) }
    ensures zones { IfSome result
        (λ lists. Every (λ (l : ListValue). length l.zones ≤ max_zones) lists.now) }
{
    let found = router_at(image.routers(), router)?;
    Some(found.lists.as_slice())
}

/// The zone lists of a router, by its index from 0, as a zone table. A list that isn't complete
/// gets a total of one more than its names; one without names is left out.
///
/// Errors: `NoSuch(Router)`; else `BadRange` where the range of a list isn't valid, or two
/// overlap; else `Full` where a list that isn't complete has `MAX_ZONES` names; else `Memory`.
pub fn zones_of(alloc: Global, image: &Image, router: u8) -> Result<ZoneTable, Error>
    ensures ok { IfOk result
        (λ table. option_map zone_map (lists_at router image.now) ≡ Some table) }
    ensures none { (result ≡ Err (Error.NoSuch What.Router))
        ↔ (length image.now.routers ≤ router) }
    ensures range { (result ≡ Err Error.BadRange)
        ↔ (option_map have_zone_ranges (lists_at router image.now) ≡ Some false) }
    ensures full { (result ≡ Err Error.Full)
        ↔ ((option_map have_zone_ranges (lists_at router image.now) ≡ Some true)
        × (option_map have_few_zones (lists_at router image.now) ≡ Some false)) }
    ensures refused { IfErr result (λ e. (e ≡ Error.NoSuch What.Router)
        ⊎ (e ≡ Error.BadRange) ⊎ (e ≡ Error.Full) ⊎ (e ≡ Error.Memory)) }
{
    match lists_of(image, router) {
        Some(lists) => table_of(alloc, lists),
        None => Err(Error::NoSuch(What::Router)),
    }
}
