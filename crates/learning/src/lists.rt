//! Learning from replies with complete lists.

ghost use Rattle.std.specs.Prelude.{◌≡◌, ◌==◌, ◌∷◌, [], fold, length, if◌then◌else◌};
ghost use Rattle.std.specs.Prelude.{false, None, IfOk, IfSome, OnErr, OnOk, IsOk, IsOkUnless};
ghost use Rattle.std.specs.List.{list_all, list_any};
ghost use Rattle.zip_zones.specs.Answers as spec;
ghost use Rattle.zip_zones.specs.Answers.{after_list, is_taken, networks_named, range_heard};
ghost use Rattle.zip_zones.specs.Zones.{set_list, with_known};

use crate::zones::range_of;
use at_base::{Error, Name, Range};
use rtmp::RouteTable;
use std::alloc::Global;
use zip_zones::{Entries, Entry, ZoneTable};

/// The allocator of the table's lists. Error: `Memory`, which an empty list never needs.
fn allocator_of(zones: &ZoneTable) -> Result<Global, Error>
    ensures { IsOkUnless result Error.Memory }
{
    // Network 0 is in no range.
    let none = zones.names_of(0)?;
    Ok(*none.allocator())
}

/// The entries, as a vector. Error: `Memory`.
fn all_of(alloc: Global, entries: Entries<'_>) -> Result<Vec<Entry>, Error>
    ensures ok { IfOk result (λ all. all.items ≡ entries.entry) }
    ensures refused { IsOkUnless result Error.Memory }
{
    let mut all = Vec::new(alloc);
    for entry in entries {
        all.push(entry)?;
    }
    Ok(all)
}

/// The names in the entries of a network. Error: `Memory`.
fn names_for(alloc: Global, entries: &[Entry], net: u16) -> Result<Vec<Name>, Error>
    ensures ok { IfOk result (λ names. names.items ≡ spec.names_for net entries.now) }
    ensures refused { IsOkUnless result Error.Memory }
{
    let names = entries.iter().filter(|entry| entry.net == net);
    Ok(names.map(|entry| entry.name).collect(alloc)?)
}

/// Whether one of the entries is of the network.
fn has_network(entries: &[Entry], net: u16) -> bool
    ensures { result ≡ list_any (λ e. e.net == net) entries.now }
{
    entries.iter().any(|entry| entry.net == net)
}

/// Sets the complete list of a range, unless the table has no room for it or another range overlaps
/// it. Error: `Memory`.
fn take_list(zones: &mut ZoneTable, range: Range, names: &[Name]) -> Result<(), Error>
    ensures ok { OnOk result (zones.new ≡ (if is_taken range (length names.now) zones.old
        then with_known (set_list range names.now) zones.old else zones.old)) }
    // A list that is left out needs no memory.
    ensures left_out { is_taken range (length names.now) zones.old ≡ false → IsOk result }
    ensures stays { OnErr result (zones.new ≡ zones.old) }
    ensures refused { IsOkUnless result Error.Memory }
{
    match zones.set(range, names) {
        Ok(()) | Err(Error::BadRange | Error::Full) => Ok(()),
        Err(error) => Err(error),
    }
}

/// Learns the complete list of a network. Error: `Memory`.
fn learn_list<T: RouteTable>(
    zones: &mut ZoneTable,
    routes: &T,
    entries: &[Entry],
    net: u16,
) -> Result<(), Error>
    ensures ok { OnOk result
        (zones.new ≡ after_list (T.rows routes.now) entries.now zones.old net) }
    ensures left_out { range_heard (T.rows routes.now) net ≡ None → IsOk result }
    ensures stays { OnErr result (zones.new ≡ zones.old) }
    ensures refused { IsOkUnless result Error.Memory }
{
    match range_of(routes, net) {
        Some(range) => {
            let alloc = allocator_of(zones)?;
            let names = names_for(alloc, entries, net)?;
            take_list(zones, range, names.as_slice())
        }
        None => Ok(()),
    }
}

/// Learns the list of each network of these entries, in order of first appearance. Error: `Memory`;
/// the first lists may have been learned then.
fn learn_each<T: RouteTable>(
    zones: &mut ZoneTable,
    routes: &T,
    entries: &[Entry],
) -> Result<(), Error>
    ensures ok { OnOk result (zones.new ≡ fold (after_list (T.rows routes.now) entries.now)
        zones.old (networks_named entries.now)) }
    ensures refused { IsOkUnless result Error.Memory }
{
    for (index, entry) in entries.iter().enumerate() {
        if !has_network(&entries[..index], entry.net) {
            learn_list(zones, routes, entries, entry.net)?;
        }
    }
    Ok(())
}

/// Whether all entries are of the network.
fn are_of(entries: &[Entry], net: u16) -> bool
    ensures { result ≡ list_all (λ e. e.net == net) entries.now }
{
    entries.iter().all(|entry| entry.net == net)
}

/// The network of all entries, if they are of one.
fn only_network(entries: &[Entry]) -> Option<u16>
    ensures { IfSome result (λ net. networks_named entries.now ≡ net ∷ []) }
{
    match entries {
        [first, ..] if are_of(entries, first.net) => Some(first.net),
        _ => None,
    }
}

/// Learns the complete lists of a reply. Error: `Memory`; nothing changes then.
pub(crate) fn learn_lists<T: RouteTable>(
    zones: &mut ZoneTable,
    routes: &T,
    entries: Entries<'_>,
) -> Result<(), Error>
    ensures ok { OnOk result (zones.new ≡ fold (after_list (T.rows routes.now) entries.entry)
        zones.old (networks_named entries.entry)) }
    ensures stays { OnErr result (zones.new ≡ zones.old) }
    ensures refused { IsOkUnless result Error.Memory }
{
    let alloc = allocator_of(zones)?;
    let all = all_of(alloc, entries)?;
    if let Some(net) = only_network(all.as_slice()) {
        return learn_list(zones, routes, all.as_slice(), net);
    }
    // A list may be refused after others were learned, so they go to a copy.
    let mut next = zones.copy()?;
    learn_each(&mut next, routes, all.as_slice())?;
    *zones = next;
    Ok(())
}
