//! Learning the names of one network together.

ghost use Rattle.std.specs.Prelude.{◌≡◌, ◌==◌, [], fold, true, if◌then◌else◌};
ghost use Rattle.std.specs.Prelude.{IfNone, IsOkUnless, OnErr, OnOk};
ghost use Rattle.std.specs.List.{list_all};
ghost use Rattle.zip_zones.specs.Answers.{after_name, heard_all, is_taken};

use crate::zones::range_of;
use at_base::{Error, Range};
use rtmp::RouteTable;
use zip_zones::{Entries, ZoneTable};

/// The network of the first one of these entries, if any.
pub(crate) fn first_network(entries: Entries<'_>) -> Option<u16>
    ensures { IfNone result (entries.entry ≡ []) }
{
    let mut entries = entries;
    match entries.next() {
        Some(entry) => Some(entry.net),
        None => None,
    }
}

/// Whether all of these entries are of the network.
pub(crate) fn are_of(entries: Entries<'_>, net: u16) -> bool
    ensures { result ≡ list_all (λ e. e.net == net) entries.entry }
{
    for entry in entries {
        if entry.net != net {
            return false;
        }
    }
    true
}

/// Adds names of a range that has `total` zones, unless the table has no room for them or another
/// range overlaps it. Error: `Memory`.
fn take_names(
    zones: &mut ZoneTable,
    range: Range,
    total: u8,
    entries: Entries<'_>,
) -> Result<(), Error>
    ensures ok { OnOk result (zones.new ≡ (if is_taken range total zones.old
        then heard_all range total entries.entry zones.old else zones.old)) }
    ensures stays { OnErr result (zones.new ≡ zones.old) }
    ensures refused { IsOkUnless result Error.Memory }
{
    match zones.add_all(range, total, entries) {
        Ok(()) | Err(Error::BadRange | Error::Full) => Ok(()),
        Err(error) => Err(error),
    }
}

/// Learns names of a network that has `total` zones. Error: `Memory`; nothing changes then.
pub(crate) fn learn_together<T: RouteTable>(
    zones: &mut ZoneTable,
    routes: &T,
    total: u8,
    net: u16,
    entries: Entries<'_>,
) -> Result<(), Error>
    requires { list_all (λ e. e.net == net) entries ≡ true }
    ensures ok { OnOk result
        (zones.new ≡ fold (after_name (T.rows routes.now) total) zones.old entries.entry) }
    ensures stays { OnErr result (zones.new ≡ zones.old) }
    ensures refused { IsOkUnless result Error.Memory }
{
    match range_of(routes, net) {
        Some(range) => take_names(zones, range, total, entries),
        None => Ok(()),
    }
}
