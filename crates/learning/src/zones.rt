//! Learning from replies to ZIP queries.

ghost use Rattle.std.specs.Prelude.{◌≡◌, false, true, fold, if◌then◌else◌};
ghost use Rattle.std.specs.Prelude.{OnErr, OnOk, IsOk, IsOkUnless};
ghost use Rattle.learning.specs.LeftOut.{is_left_out, is_reply};
ghost use Rattle.zip_zones.specs.Answers.{after_name, after_reply, is_taken, range_heard};
ghost use Rattle.zip_zones.specs.Zones.{heard};

use crate::lists::learn_lists;
use crate::names::{are_of, first_network, learn_together};
use at_base::{Error, Range};
use rtmp::RouteTable;
use zip_zones::{Entries, Entry, Packet, ZoneTable};

/// The range that a reply for the network is about: that of its usable row, unless that row is
/// direct.
pub(crate) fn range_of<T: RouteTable>(routes: &T, net: u16) -> Option<Range>
    ensures { result ≡ range_heard (T.rows routes.now) net }
{
    match routes.row_for(net) {
        Some(row) if !row.is_direct() => Some(row.range),
        _ => None,
    }
}

/// Adds a name of a range that has `total` zones, unless the table has no room for it or another
/// range overlaps it. Error: `Memory`.
fn take_name(zones: &mut ZoneTable, range: Range, total: u8, entry: &Entry) -> Result<(), Error>
    ensures ok { OnOk result (zones.new ≡ (if is_taken range total zones.old
        then heard range total entry.now.name zones.old else zones.old)) }
    // A name that is left out needs no memory.
    ensures left_out { is_taken range total zones.old ≡ false → IsOk result }
    ensures stays { OnErr result (zones.new ≡ zones.old) }
    ensures refused { IsOkUnless result Error.Memory }
{
    match zones.add(range, total, &entry.name) {
        Ok(()) | Err(Error::BadRange | Error::Full) => Ok(()),
        Err(error) => Err(error),
    }
}

/// Learns a name of a network that has `total` zones. Error: `Memory`.
fn learn_name<T: RouteTable>(
    zones: &mut ZoneTable,
    routes: &T,
    total: u8,
    entry: &Entry,
) -> Result<(), Error>
    ensures ok { OnOk result
        (zones.new ≡ after_name (T.rows routes.now) total zones.old entry.now) }
    ensures left_out { is_left_out (T.rows routes.now) total zones.old entry.now ≡ true
        → IsOk result }
    ensures stays { OnErr result (zones.new ≡ zones.old) }
    ensures refused { IsOkUnless result Error.Memory }
{
    match range_of(routes, entry.net) {
        Some(range) => take_name(zones, range, total, entry),
        None => Ok(()),
    }
}

/// Learns the names of an extended reply, one by one. Error: `Memory`; the first ones may have been
/// learned then.
fn learn_names<T: RouteTable>(
    zones: &mut ZoneTable,
    routes: &T,
    total: u8,
    entries: Entries<'_>,
) -> Result<(), Error>
    ensures ok { OnOk result
        (zones.new ≡ fold (after_name (T.rows routes.now) total) zones.old entries.entry) }
    ensures refused { IsOkUnless result Error.Memory }
{
    for entry in entries {
        learn_name(zones, routes, total, &entry)?;
    }
    Ok(())
}

/// Learns the names of an extended reply. Error: `Memory`; nothing changes then.
fn learn_whole<T: RouteTable>(
    zones: &mut ZoneTable,
    routes: &T,
    total: u8,
    entries: Entries<'_>,
) -> Result<(), Error>
    ensures ok { OnOk result
        (zones.new ≡ fold (after_name (T.rows routes.now) total) zones.old entries.entry) }
    ensures stays { OnErr result (zones.new ≡ zones.old) }
    ensures refused { IsOkUnless result Error.Memory }
{
    let net = match first_network(entries.again()) {
        Some(net) => net,
        None => return Ok(()),
    };
    if are_of(entries.again(), net) {
        return learn_together(zones, routes, total, net, entries);
    }
    // A network's name may be refused after those of others were learned, so they go to a copy. No
    // packet that is read has several networks.
    let mut next = zones.copy()?;
    learn_names(&mut next, routes, total, entries)?;
    *zones = next;
    Ok(())
}

/// Learns zone lists from a ZIP packet. Only replies are used. A name is accepted for a network
/// whose usable row isn't direct, as a zone of that row's range.
///
/// In a reply of function 2 the names of a network are its complete list. In one of function 8 they
/// are some names of a list with as many zones as the reply says. Names and lists for which the
/// zone table has no room, or whose range overlaps another range of it, are left out.
///
/// Inside AppleTalk, the chapter on ZIP; for which rows replies are accepted, and what is left out,
/// is this project's own. Error: `Memory`; nothing changes then.
pub fn learn_zones<T: RouteTable>(
    zones: &mut ZoneTable,
    routes: &T,
    packet: Packet<'_>,
) -> Result<(), Error>
    ensures ok { OnOk result (zones.new ≡ after_reply (T.rows routes.now) packet.entry zones.old) }
    // A packet that isn't a reply needs no memory.
    ensures ignored { is_reply packet.entry ≡ false → IsOk result }
    ensures stays { OnErr result (zones.new ≡ zones.old) }
    ensures refused { IsOkUnless result Error.Memory }
{
    match packet {
        Packet::Reply(_, entries) => learn_lists(zones, routes, entries),
        Packet::ExtendedReply(total, entries) => learn_whole(zones, routes, total, entries),
        _ => Ok(()),
    }
}
