//! The replies of a router to queries.

ghost use Rattle.std.specs.Prelude.{◌≡◌, ◌<◌, ◌≤◌, ◌+◌, ◌*◌, ◌++◌, ◌∷◌, [], length, map, take};
ghost use Rattle.std.specs.Prelude.{IfOk, IsOk, IsOkUnless, OnOk};
ghost use Rattle.std.specs.List.{flat_map};
ghost use Rattle.at_base.specs.Spelling.{bytes_of};
ghost use Rattle.zip_zones.specs.Answers.{first_group, grouped, replies, replies_for};
ghost use Rattle.zip_zones.specs.Formats as spec;
ghost use Rattle.zip_zones.specs.Written.{AreShort, entries_size, extended_reply};

use crate::networks::Networks;
use crate::table::ZoneTable;
use crate::writer::{ENTRY_LEN, MAX_ENTRIES, write_extended};
use at_base::{Bytes, Error, Name};
use std::alloc::Global;

/// The number of networks of a query for which a router replies.
const MAX_ANSWERED: usize = 16;

/// The number of names at the front whose entries fit into `room` bytes.
fn fitting(names: &[Name], room: usize) -> usize
    ensures count { result ≡ length (first_group room names.now) }
    ensures few { result ≤ room }
    ensures within { result ≤ length names.now }
    // A name has at most 32 bytes, so a group has many names.
    ensures many { result < length names.now → room < 35 * (result + 1) }
{
    match names {
        [] => 0,
        [name, rest @ ..] => {
            let len = ENTRY_LEN + name.as_slice().len();
            if room < len {
                return 0;
            }
            1 + fitting(rest, room - len)
        }
    }
}

/// Appends the reply with these names, which must fit into it. Error: `Memory`.
fn put_group(made: &mut Vec<Bytes>, net: u16, total: u8, group: &[Name]) -> Result<(), Error>
    requires some { 0 < length group.now }
    requires fits { entries_size group.now ≤ 584 }
    ensures put { OnOk result (made.new.items
        ≡ made.old.items ++ bytes_of spec.packet (extended_reply net total group.now) ∷ []) }
    ensures short { OnOk result (AreShort made.old.items → AreShort made.new.items) }
    ensures refused { IsOkUnless result Error.Memory }
{
    match write_extended(*made.allocator(), net, total, group) {
        Ok(bytes) => {
            made.push(bytes)?;
            Ok(())
        }
        Err(_) => Err(Error::Memory),
    }
}

/// Appends replies with these names, as many in each as fit. Error: `Memory`.
fn put_groups(made: &mut Vec<Bytes>, net: u16, total: u8, names: &[Name]) -> Result<(), Error>
    ensures put { OnOk result (made.new.items ≡ made.old.items
        ++ map (bytes_of spec.packet) (map (extended_reply net total) (grouped names.now))) }
    ensures few { OnOk result
        (16 * length made.new.items ≤ 16 * length made.old.items + length names.now + 15) }
    ensures short { OnOk result (AreShort made.old.items → AreShort made.new.items) }
    ensures silent { names.now ≡ [] → IsOk result }
    ensures refused { IsOkUnless result Error.Memory }
{
    match names {
        [] => Ok(()),
        [name, others @ ..] => {
            let room = MAX_ENTRIES - (ENTRY_LEN + name.as_slice().len());
            let (group, rest) = names.split_at(1 + fitting(others, room));
            put_group(made, net, total, group)?;
            put_groups(made, net, total, rest)
        }
    }
}

/// Appends the replies for a network. Error: `Memory`.
fn put_replies(made: &mut Vec<Bytes>, table: &ZoneTable, net: u16) -> Result<(), Error>
    ensures put { OnOk result (made.new.items ≡ made.old.items
        ++ map (bytes_of spec.packet) (replies_for table.now net)) }
    // A list has at most 255 names, and each reply but the last has 16 of them or more.
    ensures few { OnOk result (length made.new.items ≤ length made.old.items + 16) }
    ensures short { OnOk result (AreShort made.old.items → AreShort made.new.items) }
    ensures silent { replies_for table.now net ≡ [] → IsOk result }
    ensures refused { IsOkUnless result Error.Memory }
{
    if !table.complete(net) {
        return Ok(());
    }
    let names = table.names_in_place(net);
    put_groups(made, net, names.len() as u8, names)
}

/// Appends the replies for the first networks, at most `most`. Error: `Memory`.
fn put_first(
    made: &mut Vec<Bytes>,
    table: &ZoneTable,
    mut networks: Networks<'_>,
    most: usize,
) -> Result<(), Error>
    ensures put { OnOk result (made.new.items ≡ made.old.items ++ map (bytes_of spec.packet)
        (flat_map (replies_for table.now) (take most networks.entry))) }
    ensures few { OnOk result (length made.new.items ≤ length made.old.items + 16 * most) }
    ensures short { OnOk result (AreShort made.old.items → AreShort made.new.items) }
    ensures silent { flat_map (replies_for table.now) (take most networks.entry) ≡ []
        → IsOk result }
    ensures refused { IsOkUnless result Error.Memory }
{
    if most == 0 {
        return Ok(());
    }
    match networks.next() {
        Some(net) => {
            put_replies(made, table, net)?;
            put_first(made, table, networks, most - 1)
        }
        None => Ok(()),
    }
}

/// The replies of a router with this table to a query for these networks. Of the first 16 networks,
/// those whose list is complete and not empty get replies, in order: extended replies with the
/// network's number as asked, and as many names in each as fit.
///
/// Inside AppleTalk, the chapter on ZIP; the 16 networks, and that replies are always extended, are
/// this project's own. Error: `Memory`.
pub fn answer_query(
    alloc: Global,
    table: &ZoneTable,
    networks: Networks<'_>,
) -> Result<Vec<Bytes>, Error>
    ensures ok { IfOk result (λ made. made.items
        ≡ map (bytes_of spec.packet) (replies table.now networks.entry)) }
    // At most 16 for each of 16 networks.
    ensures few { IfOk result (λ made. length made.items ≤ 256) }
    // Each is the data of a datagram.
    ensures short { IfOk result (λ made. AreShort made.items) }
    // Without a reply, no memory is needed.
    ensures silent { replies table.now networks.entry ≡ [] → IsOk result }
    ensures refused { IsOkUnless result Error.Memory }
{
    let mut made = Vec::new(alloc);
    put_first(&mut made, table, networks, MAX_ANSWERED)?;
    Ok(made)
}
