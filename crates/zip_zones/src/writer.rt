//! A writer of ZIP queries and extended replies.

ghost use Rattle.std.specs.Prelude.{◌≡◌, ◌<◌, ◌≤◌, ◌+◌, ◌++◌, ◌↔◌, ◌⊎◌, length, IfErr, IfOk, OnOk};
ghost use Rattle.std.specs.Prelude.{IsOkUnless};
ghost use Rattle.at_base.specs.Spelling.{bytes_of};
ghost use Rattle.zip_zones.specs.declared.packet.Packet.TheVariants.{Query as QueryValue};
ghost use Rattle.zip_zones.specs.Formats as formats_spec;
ghost use Rattle.zip_zones.specs.Formats.{number_of};
ghost use Rattle.zip_zones.specs.Packets as packets_spec;
ghost use Rattle.zip_zones.specs.Written.{entries_bytes, entries_of, entries_size, extended_reply};
ghost use Rattle.zip_zones.specs.Written.{networks_bytes};
ghost use Rattle.at_base.specs.Limits.{max_data};

use crate::packet::Function;
use crate::page::put_name;
use at_base::limits::MAX_DATA;
use at_base::{Bytes, Error, Name};
use std::alloc::Global;

/// The greatest number of networks in a query.
pub const MAX_NETWORKS: usize = 255;

/// The length of the bytes before the networks of a query, and before the entries of a reply.
const HEAD_LEN: usize = 2;

/// The greatest number of bytes of a reply's entries.
pub(crate) const MAX_ENTRIES: usize = MAX_DATA - HEAD_LEN;

/// The length of an entry without the text of its name.
pub(crate) const ENTRY_LEN: usize = 3;

/// The number of a function.
pub(crate) fn number(function: Function) -> u8
    ensures { result ≡ number_of function }
{
    match function {
        Function::Query => 1,
        Function::Reply => 2,
        Function::GetNetInfo => 5,
        Function::NetInfoReply => 6,
        Function::ExtendedReply => 8,
    }
}

/// Appends a network.
#[tactic(auto, unfolding(crate::specs::Packets::network))]
fn put_network(bytes: &mut Vec<u8>, net: u16) -> Result<(), Error>
    ensures put { OnOk result (bytes.new.items ≡ bytes.old.items ++ bytes_of packets_spec.network net) }
    ensures refused { IsOkUnless result Error.Memory }
{
    bytes.extend_from_slice(&net.to_be_bytes())?;
    Ok(())
}

/// Appends networks.
fn put_networks(bytes: &mut Vec<u8>, networks: &[u16]) -> Result<(), Error>
    ensures put { OnOk result
        (bytes.new.items ≡ bytes.old.items ++ networks_bytes networks.now) }
    ensures refused { IsOkUnless result Error.Memory }
{
    for net in networks {
        put_network(bytes, *net)?;
    }
    Ok(())
}

/// The query for the zones of networks. Allocates exactly its length.
///
/// Inside AppleTalk, the chapter on ZIP.
///
/// Errors: `Full` above 255 networks, `Memory`.
pub fn write_query(alloc: Global, networks: &[u16]) -> Result<Bytes, Error>
    ensures ok { IfOk result (λ bytes. bytes ≡ bytes_of formats_spec.packet (QueryValue networks.now)) }
    ensures full { (result ≡ Err Error.Full) ↔ (255 < length networks.now) }
    ensures refused { IfErr result (λ e. (e ≡ Error.Full) ⊎ (e ≡ Error.Memory)) }
{
    if networks.len() > MAX_NETWORKS {
        return Err(Error::Full);
    }
    let mut bytes = Vec::with_capacity(alloc, HEAD_LEN + 2 * networks.len())?;
    bytes.extend_from_slice(&[number(Function::Query), networks.len() as u8])?;
    put_networks(&mut bytes, networks)?;
    Ok(Bytes::from_vec(bytes))
}

/// Appends an entry: a network, and the name of one of its zones.
#[tactic(auto, unfolding(crate::specs::Packets::entry, at_base::specs::Packets::text))]
fn put_entry(bytes: &mut Vec<u8>, net: u16, name: &Name) -> Result<(), Error>
    ensures put { OnOk result (bytes.new.items
        ≡ bytes.old.items ++ bytes_of (packets_spec.entry 0) (record { net = net; name = name.now })) }
    ensures refused { IsOkUnless result Error.Memory }
{
    bytes.extend_from_slice(&net.to_be_bytes())?;
    put_name(bytes, name)
}

/// Appends an entry for each of the names of a network.
fn put_entries(bytes: &mut Vec<u8>, net: u16, names: &[Name]) -> Result<(), Error>
    ensures put { OnOk result
        (bytes.new.items ≡ bytes.old.items ++ entries_bytes (entries_of net names.now)) }
    ensures refused { IsOkUnless result Error.Memory }
{
    for name in names {
        put_entry(bytes, net, name)?;
    }
    Ok(())
}

/// The number of bytes of the entries of these names. Error: `TooLong` where they don't fit into
/// `room` bytes.
fn entries_len(names: &[Name], room: usize) -> Result<usize, Error>
    ensures ok { IfOk result (λ len. (len ≡ entries_size names.now) × (len ≤ room)) }
    ensures long { (result ≡ Err Error.TooLong) ↔ (room < entries_size names.now) }
    ensures refused { IsOkUnless result Error.TooLong }
{
    match names {
        [] => Ok(0),
        [name, rest @ ..] => {
            let len = ENTRY_LEN + name.as_slice().len();
            if room < len {
                return Err(Error::TooLong);
            }
            let others = entries_len(rest, room - len)?;
            Ok(len + others)
        }
    }
}

/// The extended reply with these names of a network that has `total` zones. Allocates exactly its
/// length.
///
/// Inside AppleTalk, the chapter on ZIP.
///
/// Errors: `TooLong` above 586 bytes, `Memory`.
pub fn write_extended(alloc: Global, net: u16, total: u8, names: &[Name]) -> Result<Bytes, Error>
    requires { 0 < length names.now }
    ensures ok { IfOk result (λ bytes. bytes
        ≡ bytes_of formats_spec.packet (extended_reply net total names.now)) }
    ensures short { IfOk result (λ bytes. length bytes ≤ max_data) }
    ensures long { (result ≡ Err Error.TooLong) ↔ (max_data < 2 + entries_size names.now) }
    ensures refused { IfErr result (λ e. (e ≡ Error.TooLong) ⊎ (e ≡ Error.Memory)) }
{
    let len = entries_len(names, MAX_ENTRIES)?;
    let mut bytes = Vec::with_capacity(alloc, HEAD_LEN + len)?;
    bytes.extend_from_slice(&[number(Function::ExtendedReply), total])?;
    put_entries(&mut bytes, net, names)?;
    Ok(Bytes::from_vec(bytes))
}
