//! A writer of NetInfo replies.

ghost use Rattle.std.specs.Prelude.{◌≡◌, ◌<◌, ◌≤◌, ◌+◌, ◌/◌, ◌==◌, ◌∷◌, ◌++◌, [], length, find};
ghost use Rattle.std.specs.Prelude.{is_some, option_copied, option_map, IfOk, IfSome, IsOk, IsOkUnless};
ghost use Rattle.std.specs.Prelude.{OnOk};
ghost use Rattle.std.specs.Int.{to_be_bytes, w16};
ghost use Rattle.at_base.specs.Packets.{any, text};
ghost use Rattle.at_base.specs.Spelling.{bytes_of};
ghost use Rattle.at_base.specs.Text.{same_name};
ghost use Rattle.zip_zones.specs.declared.packet.Packet.TheVariants.{NetInfoReply as ReplyValue};
ghost use Rattle.zip_zones.specs.Answers.{net_info_reply};
ghost use Rattle.zip_zones.specs.Formats as formats_spec;
ghost use Rattle.zip_zones.specs.Formats.{default_zone};
ghost use Rattle.zip_zones.specs.Written as written_spec;
ghost use Rattle.zip_zones.specs.Written.{flags_for, zone_group};
ghost use Rattle.at_base.specs.Limits.{max_data};

use crate::packet::{Function, NetInfo};
use crate::page::put_name;
use crate::writer::number;
use at_base::{Bytes, Error, Hw, Name, Range, Text32, is_zone_name};
use std::alloc::Global;

/// The flag that the requested zone isn't in the cable's list.
const INVALID_ZONE: u8 = 0x80;

/// The flag that the cable has one zone.
const ONE_ZONE: u8 = 0x20;

/// The length of a reply without the texts of the requested zone and of the default zone.
const INFO_LEN: usize = 14;

/// The spelling of a zone in the list, if the list has it in any case.
fn spelling_of<'a>(zone: &Name, names: &'a [Name]) -> Option<&'a Name>
    ensures { option_copied result ≡ find (same_name zone.now) names.now }
{
    names.iter().find(|name| zone.same(name))
}

/// The zone in the list that a text names, in any case.
fn listed<'a>(asked: &[u8], names: &'a [Name]) -> Option<&'a Name>
    ensures { option_copied result ≡ written_spec.listed asked.now names.now }
{
    if !is_zone_name(asked) {
        return None;
    }
    spelling_of(&Name::of(asked), names)
}

/// The hardware address of a zone's group.
fn group_of(zone: &Name) -> Hw
    ensures { result ≡ zone_group zone.now }
{
    Hw::zone(zone.group())
}

/// The flags of a reply: whether the requested zone is listed, and whether the cable has one zone.
fn flags(is_listed: bool, count: usize) -> u8
    ensures { result ≡ flags_for is_listed count }
{
    let invalid = if is_listed { 0 } else { INVALID_ZONE };
    let one = if count == 1 { ONE_ZONE } else { 0 };
    invalid + one
}

/// The reply to a request for a zone on a cable with these zones.
fn net_info(asked: &Text32, range: Range, names: &[Name]) -> NetInfo
    requires { 0 < length names.now }
    ensures { result ≡ written_spec.net_info asked.now range names.now }
{
    let found = listed(asked.as_slice(), names);
    NetInfo {
        flags: flags(found.is_some(), names.len()),
        start: range.start(),
        end: range.end(),
        asked: *asked,
        group: group_of(found.unwrap_or(&names[0])),
        default: match found {
            Some(_) => None,
            None => Some(names[0]),
        },
    }
}

/// The first two bytes of a reply: function and flags.
fn front(flags: u8) -> [u8; 2]
    ensures bytes { result ≡ 6 ∷ flags ∷ [] }
    ensures fits { flags ≤ 255 }
{
    [number(Function::NetInfoReply), flags]
}

/// Appends a length-prefixed text.
#[tactic(auto, unfolding(at_base::specs::Packets::text))]
pub(crate) fn put_text(bytes: &mut Vec<u8>, asked: &Text32) -> Result<(), Error>
    ensures put { OnOk result
        (bytes.new.items ≡ bytes.old.items ++ bytes_of (text 0 any) asked.now) }
    ensures few { OnOk result (length bytes.new.items ≤ length bytes.old.items + 33) }
    ensures refused { IsOkUnless result Error.Memory }
{
    let asked = asked.as_slice();
    bytes.push(asked.len() as u8)?;
    bytes.extend_from_slice(asked)?;
    Ok(())
}

/// Appends the range of a cable.
fn put_range(bytes: &mut Vec<u8>, start: u16, end: u16) -> Result<(), Error>
    ensures put { OnOk result (bytes.new.items
        ≡ bytes.old.items ++ to_be_bytes w16 start ++ to_be_bytes w16 end) }
    ensures few { OnOk result (length bytes.new.items ≤ length bytes.old.items + 4) }
    ensures refused { IsOkUnless result Error.Memory }
{
    bytes.extend_from_slice(&start.to_be_bytes())?;
    bytes.extend_from_slice(&end.to_be_bytes())?;
    Ok(())
}

/// Appends a length-prefixed hardware address.
fn put_group(bytes: &mut Vec<u8>, group: &Hw) -> Result<(), Error>
    ensures put { OnOk result (bytes.new.items ≡ bytes.old.items ++ 6 ∷ group.now.0) }
    ensures few { OnOk result (length bytes.new.items ≤ length bytes.old.items + 7) }
    ensures refused { IsOkUnless result Error.Memory }
{
    bytes.push(6)?;
    bytes.extend_from_slice(group.as_slice())?;
    Ok(())
}

/// Appends the default zone, if the reply has one.
#[tactic(auto, unfolding(crate::specs::Formats::default_zone, at_base::specs::Packets::text))]
fn put_default(bytes: &mut Vec<u8>, default: &Option<Name>) -> Result<(), Error>
    ensures put { OnOk result (bytes.new.items
        ≡ bytes.old.items ++ bytes_of (default_zone (is_some default.now)) default.now) }
    ensures few { OnOk result (length bytes.new.items ≤ length bytes.old.items + 33) }
    ensures refused { IsOkUnless result Error.Memory }
{
    match default {
        Some(name) => put_name(bytes, name),
        None => Ok(()),
    }
}

/// The bytes of a reply. Its first flag must say whether it has a default zone.
fn write_info(alloc: Global, info: &NetInfo) -> Result<Bytes, Error>
    requires { (info.now.flags / 128 == 1) ≡ is_some info.now.default }
    ensures ok { IfOk result (λ bytes. bytes ≡ bytes_of formats_spec.packet (ReplyValue info.now)) }
    ensures short { IfOk result (λ bytes. length bytes ≤ max_data) }
    ensures refused { IsOkUnless result Error.Memory }
{
    let default_len = match &info.default {
        Some(name) => 1 + name.as_slice().len(),
        None => 0,
    };
    let len = INFO_LEN + info.asked.as_slice().len() + default_len;
    let mut bytes = Vec::with_capacity(alloc, len)?;
    bytes.extend_from_slice(&front(info.flags))?;
    put_range(&mut bytes, info.start, info.end)?;
    put_text(&mut bytes, &info.asked)?;
    put_group(&mut bytes, &info.group)?;
    put_default(&mut bytes, &info.default)?;
    Ok(Bytes::from_vec(bytes))
}

/// The GetNetInfo reply: the cable's range, whether it has the requested zone (ignoring case), the
/// zone's multicast address, and, if it hasn't the zone, the default zone, which is the first of
/// the list. Allocates exactly the reply's length.
///
/// Inside AppleTalk, the chapter on ZIP. Error: `Memory`.
pub fn answer_net_info(
    alloc: Global,
    asked: &Text32,
    range: Range,
    names: &[Name],
) -> Result<Bytes, Error>
    requires { 0 < length names.now }
    ensures ok { IfOk result (λ bytes. bytes
        ≡ bytes_of formats_spec.packet (ReplyValue (written_spec.net_info asked.now range names.now))) }
    ensures short { IfOk result (λ bytes. length bytes ≤ max_data) }
    ensures refused { IsOkUnless result Error.Memory }
{
    let info = net_info(asked, range, names);
    write_info(alloc, &info)
}

/// The GetNetInfo reply for a zone on a cable with these zones, or `None` if the cable has no zone.
///
/// Inside AppleTalk, the chapter on ZIP; that a cable without zones gets no reply is this project's
/// own. Error: `Memory`.
pub fn reply_net_info(
    alloc: Global,
    asked: &Text32,
    range: Range,
    names: &[Name],
) -> Result<Option<Bytes>, Error>
    ensures ok { IfOk result (λ made. made
        ≡ option_map (bytes_of formats_spec.packet) (net_info_reply asked.now range names.now)) }
    ensures short { IfOk result (λ made. IfSome made (λ bytes. length bytes ≤ max_data)) }
    ensures silent { names.now ≡ [] → IsOk result }
    ensures refused { IsOkUnless result Error.Memory }
{
    if names.is_empty() {
        return Ok(None);
    }
    let bytes = answer_net_info(alloc, asked, range, names)?;
    Ok(Some(bytes))
}
