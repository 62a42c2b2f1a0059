//! A reader of ZIP packets that borrows its input.

ghost use Rattle.std.specs.Prelude.{◌≡◌, ◌/◌, ◌==◌, []};
ghost use Rattle.at_base.specs.Grammar.{number, one};
ghost use Rattle.at_base.specs.Packets.{packets, text, any};
ghost use Rattle.at_base.specs.Reading as reading_spec;
ghost use Rattle.at_base.specs.Reading.{Gives, Reads, field_at};
ghost use Rattle.zip_zones.specs.Answers.{zone_asked};
ghost use Rattle.zip_zones.specs.Formats.{body, default_zone, function_of, wrong_function};
ghost use Rattle.zip_zones.specs.Formats as spec;

use crate::entries::{Entries, Nets};
use crate::entry::name_at;
use crate::networks::{NetworkFormat, Networks};
use at_base::in_place::{all_items, items_at};
use at_base::packet::{byte_at, byte_only, hardware_at, run_at, text_at, u16_at};
use at_base::{Error, Field, Hw, Name, Text32};

/// The function of a ZIP packet.
///
/// Inside AppleTalk, the chapter on ZIP.
#[derive(Clone, Copy, Debug, PartialEq, Eq)]
pub enum Function {
    /// A request to a router for the zones of networks.
    Query,
    /// A reply to a query, with all zone names of each network.
    Reply,
    /// A request of a node for the range and the zones of its cable.
    GetNetInfo,
    /// The reply to GetNetInfo.
    NetInfoReply,
    /// A reply to a query, for one network, whose names may be in several packets.
    ExtendedReply,
}

/// The contents of a NetInfo reply: the properties of a node's cable.
///
/// Inside AppleTalk, the chapter on ZIP.
#[derive(Clone, Copy, Debug, PartialEq, Eq)]
pub struct NetInfo {
    /// 80 (hex): the requested zone isn't in the cable's list; 40: broadcasts are used instead of
    /// multicasts; 20: the cable has one zone.
    pub flags: u8,
    /// The first network of the cable.
    pub start: u16,
    /// The last network of the cable.
    pub end: u16,
    /// The requested zone, as it was sent.
    pub asked: Text32,
    /// The hardware address of the zone's group on the cable.
    pub group: Hw,
    /// The default zone of the cable, if the requested zone isn't in the cable's list.
    pub default: Option<Name>,
}

/// A ZIP packet in place. It borrows the input.
///
/// Inside AppleTalk, the chapter on ZIP.
#[derive(Debug, Drop)]
pub enum Packet<'a> {
    /// The networks asked for.
    Query(Networks<'a>),
    /// The number of networks in the reply, which is ignored, and the names.
    Reply(u8, Entries<'a>),
    /// Five bytes that this project sends as 0 and ignores when read, and the requested zone.
    GetNetInfo([u8; 5], Text32),
    /// The properties of the cable.
    NetInfoReply(NetInfo),
    /// The number of zones of the network, and names of some of them.
    ExtendedReply(u8, Entries<'a>),
}

/// The function with a number, which has one.
fn named(number: u8) -> Function
    ensures { result ≡ function_of number }
{
    match number {
        1 => Function::Query,
        2 => Function::Reply,
        5 => Function::GetNetInfo,
        6 => Function::NetInfoReply,
        _ => Function::ExtendedReply,
    }
}

/// The number of a function.
fn function_at(bytes: &[u8]) -> Result<(u8, &[u8]), Error>
    ensures { Gives (λ x. (x.0, x.1.now)) result
        (field_at packets (number one wrong_function) bytes.now) }
{
    let (number, rest) = byte_at(bytes)?;
    match number {
        1 | 2 | 5 | 6 | 8 => Ok((number, rest)),
        _ => Err(Error::BadField(Field::Function)),
    }
}

/// The requested zone.
fn asked_at(bytes: &[u8]) -> Result<(Text32, &[u8]), Error>
    ensures { Gives (λ x. (x.0, x.1.now)) result (reading_spec.read packets (text 0 any) bytes.now) }
{
    let (asked, rest) = text_at(bytes, 0)?;
    match Text32::new(asked) {
        Ok(text) => Ok((text, rest)),
        Err(_) => unreachable!(),
    }
}

/// The default zone, if the flags say that the packet has one.
#[tactic(auto, unfolding(crate::specs::Formats::default_zone))]
fn default_at(flags: u8, bytes: &[u8]) -> Result<(Option<Name>, &[u8]), Error>
    ensures { Gives (λ x. (x.0, x.1.now)) result
        (reading_spec.read packets (default_zone (flags / 128 == 1)) bytes.now) }
{
    if flags / 128 != 1 {
        return Ok((None, bytes));
    }
    match name_at(bytes) {
        Ok((name, rest)) => Ok((Some(name), rest)),
        Err(error) => Err(error),
    }
}

/// The body of a query: the networks asked for.
#[tactic(auto, unfolding(crate::specs::Formats::body))]
fn query_at(bytes: &[u8]) -> Result<(Packet<'_>, &[u8]), Error>
    ensures { Gives (λ x. (x.0, x.1.now)) result
        (reading_spec.read packets (body Function.Query) bytes.now) }
{
    let (count, networks) = byte_at(bytes)?;
    let (networks, rest) = items_at(NetworkFormat, count, networks)?;
    Ok((Packet::Query(networks), rest))
}

/// The body of a reply: names of any networks.
#[tactic(auto, unfolding(crate::specs::Formats::body))]
fn reply_at(bytes: &[u8]) -> Result<(Packet<'_>, &[u8]), Error>
    ensures { Gives (λ x. (x.0, x.1.now)) result
        (reading_spec.read packets (body Function.Reply) bytes.now) }
{
    let (count, entries) = byte_at(bytes)?;
    let entries = all_items(Nets::Any, entries)?;
    Ok((Packet::Reply(count, entries), &[]))
}

/// The body of a GetNetInfo request: five bytes, and the requested zone.
#[tactic(auto, unfolding(crate::specs::Formats::body))]
fn get_net_info_at(bytes: &[u8]) -> Result<(Packet<'_>, &[u8]), Error>
    ensures { Gives (λ x. (x.0, x.1.now)) result
        (reading_spec.read packets (body Function.GetNetInfo) bytes.now) }
{
    let (front, rest) = run_at(bytes, 5)?;
    let mut unused = [0; 5];
    unused.copy_from_slice(front);
    match asked_at(rest) {
        Ok((asked, rest)) => Ok((Packet::GetNetInfo(unused, asked), rest)),
        Err(error) => Err(error),
    }
}

/// The body of an extended reply: names of one network, at least one.
#[tactic(auto, unfolding(crate::specs::Formats::body))]
fn extended_at(bytes: &[u8]) -> Result<(Packet<'_>, &[u8]), Error>
    ensures { Gives (λ x. (x.0, x.1.now)) result
        (reading_spec.read packets (body Function.ExtendedReply) bytes.now) }
{
    let (total, entries) = byte_at(bytes)?;
    let entries = all_items(Nets::One, entries)?;
    if entries.is_empty() {
        return Err(Error::Truncated);
    }
    Ok((Packet::ExtendedReply(total, entries), &[]))
}

/// The body of a NetInfo reply.
#[tactic(auto, unfolding(crate::specs::Formats::body))]
fn net_info_at(bytes: &[u8]) -> Result<(Packet<'_>, &[u8]), Error>
    ensures { Gives (λ x. (x.0, x.1.now)) result
        (reading_spec.read packets (body Function.NetInfoReply) bytes.now) }
{
    let (flags, rest) = byte_at(bytes)?;
    let (start, rest) = u16_at(rest)?;
    let (end, rest) = u16_at(rest)?;
    let (asked, rest) = match asked_at(rest) {
        Ok(found) => found,
        Err(error) => return Err(error),
    };
    let (_, rest) = byte_only(rest, 6, Field::Lengths)?;
    let (group, rest) = hardware_at(rest)?;
    let (default, rest) = match default_at(flags, rest) {
        Ok(found) => found,
        Err(error) => return Err(error),
    };
    let info = NetInfo {
        flags,
        start,
        end,
        asked,
        group,
        default,
    };
    Ok((Packet::NetInfoReply(info), rest))
}

/// The packet at the front of the bytes, and the bytes after it.
#[tactic(auto, unfolding(crate::specs::Formats::packet))]
fn parts_of(bytes: &[u8]) -> Result<(Packet<'_>, &[u8]), Error>
    ensures { Gives (λ x. (x.0, x.1.now)) result (reading_spec.read packets spec.packet bytes.now) }
{
    if bytes.len() < 2 {
        return Err(Error::Truncated);
    }
    let (number, rest) = function_at(bytes)?;
    match named(number) {
        Function::Query => query_at(rest),
        Function::Reply => reply_at(rest),
        Function::GetNetInfo => get_net_info_at(rest),
        Function::NetInfoReply => net_info_at(rest),
        Function::ExtendedReply => extended_at(rest),
    }
}

impl<'a> Packet<'a> {
    /// The packet at the front of the bytes. Bytes after a query, a GetNetInfo request or its reply
    /// are ignored. Allocates nothing.
    ///
    /// Errors, from left to right: `Truncated` below 2 bytes, where the input ends within a part,
    /// and where an extended reply has no name; `BadField` of `Function`, of `NameLength` where a
    /// name hasn't 1 to 32 bytes, or the requested zone has more than 32, of `Lengths` where the
    /// hardware address isn't 6 bytes long, and of `Network` where an extended reply has names of
    /// two networks; `BadName` where a name isn't a valid zone name.
    pub fn read(bytes: &'a [u8]) -> Result<Packet<'a>, Error>
        ensures { Reads packets spec.packet (λ d. d) (λ p. p) bytes.now result }
    {
        match parts_of(bytes) {
            Ok((packet, _)) => Ok(packet),
            Err(error) => Err(error),
        }
    }

    /// The packet at the front of the bytes, if any. Allocates nothing.
    pub fn at(bytes: &'a [u8]) -> Option<Packet<'a>>
        ensures { result ≡ spec.zones_in bytes.now }
    {
        Packet::read(bytes).ok()
    }

    /// The requested zone, if the packet is a GetNetInfo request.
    pub fn asked(&self) -> Option<Text32>
        ensures { result ≡ zone_asked self.now }
    {
        match self {
            Packet::GetNetInfo(_, asked) => Some(*asked),
            _ => None,
        }
    }
}
