//! Entries of replies: a network and a zone name.

ghost use Rattle.at_base.specs.Grammar.{number, two};
ghost use Rattle.at_base.specs.Packets.{packets, text};
ghost use Rattle.at_base.specs.Reading as reading_spec;
ghost use Rattle.at_base.specs.Reading.{Gives, field_at};
ghost use Rattle.zip_zones.specs.Packets as spec;
ghost use Rattle.zip_zones.specs.Packets.{wrong_name, wrong_net};

use at_base::packet::{text_at, u16_at};
use at_base::{Error, Field, Name, is_zone_name};
use std::marker::Model;

/// A network, and the name of one of its zones.
///
/// Inside AppleTalk, the chapter on ZIP.
#[derive(Clone, Copy, Debug, PartialEq, Eq)]
pub struct Entry {
    /// The network, as it is in the packet.
    pub net: u16,
    /// The name of the zone.
    pub name: Name,
}

/// A network. Unless `low` is 0, it must be `low - 1`, the network of the entry before.
fn net_at(low: u32, bytes: &[u8]) -> Result<(u16, &[u8]), Error>
    ensures { Gives (λ x. (x.0, x.1.now)) result
        (field_at packets (number two (wrong_net low)) bytes.now) }
{
    let (net, rest) = u16_at(bytes)?;
    if low != 0 && u32::from(net) + 1 != low {
        return Err(Error::BadField(Field::Network));
    }
    Ok((net, rest))
}

/// A length-prefixed zone name.
#[tactic(auto, unfolding(at_base::specs::Packets::text))]
pub(crate) fn name_at(bytes: &[u8]) -> Result<(Name, &[u8]), Error>
    ensures { Gives (λ x. (x.0, x.1.now)) result (reading_spec.read packets (text 1 wrong_name) bytes.now) }
{
    let (name, rest) = text_at(bytes, 1)?;
    if !is_zone_name(name) {
        return Err(Error::BadName);
    }
    Ok((Name::of(name), rest))
}

/// An entry: the first one if `low` is 0, else one of the network `low - 1`.
#[tactic(auto, unfolding(crate::specs::Packets::entry))]
pub(crate) fn entry_at(low: u32, bytes: &[u8]) -> Result<(Entry, &[u8]), Error>
    ensures { Gives (λ x. (x.0, x.1.now)) result (reading_spec.read packets (spec.entry low) bytes.now) }
{
    let (net, rest) = net_at(low, bytes)?;
    match name_at(rest) {
        Ok((name, rest)) => Ok((Entry { net, name }, rest)),
        Err(error) => Err(error),
    }
}
