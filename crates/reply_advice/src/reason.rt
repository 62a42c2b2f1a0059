//! Why a question got no answer.

use crate::answers::is_several;
use crate::nearest::{Nearest, nearest_zone};
use crate::question::{Question, Sought, Wanted};
use crate::shown::write_zone;
use crate::stations::{Found, find_name, has_network, has_node, has_port, has_zone, is_own};
use at_base::{Addr, Name, Text32, is_entity};
use std::io;
use std::io::Write;
use table_image::Image;

/// How a transcript ends.
#[derive(Clone, Copy, Debug, PartialEq, Eq)]
pub(crate) enum Ending {
    /// Nothing is under way.
    Still,
    /// Frames are pending.
    Pending,
    /// With the last tick, whatever is under way.
    LastTick,
    /// It was read only in part, since memory ran out.
    Unread,
}

/// Why a question got no answer.
#[derive(Drop)]
enum Reason {
    /// No cable has the zone that was asked for.
    NoZone(Text32, Option<Nearest>),
    /// The name is on this node, counted from 0, in another zone.
    OtherZone(usize, Name),
    /// No node has the name.
    NoName,
    /// No cable has the network.
    NoNetwork(u16),
    /// No station has the address.
    Nobody(Addr),
    /// The station that was asked for zones is no router.
    NoRouter(Addr),
    /// The tables don't tell.
    Unknown,
}

/// Why nobody told a node, counted from 0, who has a name.
fn why_no_names(image: &Image, asker: usize, sought: &Sought) -> Reason {
    let zone = sought.zone.as_slice();
    if !is_own(zone) && !has_zone(image, zone) {
        return Reason::NoZone(sought.zone, nearest_zone(image, zone));
    }
    match find_name(image, asker, sought) {
        Found::Asked => Reason::Unknown,
        Found::Elsewhere(node, other) => Reason::OtherZone(node, other),
        Found::Nowhere => Reason::NoName,
    }
}

/// What to call the name that is wanted: a pattern may match several.
fn called(wanted: &Wanted) -> &'static str {
    match wanted {
        Wanted::Names(sought)
            if !is_entity(sought.object.as_slice()) || !is_entity(sought.kind.as_slice()) => {
            "such a name"
        }
        _ => "that name",
    }
}

/// Why no station answers for this target.
fn why_no_station(image: &Image, target: Addr) -> Reason {
    if target.net == 0 {
        Reason::Unknown
    } else if !has_network(image, target.net) {
        Reason::NoNetwork(target.net)
    } else if is_several(target) || has_port(image, target) || has_node(image, target) {
        Reason::Unknown
    } else {
        Reason::Nobody(target)
    }
}

/// Why no router answers for this target.
fn why_no_zones(image: &Image, target: Addr) -> Reason {
    // On network 0 it isn't known which station is meant, and a node that has no address yet has 0.0.
    let is_plain = target.net != 0 && !is_several(target);
    match why_no_station(image, target) {
        Reason::Unknown if is_plain && !has_port(image, target) => Reason::NoRouter(target),
        reason => reason,
    }
}

/// Writes the zone that there is in place of the one that was asked for.
fn write_nearest<W: Write>(writer: &mut W, near: &Nearest) -> io::Result<()> {
    writer.write_all(b"; there is ")?;
    match near {
        Nearest::Unspaced(zone) => {
            write_zone(writer, zone.as_slice())?;
            writer.write_all(b", without the space at the end")
        }
        Nearest::Spaced(zone) => {
            write_zone(writer, zone.as_slice())?;
            writer.write_all(b", with a space at the end")
        }
        Nearest::Alike(zone) => write_zone(writer, zone.as_slice()),
    }
}

/// Writes that no cable has a zone.
fn write_no_zone<W: Write>(
    writer: &mut W,
    zone: &Text32,
    near: &Option<Nearest>,
) -> io::Result<()> {
    writer.write_all(b"no cable has the zone ")?;
    write_zone(writer, zone.as_slice())?;
    match near {
        Some(near) => write_nearest(writer, near),
        None => Ok(()),
    }
}

/// Writes that a name is in another zone.
fn write_other_zone<W: Write>(
    writer: &mut W,
    name: &str,
    node: usize,
    zone: &Name,
) -> io::Result<()> {
    let number = node.saturating_add(1);
    write!(writer, "node {number} has {name}, but in the zone ")?;
    write_zone(writer, zone.as_slice())
}

/// Writes what is known where the tables don't tell.
fn write_ending<W: Write>(writer: &mut W, ending: Ending) -> io::Result<()> {
    match ending {
        Ending::Still => write!(writer, "no reply came"),
        Ending::Pending => write!(writer, "frames are still pending"),
        Ending::LastTick => write!(writer, "no answer came before the last tick"),
        Ending::Unread => write!(writer, "memory ran out before one was found"),
    }
}

/// Writes why a question got no answer.
pub(crate) fn write_reason<W: Write>(
    writer: &mut W,
    image: &Image,
    ending: Ending,
    question: &Question,
) -> io::Result<()> {
    let reason = match &question.wanted {
        Wanted::Names(sought) => why_no_names(image, question.node, sought),
        Wanted::Echo(target) => why_no_station(image, *target),
        Wanted::Zones(target, _) => why_no_zones(image, *target),
    };
    let name = called(&question.wanted);
    match &reason {
        Reason::NoZone(zone, near) => write_no_zone(writer, zone, near),
        Reason::OtherZone(node, zone) => write_other_zone(writer, name, *node, zone),
        Reason::NoName => write!(writer, "nobody has {name}"),
        Reason::NoNetwork(net) => write!(writer, "no cable has the network {net}"),
        Reason::Nobody(address) => write!(writer, "nobody has the address {address}"),
        Reason::NoRouter(address) => write!(writer, "{address} is no router"),
        Reason::Unknown => write_ending(writer, ending),
    }
}
