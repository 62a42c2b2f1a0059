//! What a survey knows of an internet.

ghost use Rattle.std.specs.Prelude.{◌≡◌, ◌≤◌, ◌+◌, fold, length, IfSome, ◌<◌};
ghost use Rattle.std.specs.List.{list_any};
ghost use Rattle.at_base.specs.Address.{same_address};
ghost use Rattle.at_base.specs.Range.{same_range};
ghost use Rattle.at_base.specs.Text.{same_bytes};
ghost use Rattle.survey.specs.Answers.{zones_of};
ghost use Rattle.survey.specs.Known as spec;

use crate::few::Few;
use crate::question::Wanted;
use crate::zone_names::ZoneNames;
use at_base::{Addr, Name, Range};
use rtmp::{Horizon, Tuples};
use zip_zones::{Entries, ZoneFunction};

/// An address of a router, and how many things it was asked for.
#[derive(Clone, Copy, Debug, PartialEq, Eq)]
pub struct Routered {
    pub at: Addr,
    pub asked: u16,
}

/// The range of a cable, and how often its routers were asked for their rows: any one, and each.
#[derive(Clone, Copy, Debug, PartialEq, Eq)]
pub struct Ranged {
    pub range: Range,
    pub asked: u8,
}

/// A zone, and whether names were looked for in it.
#[derive(Clone, Copy, Debug, PartialEq, Eq)]
pub struct Zoned {
    pub name: Name,
    pub asked: bool,
}

/// Whether one of the routers has this address.
fn has_router(routers: &[Routered], at: Addr) -> bool
    ensures { result ≡ list_any (λ r. same_address r.at at) routers.now }
{
    routers.iter().any(|router| router.at == at)
}

/// Whether one of the ranges is this one.
fn has_range(ranges: &[Ranged], range: Range) -> bool
    ensures { result ≡ list_any (λ r. same_range r.range range) ranges.now }
{
    ranges.iter().any(|ranged| ranged.range == range)
}

/// Whether the bytes are the same.
fn is_same(bytes: &[u8], others: &[u8]) -> bool
    ensures { result ≡ same_bytes bytes.now others.now }
{
    bytes == others
}

/// Whether one of the zones has this name.
fn has_zone(zones: &[Zoned], name: &Name) -> bool
    ensures { result ≡ list_any (λ z. same_bytes z.name name.now) zones.now }
{
    zones
        .iter()
        .any(|zone| is_same(zone.name.as_slice(), name.as_slice()))
}

/// Learns an address of a router.
pub(crate) fn add_router(routers: &mut Few<Routered>, at: Addr)
    ensures { routers.new ≡ spec.with_router at routers.old }
{
    if !has_router(routers.as_slice(), at) {
        routers.push(Routered { at, asked: 0 });
    }
}

/// Learns a range.
fn add_range(ranges: &mut Few<Ranged>, range: Range)
    ensures { ranges.new ≡ spec.with_range range ranges.old }
{
    if !has_range(ranges.as_slice(), range) {
        ranges.push(Ranged { range, asked: 0 });
    }
}

/// Learns the ranges of tuples of routing data.
pub(crate) fn add_ranges(ranges: &mut Few<Ranged>, tuples: Tuples<'_>)
    ensures { ranges.new ≡ spec.with_tuples tuples.entry ranges.old }
{
    for tuple in tuples {
        add_range(ranges, tuple.range);
    }
}

/// Learns a zone.
fn add_zone(zones: &mut Few<Zoned>, name: Name)
    ensures { zones.new ≡ spec.with_zone name zones.old }
{
    if !has_zone(zones.as_slice(), &name) {
        zones.push(Zoned { name, asked: false });
    }
}

/// Learns the zones in a list.
pub(crate) fn add_listed(zones: &mut Few<Zoned>, names: ZoneNames<'_>)
    ensures { zones.new ≡ spec.with_zones names.entry zones.old }
{
    for name in names {
        add_zone(zones, name);
    }
}

/// Learns the zones of a network in the entries of a reply.
pub(crate) fn add_entries(zones: &mut Few<Zoned>, entries: Entries<'_>, net: u16)
    ensures { zones.new ≡ spec.with_zones (zones_of net entries.entry) zones.old }
{
    for entry in entries {
        if entry.net == net {
            add_zone(zones, entry.name);
        }
    }
}

/// What a router is asked next, of which so many things were asked, if there is something.
pub(crate) fn wanted_of(ranges: &[Ranged], asked: u16) -> Option<Wanted>
    ensures { result ≡ spec.wanted_of ranges.now asked }
{
    match asked {
        0 => Some(Wanted::Routes(Horizon::Whole)),
        1 => Some(Wanted::Routes(Horizon::Split)),
        2 => Some(Wanted::Echo),
        3 => Some(Wanted::List(ZoneFunction::GetZoneList, 1)),
        4 => Some(Wanted::List(ZoneFunction::GetLocalZones, 1)),
        _ => match ranges.get(asked as usize - 5) {
            Some(ranged) => Some(Wanted::Zones(ranged.range.start())),
            None => None,
        },
    }
}

/// The first of these routers, which are numbered from `from`, that has to be asked something.
pub(crate) fn router_next(
    ranges: &[Ranged],
    from: usize,
    routers: &[Routered],
) -> Option<(usize, Routered)>
    requires { from + length routers.now ≤ 65535 }
    ensures { result ≡ spec.router_next ranges.now from routers.now }
{
    match routers {
        [] => None,
        [router, rest @ ..] => {
            if wanted_of(ranges, router.asked).is_some() {
                Some((from, *router))
            } else {
                router_next(ranges, from + 1, rest)
            }
        }
    }
}

/// The first of these ranges, which are numbered from `from`, whose routers have to be asked.
pub(crate) fn range_next(from: usize, ranges: &[Ranged]) -> Option<(usize, Ranged)>
    requires { from + length ranges.now ≤ 65535 }
    ensures { result ≡ spec.range_next from ranges.now }
{
    match ranges {
        [] => None,
        [ranged, rest @ ..] => {
            if ranged.asked < 2 {
                Some((from, *ranged))
            } else {
                range_next(from + 1, rest)
            }
        }
    }
}

/// The first of these zones, which are numbered from `from`, in which names have to be looked for.
pub(crate) fn zone_next(from: usize, zones: &[Zoned]) -> Option<(usize, Zoned)>
    requires { from + length zones.now ≤ 65535 }
    ensures { result ≡ spec.zone_next from zones.now }
{
    match zones {
        [] => None,
        [zone, rest @ ..] => {
            if zone.asked {
                zone_next(from + 1, rest)
            } else {
                Some((from, *zone))
            }
        }
    }
}

/// By which address a range's routers are asked: any of them, and then each of them.
pub(crate) fn beyond(ranged: &Ranged) -> Addr
    ensures { result ≡ spec.beyond ranged.now }
{
    Addr {
        net: ranged.range.start(),
        node: if ranged.asked == 0 { 0 } else { 255 },
    }
}
