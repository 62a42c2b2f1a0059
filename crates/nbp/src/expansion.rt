//! The expansion of a request for names in a zone: the lookups and forwarded requests that a router
//! sends.

ghost use Rattle.std.specs.Prelude.{◌≡◌, ◌≤◌, [], length, map, position, IfOk, IsOk, IsOkUnless};
ghost use Rattle.std.specs.List.{All};
ghost use Rattle.at_base.specs.Range.{same_range};
ghost use Rattle.nbp.specs.Expansion as spec;
ghost use Rattle.nbp.specs.Expansion.{IsAskIn, asks};
ghost use Rattle.at_base.specs.Limits.{max_lists};

use at_base::{Error, Name, Range, is_zone_name};
use std::alloc::Global;
use zip_zones::ZoneTable;

/// A packet that a router sends for one cable of the requested zone.
#[derive(Clone, Copy, Debug, PartialEq, Eq)]
pub enum Ask {
    /// A lookup, sent on the port with this index.
    Lookup(usize),
    /// A request forwarded to the routers of this network.
    Forward(u16),
}

/// The ranges of the cables that have the zone, in rising order; none if the text isn't a zone
/// name. Error: `Memory`, which no cables never need.
fn listing(alloc: Global, zone: &[u8], table: &ZoneTable) -> Result<Vec<Range>, Error>
    ensures ok { IfOk result (λ ranges. ranges.items ≡ spec.listing zone.now table.now) }
    ensures few { IfOk result (λ ranges. length ranges.items ≤ max_lists) }
    ensures none { spec.listing zone.now table.now ≡ [] → IsOk result }
    ensures err { IsOkUnless result Error.Memory }
{
    if !is_zone_name(zone) {
        return Ok(Vec::new(alloc));
    }
    table.cables_of(&Name::of(zone))
}

/// The index of the port with a range, if any.
fn port_of(range: Range, ports: &[Range]) -> Option<usize>
    ensures { result ≡ position (same_range range) ports.now }
{
    ports.iter().position(|port| range == *port)
}

/// The lookup or forwarded request for a range.
fn ask_of(range: Range, ports: &[Range]) -> Ask
    ensures value { result ≡ spec.ask ports.now range }
    ensures inside { IsAskIn (length ports.now) result }
{
    match port_of(range, ports) {
        Some(port) => Ask::Lookup(port),
        None => Ask::Forward(range.start()),
    }
}

/// The lookup or forwarded request for each of the ranges. Error: `Memory`, which no ranges never
/// need.
fn asks_of(alloc: Global, ranges: &[Range], ports: &[Range]) -> Result<Vec<Ask>, Error>
    ensures ok { IfOk result (λ made. made.items ≡ map (spec.ask ports.now) ranges.now) }
    ensures inside { IfOk result (λ made. All (IsAskIn (length ports.now)) made.items) }
    ensures none { ranges.now ≡ [] → IsOk result }
    ensures err { IsOkUnless result Error.Memory }
{
    if ranges.is_empty() {
        return Ok(Vec::new(alloc));
    }
    let mut asked = Vec::with_capacity(alloc, ranges.len())?;
    for range in ranges {
        asked.push(ask_of(*range, ports))?;
    }
    Ok(asked)
}

/// The lookups and forwarded requests of a router whose ports have these ranges, for a request for
/// names in a zone. They are for each range whose list has the zone, ignoring case, by rising
/// range; the list needn't be complete. If a port has exactly the range, it is a lookup on that
/// port, else a request forwarded to the range's first network. `*` and texts that aren't zone
/// names give none.
///
/// Inside AppleTalk, the chapter on NBP. Error: `Memory`, which a request for a zone of no cable
/// never needs.
pub fn expand(
    alloc: Global,
    zone: &[u8],
    table: &ZoneTable,
    ports: &[Range],
) -> Result<Vec<Ask>, Error>
    ensures ok { IfOk result (λ made. made.items ≡ asks ports.now zone.now table.now) }
    // At most one for each list of the table.
    ensures few { IfOk result (λ made. length made.items ≤ max_lists) }
    ensures inside { IfOk result (λ made. All (IsAskIn (length ports.now)) made.items) }
    // Where the zone has no cable, no memory is needed.
    ensures none { asks ports.now zone.now table.now ≡ [] → IsOk result }
    ensures refused { IsOkUnless result Error.Memory }
{
    let ranges = listing(alloc, zone, table)?;
    asks_of(alloc, ranges.as_slice(), ports)
}
