//! The plan of a case's station.

use crate::texts::{Entity, entity_of, row};
use at_base::{Addr, Hw, Name, Range};
use case_words::{Answer, Stop, Words};
use nbp::Names;
use rtmp::Row;
use station::PortPlan;
use std::alloc::Global;
use zip_zones::ZoneTable;

/// A port of the planned station.
#[derive(Drop)]
pub(crate) struct PlannedPort {
    range: Range,
    hw: Hw,
    tries: Vec<Addr>,
    own: Option<Addr>,
}

/// The initial state of a station: ports, rows, zone lists, and for a node its zone, its router and
/// its names.
#[derive(Drop)]
pub(crate) struct Plan {
    pub(crate) ports: Vec<PlannedPort>,
    pub(crate) rows: Vec<Row>,
    zones: Option<ZoneTable>,
    pub(crate) zone: Option<Name>,
    pub(crate) router: Option<Addr>,
    names: Option<Names>,
}

/// The addresses up to the end of the line.
fn addrs(alloc: Global, mut words: Words<'_>) -> Result<Vec<Addr>, Stop> {
    let mut addrs = Vec::new(alloc);
    for _ in 0..u64::MAX {
        if words.is_empty() {
            break;
        }
        addrs.push(words.addr()?)?;
    }
    Ok(addrs)
}

/// Zone names, separated by semicolons, up to the end of the line.
fn names(alloc: Global, mut words: Words<'_>) -> Result<Vec<Name>, Stop> {
    let mut names = Vec::new(alloc);
    for _ in 0..u64::MAX {
        if words.is_empty() {
            break;
        }
        names.push(words.name(alloc)?)?;
        let _ = words.passes(";");
    }
    Ok(names)
}

/// A port, as `10-19 hardware 020000000001 own 10.1` or
/// `10-19 hardware 020000000001 tries 10.1 10.2`.
fn port(alloc: Global, mut words: Words<'_>) -> Result<PlannedPort, Stop> {
    let range = words.range()?;
    words.expect("hardware")?;
    let hw = words.hw()?;
    if words.passes("own") {
        return Ok(PlannedPort {
            range,
            hw,
            tries: Vec::new(alloc),
            own: Some(words.addr()?),
        });
    }
    words.expect("tries")?;
    Ok(PlannedPort {
        range,
        hw,
        tries: addrs(alloc, words)?,
        own: None,
    })
}

impl PlannedPort {
    /// The plan of the port.
    pub(crate) fn plan(&self) -> PortPlan<'_> {
        PortPlan {
            range: self.range,
            hw: self.hw,
            tries: self.tries.as_slice(),
            own: self.own,
        }
    }
}

/// The range with as many networks as this one that is `count` ranges after it.
fn range_after(range: &Range, count: u16) -> Result<Range, Stop> {
    let (start, end) = (range.start(), range.end());
    let step = end
        .saturating_sub(start)
        .saturating_add(1)
        .saturating_mul(count);
    Ok(Range::new(start.saturating_add(step), end.saturating_add(step))?)
}

/// The row with another range.
fn row_of(row: &Row, range: Range) -> Row {
    Row {
        range,
        distance: row.distance,
        port: row.port,
        next: row.next,
        state: row.state,
    }
}

/// Rows, as `10-19 distance 0 port 0 next 0.0 good`, or several, each with the range after the one
/// before it.
fn rows(alloc: Global, mut words: Words<'_>) -> Result<Vec<Row>, Stop> {
    let mut rows = Vec::new(alloc);
    let first = row(&mut words)?;
    let times: u16 = if words.passes("times") {
        words.number()?
    } else {
        1
    };
    for count in 0..times.max(1) {
        let range = range_after(&first.range, count)?;
        rows.push(row_of(&first, range))?;
    }
    Ok(rows)
}

/// A zone list, as `10-19 complete "Red"`, or names that are added to one, as `10-19 of 3 "Red"`.
fn put_list(alloc: Global, zones: &mut ZoneTable, mut words: Words<'_>) -> Answer {
    let range = words.range()?;
    if words.passes("complete") {
        let names = names(alloc, words)?;
        zones.set(range, names.as_slice())?;
        return Ok(());
    }
    let total: u8 = words.named("of")?;
    let names = names(alloc, words)?;
    for name in names.iter() {
        zones.add(range, total, name)?;
    }
    Ok(())
}

/// Registers a name for a socket, 1 to 254.
fn register(names: &mut Names, entity: &Entity, socket: u8) -> Result<u8, Stop> {
    if socket < 1 || 254 < socket {
        return Err(Stop::Unclear);
    }
    Ok(names.register(entity.object, entity.kind, socket)?)
}

impl Plan {
    /// The plan of a station before the commands that describe it.
    pub(crate) fn new(alloc: Global) -> Plan {
        Plan {
            ports: Vec::new(alloc),
            rows: Vec::new(alloc),
            zones: None,
            zone: None,
            router: None,
            names: None,
        }
    }

    /// A copy of the zone lists.
    pub(crate) fn zones(&self, alloc: Global) -> Result<ZoneTable, Stop> {
        match &self.zones {
            Some(zones) => Ok(zones.copy()?),
            None => Ok(ZoneTable::new(alloc)?),
        }
    }

    /// A copy of the names.
    pub(crate) fn names(&self, alloc: Global) -> Result<Names, Stop> {
        match &self.names {
            Some(names) => Ok(names.copy()?),
            None => Ok(Names::new(alloc)?),
        }
    }

    fn put_port(&mut self, alloc: Global, words: Words<'_>) -> Answer {
        let port = port(alloc, words)?;
        self.ports.push(port)?;
        Ok(())
    }

    fn put_rows(&mut self, alloc: Global, words: Words<'_>) -> Answer {
        let rows = rows(alloc, words)?;
        self.rows.extend_from_slice(rows.as_slice())?;
        Ok(())
    }

    fn put_zones(&mut self, alloc: Global, words: Words<'_>) -> Answer {
        let mut zones = self.zones(alloc)?;
        put_list(alloc, &mut zones, words)?;
        self.zones = Some(zones);
        Ok(())
    }

    /// Registers a name, and appends its enumerator.
    fn put_name(&mut self, alloc: Global, words: &mut Words<'_>, text: &mut String) -> Answer {
        let mut names = self.names(alloc)?;
        let entity = entity_of(alloc, words)?;
        let socket = words.named("socket")?;
        let enumerator = register(&mut names, &entity, socket)?;
        self.names = Some(names);
        writeln!(text, "{enumerator}")?;
        Ok(())
    }

    fn remove_name(&mut self, enumerator: u8) -> Answer {
        match &mut self.names {
            Some(names) => names.remove(enumerator)?,
            None => return Err(Stop::Unclear),
        }
        Ok(())
    }

    /// Carries out a command.
    pub(crate) fn act(&mut self, alloc: Global, mut words: Words<'_>, text: &mut String) -> Answer {
        match words.word() {
            "port" => self.put_port(alloc, words),
            "row" => self.put_rows(alloc, words),
            "list" => self.put_zones(alloc, words),
            "zone" => {
                self.zone = Some(words.name(alloc)?);
                Ok(())
            }
            "router" => {
                self.router = Some(words.addr()?);
                Ok(())
            }
            "name" => self.put_name(alloc, &mut words, text),
            "unname" => self.remove_name(words.number()?),
            _ => Err(Stop::Unclear),
        }
    }
}
