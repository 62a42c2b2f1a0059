//! What was known of a router after a tick.

ghost use Rattle.std.specs.Prelude.{IsOkUnless};

use crate::lines::{put_address, put_drops, put_elsewhere, put_gone, put_row, put_zones};
use aarp::Chooser;
use at_base::{Addr, Error, Range};
use cabled::CabledRouter;
use router::Router;
use rtmp::{RouteTable, Routes, Row};
use std::alloc::Global;
use zip_zones::ZoneTable;

/// What was known of a router after a tick: the settled addresses of its ports, which of them heard
/// that their cable has another range, its rows, the ranges whose zones it knows, and how many events
/// it had dropped.
#[derive(Drop)]
pub struct Known {
    addrs: Vec<Option<Addr>>,
    elsewhere: Vec<bool>,
    rows: Vec<Row>,
    complete: Vec<Range>,
    dropped: u64,
}

/// The settled addresses of ports.
fn addrs_of(alloc: Global, ports: &[Chooser]) -> Result<Vec<Option<Addr>>, Error> {
    let mut addrs = Vec::new(alloc);
    for port in ports {
        addrs.push(port.settled())?;
    }
    Ok(addrs)
}

/// Which ports heard that their cable has another range, and so don't start.
fn elsewhere_of(alloc: Global, ports: &[Chooser]) -> Result<Vec<bool>, Error> {
    let mut elsewhere = Vec::new(alloc);
    for port in ports {
        elsewhere.push(port.is_elsewhere())?;
    }
    Ok(elsewhere)
}

/// The rows of a table.
fn rows_of(alloc: Global, routes: &Routes) -> Result<Vec<Row>, Error> {
    let mut rows = Vec::new(alloc);
    for index in 0..routes.len() {
        if let Some(row) = routes.row(index) {
            rows.push(row)?;
        }
    }
    Ok(rows)
}

/// The ranges whose zones are all known.
fn complete_in(alloc: Global, zones: &ZoneTable) -> Result<Vec<Range>, Error> {
    let mut complete = Vec::new(alloc);
    for index in 0..zones.len() {
        if let Some(range) = zones.range_at(index) {
            if zones.complete(range.start()) {
                complete.push(range)?;
            }
        }
    }
    Ok(complete)
}

/// The row for a range, if there is one.
fn row_for(rows: &[Row], range: Range) -> Option<Row> {
    for row in rows {
        if row.range == range {
            return Some(*row);
        }
    }
    None
}

/// Whether a row says the same as before: its distance, its port and its next router, and whether it
/// is bad.
fn is_same(row: Row, before: Option<Row>) -> bool {
    match before {
        Some(before) => {
            row.distance == before.distance
                && row.port == before.port
                && row.next == before.next
                && row.state.is_usable() == before.state.is_usable()
        }
        None => false,
    }
}

impl Known {
    /// Nothing is known yet. Allocates nothing.
    pub fn new(alloc: Global) -> Known {
        Known {
            addrs: Vec::new(alloc),
            elsewhere: Vec::new(alloc),
            rows: Vec::new(alloc),
            complete: Vec::new(alloc),
            dropped: 0,
        }
    }

    /// What is known of a router.
    fn of(alloc: Global, router: &Router<Routes>, dropped: u64) -> Result<Known, Error> {
        Ok(Known {
            addrs: addrs_of(alloc, router.ports_now())?,
            elsewhere: elsewhere_of(alloc, router.ports_now())?,
            rows: rows_of(alloc, router.routes())?,
            complete: complete_in(alloc, router.zones())?,
            dropped,
        })
    }

    /// Appends a line for each address that was settled or taken away.
    fn tell_addrs(&self, now: &Known, tick: u64, lines: &mut Vec<u8>) -> Result<(), Error> {
        for port in 0..now.addrs.len() {
            let addr = now.addrs[port];
            let before = match self.addrs.get(port) {
                Some(before) => *before,
                None => None,
            };
            if addr != before {
                put_address(lines, tick, port, addr)?;
            }
        }
        Ok(())
    }

    /// Appends a line for each port that heard that its cable has another range.
    fn tell_elsewhere(&self, now: &Known, tick: u64, lines: &mut Vec<u8>) -> Result<(), Error> {
        for port in 0..now.elsewhere.len() {
            if now.elsewhere[port] && self.elsewhere.get(port) != Some(&true) {
                put_elsewhere(lines, tick, port)?;
            }
        }
        Ok(())
    }

    /// Appends a line for each route that was learnt, changed, is bad or is gone.
    fn tell_rows(&self, now: &Known, tick: u64, lines: &mut Vec<u8>) -> Result<(), Error> {
        for row in now.rows.as_slice() {
            if !is_same(*row, row_for(self.rows.as_slice(), row.range)) {
                put_row(lines, tick, row)?;
            }
        }
        for row in self.rows.as_slice() {
            if row_for(now.rows.as_slice(), row.range).is_none() {
                put_gone(lines, tick, row.range)?;
            }
        }
        Ok(())
    }

    /// Appends a line for each range whose zones are all known now.
    fn tell_zones(&self, now: &Known, tick: u64, lines: &mut Vec<u8>) -> Result<(), Error> {
        for range in now.complete.as_slice() {
            if !self.complete.as_slice().contains(range) {
                put_zones(lines, tick, *range)?;
            }
        }
        Ok(())
    }

    /// Appends a line for each thing that changed of a router since it was looked at before, and
    /// knows it from now on. Error: `Memory`.
    pub fn tell(
        &mut self,
        router: &CabledRouter<Routes>,
        tick: u64,
        dropped: u64,
        lines: &mut Vec<u8>,
    ) -> Result<(), Error> {
        let now = Known::of(*lines.allocator(), router.router().router(), dropped)?;
        self.tell_addrs(&now, tick, lines)?;
        self.tell_elsewhere(&now, tick, lines)?;
        self.tell_rows(&now, tick, lines)?;
        self.tell_zones(&now, tick, lines)?;
        if now.dropped != self.dropped {
            put_drops(lines, tick, now.dropped)?;
        }
        *self = now;
        Ok(())
    }
}
