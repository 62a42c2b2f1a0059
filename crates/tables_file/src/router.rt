//! Routers.

ghost use Rattle.std.specs.Prelude.{◌≡◌, ◌&&◌, Some, is_some};
ghost use Rattle.text.specs.Words.{given};
ghost use Rattle.tables_file.specs.Routers.{router_of};

use crate::port::Ports;
use crate::row::rows_at;
use crate::zone_list::lists_at;
use at_base::limits::MAX_PORTS;
use at_base::{Error, Listed as Found};
use file_entries::entries::{Reader, few_at};
use file_entries::key::{entries_at, only, table};
use file_entries::{Faults, Place};
use std::alloc::Global;
use table_image::{Cable, Listed, Port, Router, Row, Version, ZoneList};
use toml::Value;

/// The router with these parts.
fn router_with(
    ports: Option<Found<Port>>,
    rows: Option<Listed<Row>>,
    lists: Option<Listed<ZoneList>>,
) -> Option<Router>
    ensures value { result ≡ given ports (λ p. given rows (λ r. given lists (λ l.
        Some (record { ports = p; rows = r; lists = l })))) }
    ensures some { is_some result ≡ (is_some ports && is_some rows && is_some lists) }
{
    Some(Router {
        ports: Listed::from_vec(ports?.into_vec()),
        rows: rows?,
        lists: lists?,
    })
}

/// Reads routers on these cables, in a file with this mark.
#[derive(Clone, Copy)]
pub(crate) struct Routers<'a> {
    pub(crate) version: Version,
    pub(crate) cables: &'a [Cable],
    pub(crate) mark: u16,
}

#[tactic(auto, using(file_entries::proofs::Notes::noted_again, file_entries::proofs::Notes::noted_both))]
impl<'a> Reader for Routers<'a> {
    type Entry = Router;

    ghost meaning = { λ r k d. router_of r.version r.cables.now r.mark k d };

    fn read_one(
        &self,
        alloc: Global,
        place: &Place,
        number: usize,
        value: &Value,
        faults: &mut Faults,
    ) -> Result<Option<Router>, Error> {
        let Some(table) = table(place, value, faults) else {
            return Ok(None);
        };
        let only = only(&["port", "row", "list"], place, table, faults);
        let reader = Ports {
            version: self.version,
            cables: self.cables.len(),
            mark: self.mark,
            router: number,
        };
        let ports = few_at(alloc, MAX_PORTS, &reader, place, table, "port", faults)?;
        // Where a port is invalid, rows may still name it.
        let count = match &ports {
            Some(ports) => ports.len(),
            None => entries_at(table, "port").len(),
        };
        let rows = rows_at(alloc, count, place, table, faults)?;
        let lists = lists_at(alloc, self.version, self.cables, place, table, faults)?;
        if !only {
            return Ok(None);
        }
        Ok(router_with(ports, rows, lists))
    }
}
