//! Routers.

ghost use Rattle.std.specs.Prelude.{◌≡◌, false, not, option_copied, IfOk, IsOkUnless, is_some};
ghost use Rattle.std.specs.List.{list_all};
ghost use Rattle.toml.specs.View.{table_view};
ghost use Rattle.file_entries.specs.Entries.{at};
ghost use Rattle.file_entries.specs.Faults.{noted, spot};
ghost use Rattle.internet_file.specs.Stations as spec;
ghost use Rattle.internet_file.specs.Stations.{router_of};

use crate::cable::{Cable, is_unknown};
use crate::port::{Port, Ports};
use at_base::limits::MAX_PORTS;
use at_base::{Error, Listed};
use file_entries::entries::{Reader, all_tables};
use file_entries::key::{list_here, only, table, value_at};
use file_entries::{Faults, Place, Why};
use std::alloc::Global;
use toml::{Table, Value};

/// A router.
#[derive(Debug, Drop)]
pub struct Router {
    /// Its ports, 1 to 16, on cables that have no network in common.
    pub port: Listed<Port>,
}

/// The cable with this number, from 1.
fn cable_at(cables: &[Cable], number: u16) -> Option<&Cable>
    ensures { option_copied result ≡ spec.cable_at cables.now number }
{
    cables.get((number as usize).saturating_sub(1))
}

/// Whether the cables of the two ports have a network in common.
fn meet(cables: &[Cable], port: &Port, other: &Port) -> bool
    ensures { result ≡ spec.meet cables.now port.now other.now }
{
    match (cable_at(cables, port.cable), cable_at(cables, other.cable)) {
        (Some(a), Some(b)) => a.range.overlaps(&b.range),
        _ => false,
    }
}

/// Whether the port's cable has no network in common with the cables of the others.
fn is_apart(cables: &[Cable], port: &Port, others: &[Port]) -> bool
    ensures { result ≡ list_all (λ q. not (spec.meet cables.now port.now q)) others.now }
{
    others.iter().all(|other| !meet(cables, port, other))
}

/// Whether no two of the ports are on cables that have a network in common.
fn are_apart(cables: &[Cable], ports: &[Port]) -> bool
    ensures { result ≡ spec.are_apart cables.now ports.now }
{
    match ports {
        [] => true,
        [first, rest @ ..] => is_apart(cables, first, rest) && are_apart(cables, rest),
    }
}

/// Whether the networks of the port's cable are known.
fn is_known(cables: &[Cable], port: &Port) -> bool {
    match cable_at(cables, port.cable) {
        Some(cable) => !is_unknown(cable),
        None => false,
    }
}

/// The number, from 1, of the first of these ports whose cable is known to meet that of the port.
fn first_met(cables: &[Cable], port: &Port, others: &[Port]) -> Option<u32> {
    let mut number = 0u32;
    for other in others {
        number = number.saturating_add(1);
        if is_known(cables, other) && meet(cables, port, other) {
            return Some(number);
        }
    }
    None
}

/// Notes each of the ports, at this place, whose cable meets that of an earlier one, of which there
/// is one. That a cable meets one whose networks aren't known isn't a fault of its own.
fn note_meeting(cables: &[Cable], place: &Place, ports: &[Port], faults: &mut Faults)
    ensures { faults.new ≡ noted (spot place.now) false faults.old }
{
    for index in 0..ports.len() {
        let port = &ports[index];
        if is_known(cables, port)
            && let Some(earlier) = first_met(cables, port, &ports[..index])
        {
            let port = place.table(index).at("cable");
            faults.note(&port, Why::Overlaps { port: earlier });
        }
    }
    faults.note_first(place, Why::Overlaps { port: 1 });
}

/// The 1 to 16 ports at the key. Error: `Memory`.
fn ports_at(
    alloc: Global,
    place: &Place,
    table: &Table,
    key: &str,
    cables: &[Cable],
    faults: &mut Faults,
) -> Result<Option<Listed<Port>>, Error>
    ensures read { IfOk result (λ x. x ≡ at key.now (spec.ports cables.now) (table_view table.now)) }
    ensures told { IfOk result (λ x. faults.new ≡ noted (spot place.now) (is_some x) faults.old) }
    ensures refused { IsOkUnless result Error.Memory }
{
    let Some(value) = value_at(place, table, key, faults) else {
        return Ok(None);
    };
    let place = place.at(key);
    let Some(values) = list_here(&place, 1, MAX_PORTS, value, faults) else {
        return Ok(None);
    };
    let Some(ports) = all_tables(alloc, &Ports { cables }, &place, values, faults)? else {
        return Ok(None);
    };
    if are_apart(cables, ports.as_slice()) {
        return Ok(Some(ports));
    }
    note_meeting(cables, &place, ports.as_slice(), faults);
    Ok(None)
}

/// Reads routers on these cables.
#[derive(Clone, Copy)]
pub(crate) struct Routers<'a> {
    pub(crate) cables: &'a [Cable],
}

impl<'a> Reader for Routers<'a> {
    type Entry = Router;

    ghost meaning = { λ r _ d. router_of r.cables.now d };

    fn read_one(
        &self,
        alloc: Global,
        place: &Place,
        _number: usize,
        value: &Value,
        faults: &mut Faults,
    ) -> Result<Option<Router>, Error> {
        let Some(table) = table(place, value, faults) else {
            return Ok(None);
        };
        let only = only(&["port"], place, table, faults);
        match (
            only,
            ports_at(alloc, place, table, "port", self.cables, faults)?,
        ) {
            (true, Some(port)) => Ok(Some(Router { port })),
            _ => Ok(None),
        }
    }
}
