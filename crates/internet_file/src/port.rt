//! Ports: routers and nodes on cables.

ghost use Rattle.std.specs.Prelude.{◌≡◌, ◌≤◌, Some, IfOk, IsOkUnless, is_some, length, option_map};
ghost use Rattle.std.specs.Result.{result_ok};
ghost use Rattle.toml.specs.View.{table_view, view};
ghost use Rattle.text.specs.Words.{given};
ghost use Rattle.file_entries.specs.Entries.{all, at};
ghost use Rattle.file_entries.specs.Faults.{noted, spot};
ghost use Rattle.file_entries.specs.Values.{list_within};
ghost use Rattle.internet_file.specs.Stations as spec;
ghost use Rattle.internet_file.specs.Stations.{cable_at, port_in, port_of, try_of};

use crate::cable::{Cable, any_range};
use at_base::{Addr, Error, Hw, Listed, Range};
use file_entries::entries::{Reader, all_values};
use file_entries::fields::{hardware_at, one_at};
use file_entries::key::{list_here, only, table, value_at};
use file_entries::value::any_address;
use file_entries::{Faults, Place, Why};
use std::alloc::Global;
use toml::{Table, Value};

/// The greatest number of addresses that a station tries first.
const MAX_TRIES: usize = 16;

/// A port of a router, or that of a node.
#[derive(Debug, Drop)]
pub struct Port {
    /// The number of the cable, from 1.
    pub cable: u16,
    /// The hardware address.
    pub hardware: Hw,
    /// The addresses to try first, at most 16: nodes 1 to 253 of the cable's networks.
    pub tries: Listed<Addr>,
}

/// An address that a station may try on a cable with this range: node 1 to 253 of one of its
/// networks.
fn try_address(range: &Range, value: &Value) -> Result<Addr, Why>
    ensures { result_ok result ≡ spec.try_of range.now (view value.now) }
{
    let address = any_address(value)?;
    if range.holds(address.net) && 1 <= address.node && address.node <= 253 {
        Ok(address)
    } else {
        Err(Why::Untried)
    }
}

/// Reads the addresses to try on a cable with this range.
#[derive(Clone, Copy)]
struct Tries {
    range: Range,
}

impl Reader for Tries {
    type Entry = Addr;

    ghost meaning = { λ r _ d. try_of r.range d };

    fn read_one(
        &self,
        _alloc: Global,
        place: &Place,
        _number: usize,
        value: &Value,
        faults: &mut Faults,
    ) -> Result<Option<Addr>, Error> {
        Ok(faults.take_here(place, try_address(&self.range, value)))
    }
}

/// The addresses at the key, to try on a cable with this range. Error: `Memory`.
fn tries_at(
    alloc: Global,
    place: &Place,
    table: &Table,
    key: &str,
    range: &Range,
    faults: &mut Faults,
) -> Result<Option<Listed<Addr>>, Error>
    ensures read { IfOk result (λ x. x ≡ at key.now
        (λ d. given (list_within 0 16 d) (all (try_of range.now))) (table_view table.now)) }
    ensures told { IfOk result (λ x. faults.new ≡ noted (spot place.now) (is_some x) faults.old) }
    ensures refused { IsOkUnless result Error.Memory }
{
    let Some(value) = value_at(place, table, key, faults) else {
        return Ok(None);
    };
    let place = place.at(key);
    match list_here(&place, 0, MAX_TRIES, value, faults) {
        Some(values) => all_values(alloc, &Tries { range: *range }, &place, values, faults),
        None => Ok(None),
    }
}

/// What a station has on its cable.
#[derive(Drop)]
struct Seat {
    hardware: Hw,
    tries: Listed<Addr>,
}

/// The hardware address in a table and the addresses to try, on a cable with this range. Error:
/// `Memory`.
fn seat_at(
    alloc: Global,
    place: &Place,
    table: &Table,
    range: &Range,
    faults: &mut Faults,
) -> Result<Option<Seat>, Error>
    ensures read { IfOk result (λ x. x ≡ spec.seat_in range.now (table_view table.now)) }
    ensures told { IfOk result (λ x. faults.new ≡ noted (spot place.now) (is_some x) faults.old) }
    ensures refused { IsOkUnless result Error.Memory }
{
    let hardware = faults.take(place, "hardware", hardware_at(table, "hardware"));
    let tries = tries_at(alloc, place, table, "try", range, faults)?;
    match (hardware, tries) {
        (Some(hardware), Some(tries)) => Ok(Some(Seat { hardware, tries })),
        _ => Ok(None),
    }
}

/// The range of the cable with this number, from 1.
fn range_of(cables: &[Cable], number: u16) -> Range
    requires low { 1 ≤ number }
    requires high { number ≤ length cables.now }
    ensures { option_map (λ c. c.range) (cable_at cables.now number) ≡ Some result }
{
    cables[number as usize - 1].range
}

/// The port in a table with its cable, its hardware address and the addresses to try. Error:
/// `Memory`.
pub(crate) fn port_at(
    alloc: Global,
    place: &Place,
    table: &Table,
    cables: &[Cable],
    faults: &mut Faults,
) -> Result<Option<Port>, Error>
    ensures read { IfOk result (λ x. x ≡ port_in cables.now (table_view table.now)) }
    ensures told { IfOk result (λ x. faults.new ≡ noted (spot place.now) (is_some x) faults.old) }
    ensures refused { IsOkUnless result Error.Memory }
{
    match one_at(table, "cable", cables) {
        Ok(cable) => {
            let range = range_of(cables, cable);
            match seat_at(alloc, place, table, &range, faults)? {
                Some(seat) => Ok(Some(Port {
                    cable,
                    hardware: seat.hardware,
                    tries: seat.tries,
                })),
                None => Ok(None),
            }
        }
        Err(why) => {
            faults.note(&place.at("cable"), why);
            // The other keys are read for further faults; any network may be the cable's.
            let _seat = seat_at(alloc, place, table, &any_range(), faults)?;
            Ok(None)
        }
    }
}

/// Reads ports on these cables.
#[derive(Clone, Copy)]
pub(crate) struct Ports<'a> {
    pub(crate) cables: &'a [Cable],
}

impl<'a> Reader for Ports<'a> {
    type Entry = Port;

    ghost meaning = { λ r _ d. port_of r.cables.now d };

    fn read_one(
        &self,
        alloc: Global,
        place: &Place,
        _number: usize,
        value: &Value,
        faults: &mut Faults,
    ) -> Result<Option<Port>, Error> {
        let Some(table) = table(place, value, faults) else {
            return Ok(None);
        };
        let only = only(&["cable", "hardware", "try"], place, table, faults);
        let port = port_at(alloc, place, table, self.cables, faults)?;
        if only { Ok(port) } else { Ok(None) }
    }
}
