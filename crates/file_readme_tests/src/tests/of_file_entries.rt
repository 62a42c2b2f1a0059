//! The example of the README of `file_entries`.

use at_base::{Addr, Error, Hw, Part};
use file_entries::fields::{address_at, hardware_or};
use file_entries::key::{entries_at, only, table};
use file_entries::{Faults, Place};
use std::alloc::Global;
use toml::{Table, Value};

/// The address and the hardware address of an entry, which has no other keys.
fn seat_of(place: &Place, value: &Value, faults: &mut Faults) -> Option<(Addr, Hw)> {
    let table = table(place, value, faults)?;
    let only = only(&["address", "hardware"], place, table, faults);
    let address = faults.take(place, "address", address_at(table, "address"));
    let hardware = hardware_or(table, "hardware", Hw([0; 6]));
    let hardware = faults.take(place, "hardware", hardware);
    if only {
        Some((address?, hardware?))
    } else {
        None
    }
}

/// How many entries of a document's list `seat` are valid.
fn seats(document: &Table, faults: &mut Faults) -> usize {
    let mut count = 0usize;
    let seats = Place::of(Part::Node, 0).at("seat");
    for (index, value) in entries_at(document, "seat").iter().enumerate() {
        if seat_of(&seats.table(index), value, faults).is_some() {
            count = count.saturating_add(1);
        }
    }
    count
}

/// How many valid entries a text has, and how many faults; `None` if it is no TOML.
fn seats_of(alloc: Global, text: &[u8]) -> Result<Option<(usize, usize)>, Error> {
    let mut faults = Faults::new(alloc);
    match toml::table_from_slice(alloc, text) {
        Ok(document) => {
            let valid = seats(&document, &mut faults);
            let first = if faults.first().is_some() { 1 } else { 0 };
            let others = faults.others().len().saturating_add(faults.untold());
            Ok(Some((valid, others.saturating_add(first))))
        }
        Err(fault) => {
            if fault.is_memory() {
                Err(Error::Memory)
            } else {
                Ok(None)
            }
        }
    }
}

/// Texts, and how many valid entries and faults each has.
const TEXTS: [(&[u8], Option<(usize, usize)>); 5] = [
    (
        br#"seat = [{address = "10.7"}, {address = "10.256"}, {address = "10.8", zone = "Red"}]"#,
        Some((1, 2)),
    ),
    (
        br#"seat = [{address = "10.7", hardware = "020000000005"}, {address = "10.7", hardware = ""}, 1]"#,
        Some((1, 2)),
    ),
    (br#"seats = [{address = "10.7"}]"#, Some((0, 0))),
    (b"seat = 1", Some((0, 0))),
    (b"seat", None),
];

/// Whether the entries and faults of the texts are counted.
pub(super) fn seats_are_counted(alloc: Global) -> Result<bool, Error> {
    for (text, want) in TEXTS {
        if seats_of(alloc, text)? != want {
            return Ok(false);
        }
    }
    Ok(true)
}
