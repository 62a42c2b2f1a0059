//! The calls of a zone table.

use at_base::{Error, Name, Range};
use std::alloc::Global;
use zip_zones::ZoneTable;

/// The zones of a list.
const ZONES: u16 = 64;

/// The name of a zone, by its number.
fn name(number: u16) -> Result<Name, Error> {
    let digit = |place: u16| b'0' + (number / place % 10) as u8;
    Name::new(&[
        b'Z',
        b'o',
        b'n',
        b'e',
        digit(1000),
        digit(100),
        digit(10),
        digit(1),
    ])
}

/// The number of the zone of a list at a place: each zone is in two lists.
fn zone(list: u16, place: u16) -> u16 {
    (list / 2).saturating_mul(ZONES).saturating_add(place)
}

fn range(list: u16) -> Result<Range, Error> {
    let start = list.saturating_mul(10).saturating_add(1);
    Range::new(start, start.saturating_add(4))
}

/// A table with lists of 64 zones.
fn table(alloc: Global, lists: u16) -> Result<ZoneTable, Error> {
    let mut table = ZoneTable::new(alloc)?;
    for list in 0..lists {
        let mut names = Vec::with_capacity(alloc, ZONES as usize)?;
        for place in 0..ZONES {
            names.push(name(zone(list, place))?)?;
        }
        table.set(range(list)?, names.as_slice())?;
    }
    Ok(table)
}

/// Carries out a call, for one list after the other. Returns how many ranges it found.
pub(crate) fn run(alloc: Global, call: &str, lists: u16, times: u32) -> Result<u64, Error> {
    let mut table = table(alloc, lists)?;
    let mut found = 0u64;
    for time in 0..times {
        let list = (time.wrapping_mul(7919) % 60_000) as u16;
        let list = list.checked_rem(lists).unwrap_or(0);
        let zone = name(zone(list, (time % 64) as u16))?;
        let many = match call {
            "cables_of" => table.cables_of(&zone)?.len(),
            "lists" => usize::from(table.lists(list.saturating_mul(10).saturating_add(3), &zone)),
            "copy" => table.copy()?.len(),
            "add" => {
                table.add(range(list)?, 64, &zone)?;
                1
            }
            _ => 0,
        };
        found = found.saturating_add(many as u64);
    }
    Ok(found)
}
