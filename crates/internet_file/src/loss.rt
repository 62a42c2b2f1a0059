//! Frames that are lost.

ghost use Rattle.internet_file.specs.Actions.{loss_of};

use crate::cable::Cable;
use at_base::Error;
use file_entries::entries::Reader;
use file_entries::fields::{number_at, one_at};
use file_entries::key::{only, table};
use file_entries::{Faults, Place};
use std::alloc::Global;
use toml::Value;

/// Every frame that is put on the cable in these ticks is lost for all stations.
#[derive(Clone, Copy, Debug, PartialEq, Eq)]
pub struct Loss {
    /// The number of the cable, from 1.
    pub cable: u16,
    /// The first tick, from 1.
    pub first: u32,
    /// The last tick, not before the first.
    pub last: u32,
}

/// Reads losses of these cables, in a file with this many ticks.
#[derive(Clone, Copy)]
pub(crate) struct Losses<'a> {
    pub(crate) ticks: u32,
    pub(crate) cables: &'a [Cable],
}

impl<'a> Reader for Losses<'a> {
    type Entry = Loss;

    ghost meaning = { λ r _ d. loss_of r.ticks r.cables.now d };

    fn read_one(
        &self,
        _alloc: Global,
        place: &Place,
        _number: usize,
        value: &Value,
        faults: &mut Faults,
    ) -> Result<Option<Loss>, Error> {
        let Some(table) = table(place, value, faults) else {
            return Ok(None);
        };
        let only = only(&["cable", "first", "last"], place, table, faults);
        let cable = faults.take(place, "cable", one_at(table, "cable", self.cables));
        let first = faults.take(place, "first", number_at(table, "first", 1, self.ticks));
        // Where the first tick is invalid, the last may be any.
        let low = first.unwrap_or(1);
        let last = faults.take(place, "last", number_at(table, "last", low, self.ticks));
        match (only, cable, first, last) {
            (true, Some(cable), Some(first), Some(last)) => Ok(Some(Loss { cable, first, last })),
            _ => Ok(None),
        }
    }
}
