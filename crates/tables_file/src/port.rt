//! Ports of routers.

ghost use Rattle.tables_file.specs.Routers.{port_of};

use crate::field::place_at;
use crate::made_up::made_up;
use crate::mapping::mappings_at;
use at_base::Error;
use file_entries::entries::Reader;
use file_entries::fields::{address_at, hardware_or};
use file_entries::key::{only, table};
use file_entries::{Faults, Place};
use std::alloc::Global;
use table_image::{Port, Version};
use toml::Value;

/// Reads ports of the router with this number, in a file with so many cables and this mark.
#[derive(Clone, Copy)]
pub(crate) struct Ports {
    pub(crate) version: Version,
    pub(crate) cables: usize,
    pub(crate) mark: u16,
    pub(crate) router: usize,
}

#[tactic(auto, using(file_entries::proofs::Notes::noted_again))]
impl Reader for Ports {
    type Entry = Port;

    ghost meaning = { λ r k d. port_of r.version r.cables r.mark r.router k d };

    fn read_one(
        &self,
        alloc: Global,
        place: &Place,
        number: usize,
        value: &Value,
        faults: &mut Faults,
    ) -> Result<Option<Port>, Error> {
        let Some(table) = table(place, value, faults) else {
            return Ok(None);
        };
        let named = ["cable", "address", "hardware", "mapping"];
        let only = only(&named, place, table, faults);
        let cable = faults.take(place, "cable", place_at(table, "cable", self.cables));
        let address = faults.take(place, "address", address_at(table, "address"));
        let other = made_up(self.mark, 0, self.router, number);
        let hardware = faults.take(place, "hardware", hardware_or(table, "hardware", other));
        let mappings = mappings_at(alloc, self.version, place, table, faults)?;
        match (only, cable, address, hardware, mappings) {
            (true, Some(cable), Some(address), Some(hardware), Some(mappings)) => Ok(Some(Port {
                cable,
                address,
                hardware,
                mappings,
            })),
            _ => Ok(None),
        }
    }
}
