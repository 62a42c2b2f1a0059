//! Nodes.

ghost use Rattle.internet_file.specs.Stations.{node_of};

use crate::cable::Cable;
use crate::names::names_at;
use crate::port::port_at;
use at_base::{Addr, Error, Hw, Listed, Name};
use file_entries::entries::Reader;
use file_entries::fields::zone_at;
use file_entries::key::{only, table};
use file_entries::{Faults, Place};
use nbp::Names;
use std::alloc::Global;
use toml::Value;

/// A node.
#[derive(Debug, Drop)]
pub struct Node {
    /// The number of its cable, from 1.
    pub cable: u16,
    /// The hardware address.
    pub hardware: Hw,
    /// The addresses to try first, at most 16: nodes 1 to 253 of the cable's networks.
    pub tries: Listed<Addr>,
    /// Its zone.
    pub zone: Name,
    /// Its names, registered in order.
    pub name: Names,
}

/// Reads nodes on these cables.
#[derive(Clone, Copy)]
pub(crate) struct Nodes<'a> {
    pub(crate) cables: &'a [Cable],
}

impl<'a> Reader for Nodes<'a> {
    type Entry = Node;

    ghost meaning = { λ r _ d. node_of r.cables.now d };

    fn read_one(
        &self,
        alloc: Global,
        place: &Place,
        _number: usize,
        value: &Value,
        faults: &mut Faults,
    ) -> Result<Option<Node>, Error> {
        let Some(table) = table(place, value, faults) else {
            return Ok(None);
        };
        let named = ["cable", "hardware", "try", "zone", "name"];
        let only = only(&named, place, table, faults);
        let zone = faults.take(place, "zone", zone_at(table, "zone"));
        let port = port_at(alloc, place, table, self.cables, faults)?;
        let name = names_at(alloc, place, table, faults)?;
        match (only, zone, port, name) {
            (true, Some(zone), Some(port), Some(name)) => Ok(Some(Node {
                cable: port.cable,
                hardware: port.hardware,
                tries: port.tries,
                zone,
                name,
            })),
            _ => Ok(None),
        }
    }

    fn stand_in(&self, alloc: Global) -> Result<Option<Node>, Error> {
        let Ok(zone) = Name::new(b"-") else {
            return Ok(None);
        };
        Ok(Some(Node {
            cable: 1,
            hardware: Hw([0; 6]),
            tries: Listed::empty(alloc),
            zone,
            name: Names::new(alloc)?,
        }))
    }
}
