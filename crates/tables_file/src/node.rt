//! Nodes.

ghost use Rattle.std.specs.Prelude.{◌≡◌, ◌&&◌, None, Some, is_some};
ghost use Rattle.text.specs.Words.{given};
ghost use Rattle.std.specs.Result.{result_ok};
ghost use Rattle.file_entries.specs.Faults.{noted, spot};
ghost use Rattle.file_entries.specs.Entries.{at_or};
ghost use Rattle.toml.specs.View.{table_view};
ghost use Rattle.tables_file.specs.Nodes.{node_of, own_router, placed};

use crate::field::{place_at, zone_at};
use crate::made_up::made_up;
use crate::mapping::mappings_at;
use crate::name::names_at;
use at_base::{Addr, Error, Hw, Name};
use file_entries::entries::Reader;
use file_entries::fields::{address_at, hardware_or};
use file_entries::key::{get, only, table};
use file_entries::value::any_address;
use file_entries::{Faults, Place, Why};
use std::alloc::Global;
use table_image::{Listed, Mapping, Node, NodeName, Version};
use toml::{Table, Value};

/// Where a node is: its cable, its address and its hardware address, and the router that it sends
/// through.
#[derive(Clone, Copy, Debug)]
pub(crate) struct Seat {
    pub(crate) cable: u8,
    pub(crate) address: Addr,
    pub(crate) hardware: Hw,
    pub(crate) router: Option<Addr>,
}

/// The address of a node's router at the key, none where the table doesn't have the key.
fn router_at(table: &Table, key: &str) -> Result<Option<Addr>, Why>
    ensures { result_ok result ≡ at_or None key.now own_router (table_view table.now) }
{
    match get(table, key) {
        Some(value) => Ok(Some(any_address(value)?)),
        None => Ok(None),
    }
}

/// Where a node is, on one of so many cables, with this hardware address if it has no other.
fn place_in(
    cables: usize,
    other: Hw,
    place: &Place,
    table: &Table,
    faults: &mut Faults,
) -> Option<Seat>
    ensures value { result ≡ placed cables other (table_view table.now) }
    ensures told { faults.new ≡ noted (spot place.now) (is_some result) faults.old }
{
    let cable = faults.take(place, "cable", place_at(table, "cable", cables));
    let address = faults.take(place, "address", address_at(table, "address"));
    let hardware = faults.take(place, "hardware", hardware_or(table, "hardware", other));
    let router = faults.take(place, "router", router_at(table, "router"));
    match (cable, address, hardware, router) {
        (Some(cable), Some(address), Some(hardware), Some(router)) => Some(Seat {
            cable,
            address,
            hardware,
            router,
        }),
        _ => None,
    }
}

/// The node with these parts.
fn node_with(
    seat: Option<Seat>,
    zone: Option<Name>,
    names: Option<Listed<NodeName>>,
    mappings: Option<Listed<Mapping>>,
) -> Option<Node>
    ensures value { result ≡ given seat (λ p. given zone (λ z. given names (λ n.
        given mappings (λ m. Some (record {
          cable = p.cable;
          address = p.address;
          hardware = p.hardware;
          zone = z;
          router = p.router;
          names = n;
          mappings = m;
        }))))) }
    ensures some { is_some result
        ≡ (is_some seat && is_some zone && is_some names && is_some mappings) }
{
    let seat = seat?;
    Some(Node {
        cable: seat.cable,
        address: seat.address,
        hardware: seat.hardware,
        zone: zone?,
        router: seat.router,
        names: names?,
        mappings: mappings?,
    })
}

/// Reads nodes on one of so many cables, in a file with this mark.
#[derive(Clone, Copy)]
pub(crate) struct Nodes {
    pub(crate) version: Version,
    pub(crate) cables: usize,
    pub(crate) mark: u16,
}

#[tactic(auto, using(file_entries::proofs::Notes::noted_again, file_entries::proofs::Notes::noted_both))]
impl Reader for Nodes {
    type Entry = Node;

    ghost meaning = { λ r k d. node_of r.version r.cables r.mark k d };

    fn read_one(
        &self,
        alloc: Global,
        place: &Place,
        number: usize,
        value: &Value,
        faults: &mut Faults,
    ) -> Result<Option<Node>, Error> {
        let Some(table) = table(place, value, faults) else {
            return Ok(None);
        };
        let named = [
            "cable", "address", "hardware", "zone", "router", "name", "mapping",
        ];
        let only = only(&named, place, table, faults);
        let other = made_up(self.mark, 1, number, 0);
        let seat = place_in(self.cables, other, place, table, faults);
        let zone = faults.take(place, "zone", zone_at(alloc, table, "zone")?);
        let names = names_at(alloc, place, table, faults)?;
        let mappings = mappings_at(alloc, self.version, place, table, faults)?;
        if !only {
            return Ok(None);
        }
        Ok(node_with(seat, zone, names, mappings))
    }
}
