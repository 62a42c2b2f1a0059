//! The lines and the entries of a tables file.

ghost use Rattle.std.specs.Prelude.{◌≡◌, ◌+◌, ◌++◌, OnOk, codes};
ghost use Rattle.std.specs.Fmt.{decimal};
ghost use Rattle.std.specs.List.{flat_map};
ghost use Rattle.tables_text.specs.Tables.{address_value, bytes_text, cable_entry, hardware_value};
ghost use Rattle.tables_text.specs.Tables.{list_line, range_value, yes_or_no, mapping_line, mapping_value};
ghost use Rattle.tables_text.specs.Tables.{name_line, port_line, port_mappings, router_key};
ghost use Rattle.tables_text.specs.Tables.{name_numbers, name_words, node_head, node_place, node_zone};
ghost use Rattle.tables_text.specs.Tables.{row_line, row_reach, row_way, version_line};

use crate::values::{
    put_addr, put_bool, put_entity, put_hardware, put_letters, put_mapping, put_names, put_range,
    put_state, put_zone,
};
use at_base::Addr;
use std::alloc::AllocError;
use table_image::{Cable, Mapping, Node, NodeName, Port, Row, Version, ZoneList};
use text::put_decimal;

/// Appends the number of what has an index.
fn put_count(text: &mut Vec<u8>, index: u8) -> Result<(), AllocError>
    ensures { OnOk result (text.new.items ≡ text.old.items ++ decimal (index + 1)) }
{
    put_decimal(text, u32::from(index) + 1)
}

/// Appends the line of the version.
pub(crate) fn put_version(text: &mut Vec<u8>, version: Version) -> Result<(), AllocError>
    ensures { OnOk result (text.new.items ≡ text.old.items ++ version_line version) }
{
    match version {
        Version::V1 => text.extend_from_slice(b"version = 1\n"),
        Version::V2 => text.extend_from_slice(b"version = 2\n"),
    }
}

/// Appends the entry of a cable.
pub(crate) fn put_cable(text: &mut Vec<u8>, cable: &Cable) -> Result<(), AllocError>
    ensures { OnOk result (text.new.items ≡ text.old.items ++ cable_entry cable.now) }
{
    text.extend_from_slice(b"\n[[cable]]\nrange = ")?;
    put_range(text, cable.start, cable.end)?;
    text.extend_from_slice(b"\nzones = ")?;
    put_names(text, cable.zones.as_slice())?;
    text.extend_from_slice(b"\n")
}

/// Appends further mappings of a port.
fn put_more_mappings(text: &mut Vec<u8>, mappings: &[Mapping]) -> Result<(), AllocError>
    ensures { OnOk result (text.new.items
        ≡ text.old.items ++ flat_map (λ n. codes ", " ++ mapping_value n) mappings.now) }
{
    match mappings {
        [] => Ok(()),
        [first, rest @ ..] => {
            text.extend_from_slice(b", ")?;
            put_mapping(text, first)?;
            put_more_mappings(text, rest)
        }
    }
}

/// Appends the mappings of a port, as one more key, if it has any.
fn put_port_mappings(text: &mut Vec<u8>, mappings: &[Mapping]) -> Result<(), AllocError>
    ensures { OnOk result (text.new.items ≡ text.old.items ++ port_mappings mappings.now) }
{
    match mappings {
        [] => Ok(()),
        [first, rest @ ..] => {
            text.extend_from_slice(b", mapping = [")?;
            put_mapping(text, first)?;
            put_more_mappings(text, rest)?;
            text.extend_from_slice(b"]")
        }
    }
}

/// Appends where a port is, and its address.
fn put_place(text: &mut Vec<u8>, cable: u8, address: Addr) -> Result<(), AllocError>
    ensures { OnOk result (text.new.items ≡ text.old.items ++ (codes "    {cable = " ++ decimal (cable + 1)
        ++ codes ", address = " ++ address_value address)) }
{
    text.extend_from_slice(b"    {cable = ")?;
    put_decimal(text, u32::from(cable) + 1)?;
    text.extend_from_slice(b", address = ")?;
    put_addr(text, address)
}

/// Appends the line of a port.
pub(crate) fn put_port(text: &mut Vec<u8>, port: &Port) -> Result<(), AllocError>
    ensures { OnOk result (text.new.items ≡ text.old.items ++ port_line port.now) }
{
    put_place(text, port.cable, port.address)?;
    text.extend_from_slice(b", hardware = ")?;
    put_hardware(text, &port.hardware)?;
    put_port_mappings(text, port.mappings.as_slice())?;
    text.extend_from_slice(b"},\n")
}

/// Appends where a row leads to.
fn put_way(text: &mut Vec<u8>, row: &Row) -> Result<(), AllocError>
    ensures { OnOk result (text.new.items ≡ text.old.items ++ row_way row.now) }
{
    text.extend_from_slice(b", port = ")?;
    put_count(text, row.port)?;
    text.extend_from_slice(b", next = ")?;
    put_addr(text, row.next)
}

/// Appends the range of a row, and its distance.
fn put_reach(text: &mut Vec<u8>, row: &Row) -> Result<(), AllocError>
    ensures { OnOk result (text.new.items ≡ text.old.items ++ row_reach row.now) }
{
    text.extend_from_slice(b"    {range = ")?;
    put_range(text, row.start, row.end)?;
    text.extend_from_slice(b", distance = ")?;
    put_decimal(text, u32::from(row.distance))
}

/// Appends the line of a row.
pub(crate) fn put_row(text: &mut Vec<u8>, row: &Row) -> Result<(), AllocError>
    ensures { OnOk result (text.new.items ≡ text.old.items ++ row_line row.now) }
{
    put_reach(text, row)?;
    put_way(text, row)?;
    text.extend_from_slice(b", state = \"")?;
    put_state(text, row.state)?;
    put_letters(text, b"\"},\n")
}

/// Appends the range of a zone list, and whether it is complete.
fn put_known(text: &mut Vec<u8>, list: &ZoneList) -> Result<(), AllocError>
    ensures { OnOk result (text.new.items ≡ text.old.items
        ++ (codes "    {range = " ++ range_value list.now.start list.now.end ++ codes ", complete = "
        ++ yes_or_no list.now.complete)) }
{
    text.extend_from_slice(b"    {range = ")?;
    put_range(text, list.start, list.end)?;
    text.extend_from_slice(b", complete = ")?;
    put_bool(text, list.complete)
}

/// Appends the line of a zone list.
pub(crate) fn put_list(text: &mut Vec<u8>, list: &ZoneList) -> Result<(), AllocError>
    ensures { OnOk result (text.new.items ≡ text.old.items ++ list_line list.now) }
{
    put_known(text, list)?;
    text.extend_from_slice(b", zones = ")?;
    put_names(text, list.zones.as_slice())?;
    text.extend_from_slice(b"},\n")
}

/// Appends the words of a node's name.
fn put_words(text: &mut Vec<u8>, name: &NodeName) -> Result<(), AllocError>
    ensures { OnOk result (text.new.items ≡ text.old.items ++ name_words name.now) }
{
    text.extend_from_slice(b"    {object = ")?;
    put_entity(text, &name.object)?;
    text.extend_from_slice(b", type = ")?;
    put_entity(text, &name.kind)
}

/// Appends the numbers of a node's name.
fn put_numbers(text: &mut Vec<u8>, name: &NodeName) -> Result<(), AllocError>
    ensures { OnOk result (text.new.items ≡ text.old.items ++ name_numbers name.now) }
{
    text.extend_from_slice(b", socket = ")?;
    put_decimal(text, u32::from(name.socket))?;
    text.extend_from_slice(b", enumerator = ")?;
    put_decimal(text, u32::from(name.enumerator))
}

/// Appends the line of a node's name.
pub(crate) fn put_name(text: &mut Vec<u8>, name: &NodeName) -> Result<(), AllocError>
    ensures { OnOk result (text.new.items ≡ text.old.items ++ name_line name.now) }
{
    put_words(text, name)?;
    put_numbers(text, name)?;
    put_letters(text, b"},\n")
}

/// Appends the line of a node's mapping.
pub(crate) fn put_mapping_line(text: &mut Vec<u8>, mapping: &Mapping) -> Result<(), AllocError>
    ensures { OnOk result (text.new.items ≡ text.old.items ++ mapping_line mapping.now) }
{
    text.extend_from_slice(b"    ")?;
    put_mapping(text, mapping)?;
    text.extend_from_slice(b",\n")
}

/// Appends the router of a node that has one.
fn put_router_key(text: &mut Vec<u8>, router: Option<Addr>) -> Result<(), AllocError>
    ensures { OnOk result (text.new.items ≡ text.old.items ++ router_key router) }
{
    match router {
        None => Ok(()),
        Some(address) => {
            text.extend_from_slice(b"router = ")?;
            put_addr(text, address)?;
            text.extend_from_slice(b"\n")
        }
    }
}

/// Appends the cable of a node, and its address.
fn put_node_place(text: &mut Vec<u8>, node: &Node) -> Result<(), AllocError>
    ensures { OnOk result (text.new.items ≡ text.old.items ++ node_place node.now) }
{
    text.extend_from_slice(b"\n[[node]]\ncable = ")?;
    put_count(text, node.cable)?;
    text.extend_from_slice(b"\naddress = ")?;
    put_addr(text, node.address)
}

/// Appends the hardware address of a node, and its zone.
fn put_node_zone(text: &mut Vec<u8>, node: &Node) -> Result<(), AllocError>
    ensures { OnOk result (text.new.items ≡ text.old.items ++ node_zone node.now) }
{
    text.extend_from_slice(b"\nhardware = ")?;
    put_hardware(text, &node.hardware)?;
    text.extend_from_slice(b"\nzone = ")?;
    put_zone(text, &node.zone)?;
    put_letters(text, b"\n")
}

/// Appends what a node has once.
pub(crate) fn put_node_head(text: &mut Vec<u8>, node: &Node) -> Result<(), AllocError>
    ensures { OnOk result (text.new.items ≡ text.old.items ++ node_head node.now) }
{
    put_node_place(text, node)?;
    put_node_zone(text, node)?;
    put_router_key(text, node.router)
}
