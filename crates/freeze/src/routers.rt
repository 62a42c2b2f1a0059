//! The routers of an image.

ghost use Rattle.std.specs.Prelude.{◌≡◌, ◌≤◌, ◌++◌, ℕ, length, map, nat_lt, option_copied};
ghost use Rattle.std.specs.Prelude.{option_to_list, slice_get};
ghost use Rattle.std.specs.Prelude.{IfOk, IfSome, IsOkUnless, IsTrue, OnOk};
ghost use Rattle.std.specs.List.{list_all};
ghost use Rattle.at_base.specs.Limits.{max_mappings};
ghost use Rattle.at_base.specs.Spelling.{IsValue};
ghost use Rattle.freeze.specs.Freezing.{address_of, frozen_list, frozen_port, frozen_ports};
ghost use Rattle.freeze.specs.Freezing.{frozen_router, frozen_row};
ghost use Rattle.freeze.specs.Frozen.{is_long};
ghost use Rattle.freeze.specs.Valid.{AreFew, HaveMappings, IsNotInV1};
ghost use Rattle.table_image.specs.Spelling.{mappings_spelling, router_spelling};
ghost use Rattle.zip_zones.specs.Zones.{most_names};

use crate::fits::fit_router;
use crate::mappings::{after, first_of, mappings_of};
use aarp::{Chooser, Mapper};
use at_base::{Addr, Error};
use router::Router;
use rtmp::RouteTable;
use std::alloc::Global;
use table_image::{Listed, Port, Row, Version, ZoneList};
use zip_zones::ZoneTable;

/// The address of a port, and 0.0 if it isn't settled.
pub(crate) fn address(port: &Chooser) -> Addr
    ensures { result ≡ address_of port.now }
{
    match port.settled() {
        Some(addr) => addr,
        None => Addr::NONE,
    }
}

/// The image's entry for a port on a cable.
fn port_of(
    alloc: Global,
    version: Version,
    cable: u8,
    choice: &Chooser,
    mapper: Option<&Mapper>,
) -> Result<Port, Error>
    ensures ok { IfOk result
        (λ port. port ≡ frozen_port version cable choice.now (option_copied mapper.entry)) }
    ensures known { IfSome (option_copied mapper.entry) (λ m. length m.known ≤ max_mappings)
        → IfOk result (λ port. IsValue (mappings_spelling version) port.mappings) }
    ensures refused { IsOkUnless result Error.Memory }
{
    let mappings = mappings_of(alloc, version, mapper)?;
    Ok(Port {
        cable,
        address: address(choice),
        hardware: choice.hw(),
        mappings,
    })
}

/// Appends the ports, which are on these cables, with the mappings of their seats' mappers.
fn put_ports(
    ports: &mut Vec<Port>,
    version: Version,
    cables: &[u8],
    choices: &[Chooser],
    mappers: &[Mapper],
) -> Result<(), Error>
    ensures put { OnOk result (ports.new.items
        ≡ ports.old.items ++ frozen_ports version cables.now choices.now mappers.now) }
    ensures known { OnOk result (AreFew mappers.now
        → HaveMappings version ports.old.items → HaveMappings version ports.new.items) }
    ensures refused { IsOkUnless result Error.Memory }
{
    match cables {
        [] => Ok(()),
        [cable, cables @ ..] => match choices {
            [] => Ok(()),
            [choice, choices @ ..] => {
                let alloc = *ports.allocator();
                let port = port_of(alloc, version, *cable, choice, first_of(mappers))?;
                ports.push(port)?;
                put_ports(ports, version, cables, choices, after(mappers, 1))
            }
        },
    }
}

/// Appends the row at an index, if there is one.
fn put_row<T: RouteTable>(rows: &mut Vec<Row>, routes: &T, index: usize) -> Result<(), Error>
    ensures put { OnOk result (rows.new.items ≡ rows.old.items
        ++ map frozen_row (option_to_list (slice_get (T.rows routes.now) index))) }
    ensures refused { IsOkUnless result Error.Memory }
{
    if let Some(row) = routes.row(index) {
        rows.push(Row {
            start: row.range.start(),
            end: row.range.end(),
            distance: row.distance,
            port: row.port,
            next: row.next,
            state: row.state,
        })?;
    }
    Ok(())
}

/// The rows of a routing table.
fn rows_of<T: RouteTable>(alloc: Global, routes: &T) -> Result<Vec<Row>, Error>
    ensures ok { IfOk result (λ rows. rows.items ≡ map frozen_row (T.rows routes.now)) }
    ensures refused { IsOkUnless result Error.Memory }
{
    let mut rows = Vec::with_capacity(alloc, routes.len())?;
    for index in 0..routes.len() {
        put_row(&mut rows, routes, index)?;
    }
    Ok(rows)
}

/// Appends the list at an index, if there is one.
fn put_list(lists: &mut Vec<ZoneList>, zones: &ZoneTable, index: usize) -> Result<(), Error>
    ensures put { OnOk result (lists.new.items ≡ lists.old.items
        ++ map frozen_list (option_to_list (slice_get zones.now index))) }
    ensures refused { IsOkUnless result Error.Memory }
{
    // Only the prover needs this read: the table is a valid zone table.
    let _len = zones.len();
    if let Some(range) = zones.range_at(index) {
        let start = range.start();
        let names = zones.names_of(start)?;
        lists.push(ZoneList {
            start,
            end: range.end(),
            complete: zones.complete(start),
            zones: Listed::from_vec(names),
        })?;
    }
    Ok(())
}

/// The lists of a zone table.
fn lists_of(alloc: Global, zones: &ZoneTable) -> Result<Vec<ZoneList>, Error>
    ensures ok { IfOk result (λ lists. lists.items ≡ map frozen_list zones.now) }
    ensures refused { IsOkUnless result Error.Memory }
{
    let mut lists = Vec::with_capacity(alloc, zones.len())?;
    for index in 0..zones.len() {
        put_list(&mut lists, zones, index)?;
    }
    Ok(lists)
}

/// The image's entry for a router.
fn router_of<T: RouteTable>(
    alloc: Global,
    version: Version,
    router: &Router<T>,
    cables: &[u8],
    mappers: &[Mapper],
) -> Result<table_image::Router, Error>
    ensures ok { IfOk result
        (λ frozen. frozen ≡ frozen_router version cables.now router.now mappers.now) }
    ensures known { AreFew mappers.now
        → IfOk result (λ frozen. HaveMappings version frozen.ports) }
    ensures refused { IsOkUnless result Error.Memory }
{
    let mut ports = Vec::with_capacity(alloc, cables.len())?;
    put_ports(&mut ports, version, cables, router.ports_now(), mappers)?;
    let rows = rows_of(alloc, router.routes())?;
    let lists = lists_of(alloc, router.zones())?;
    Ok(table_image::Router {
        ports: Listed::from_vec(ports),
        rows: Listed::from_vec(rows),
        lists: Listed::from_vec(lists),
    })
}

/// The image's entry for a router whose ports are on the cables with these indexes from 0: its
/// ports with their addresses (0.0 for one that isn't settled), its rows and its zone lists,
/// unchanged; in version 2 each port also has the mappings that its seat's mapper knows, by rising
/// address. The mappers are those of the ports' seats, in order. Error: `Memory`.
pub fn freeze_router<T: RouteTable>(
    alloc: Global,
    version: Version,
    router: &Router<T>,
    cables: &[u8],
    mappers: &[Mapper],
) -> Result<table_image::Router, Error>
    ensures ok { IfOk result
        (λ frozen. frozen ≡ frozen_router version cables.now router.now mappers.now) }
    // If each port has one of `count` cables, each mapper knows at most 512 mappings, and in
    // version 1 no list has more than 64 names, it is a valid router of an image of this version
    // with `count` cables.
    ensures valid { (count : ℕ) → IsTrue (list_all (λ c. nat_lt c count) cables.now)
        → length cables.now ≡ length router.now.ports
        → IsNotInV1 version (is_long (most_names router.now.zones))
        → AreFew mappers.now
        → IfOk result (λ frozen. IsValue (router_spelling version count) frozen) }
    ensures refused { IsOkUnless result Error.Memory }
{
    let frozen = router_of(alloc, version, router, cables, mappers)?;
    // Only the prover needs these reads: the tables are valid, and their numbers fit.
    let _ports = router.ports_now();
    let _rows = router.routes().len();
    let _lists = router.zones().len();
    fit_router(&frozen);
    Ok(frozen)
}
