//! Routers with the tables that an image has for them.

ghost use Rattle.std.specs.Prelude.{◌≡◌, ◌<◌, ◌≤◌, [], length, map, nat_lt, slice_get, Some};
ghost use Rattle.std.specs.Prelude.{option_map, IfOk, IsOkUnless, IsTrue};
ghost use Rattle.std.specs.List.{list_all};
ghost use Rattle.audit.specs.Rules.{Passes};
ghost use Rattle.image_stations.specs.Holders.{HoldsRouter, ports_of};
ghost use Rattle.image_stations.specs.Plans.{is_port_seated};
ghost use Rattle.rtmp.specs.Routes.{IsRouteMap};
ghost use Rattle.rtmp.specs.declared.row.Row.{Row as RouteRow};
ghost use Rattle.table_image.specs.Bounds.{IsBounded};
ghost use Rattle.table_image.specs.RouteRows.{route_row, rows_at};
ghost use Rattle.image_zones.specs.ZoneMaps.{lists_at, zone_map};
ghost use Rattle.at_base.specs.Limits.{max_ports};

use crate::plans::plans_of;
use at_base::Error;
use router::Router;
use rtmp::{RouteTable, Row};
use std::alloc::Global;
use table_image::{Image, Port, Router as Tables};
use zip_zones::ZoneTable;

/// The rows of a router. Error: `Memory`.
fn rows_of(alloc: Global, image: &Image, index: u8) -> Result<Vec<Row>, Error>
    requires passes { Passes image.now }
    requires there { index < length image.now.routers }
    ensures ok { IfOk result
        (λ rows. option_map (map route_row) (rows_at index image.now) ≡ Some rows.items) }
    ensures refused { IsOkUnless result Error.Memory }
{
    image.rows_of(alloc, index)
}

/// A routing table with these rows. Error: `Memory`.
fn table_of<T: RouteTable>(alloc: Global, rows: &[Row]) -> Result<T, Error>
    requires { IsRouteMap rows.now }
    ensures ok { IfOk result (λ table. T.rows table ≡ rows.now) }
    ensures refused { IsOkUnless result Error.Memory }
{
    let mut table = T::empty(alloc)?;
    table.load(rows)?;
    Ok(table)
}

/// The zone table of a router. Error: `Memory`.
fn zones_of(alloc: Global, image: &Image, index: u8) -> Result<ZoneTable, Error>
    requires passes { Passes image.now }
    requires there { index < length image.now.routers }
    ensures ok { IfOk result
        (λ zones. option_map zone_map (lists_at index image.now) ≡ Some zones) }
    ensures refused { IsOkUnless result Error.Memory }
{
    // Only the prover needs this read: it shows that the image's routers are within its limits.
    let _routers = image.routers();
    image_zones::zones_of(alloc, image, index)
}

/// A router with these ports and tables. Error: `Memory`.
fn router_by<T: RouteTable>(
    alloc: Global,
    image: &Image,
    ports: &[Port],
    routes: T,
    zones: ZoneTable,
) -> Result<Router<T>, Error>
    requires few { length ports.now ≤ max_ports }
    requires seated { IsTrue (list_all (is_port_seated image.now.cables) ports.now) }
    requires ported { IsTrue (list_all (λ (row : RouteRow). nat_lt row.port (length ports.now))
        (T.rows routes)) }
    ensures ok { IfOk result (λ router. router ≡ record {
      ports = ports_of image.now ports.now;
      routes = T.rows routes;
      zones = zones;
      requests = [];
    }) }
    ensures refused { IsOkUnless result Error.Memory }
{
    let plans = plans_of(alloc, image, ports)?;
    Router::new(alloc, plans.as_slice(), routes, zones)
}

/// The image's entry for a router.
fn tables_of(image: &Image, index: u8) -> &Tables
    requires { index < length image.now.routers }
    ensures known { slice_get image.now.routers index ≡ Some result.now }
    ensures bounded { IsBounded image.now }
{
    &image.routers()[index as usize]
}

/// A router with the tables that an image that passes the audit has for it. `index` counts the
/// image's routers from 0. Error: `Memory`.
pub fn router_of<T: RouteTable>(alloc: Global, image: &Image, index: u8) -> Result<Router<T>, Error>
    requires passes { Passes image.now }
    requires there { index < length image.now.routers }
    ensures ok { IfOk result (λ router. HoldsRouter image.now index router
        × (router.requests ≡ [])) }
    ensures refused { IsOkUnless result Error.Memory }
{
    let tables = tables_of(image, index);
    let rows = rows_of(alloc, image, index)?;
    let routes: T = table_of(alloc, rows.as_slice())?;
    let zones = zones_of(alloc, image, index)?;
    router_by(alloc, image, tables.ports.as_slice(), routes, zones)
}
