//! Changes of the tables in a tick: the cables of ports that settle get direct rows, and rows age.

ghost use Rattle.std.specs.Prelude.{◌≡◌, ◌≤◌, ◌+◌, length, option_map, unwrap_or};
ghost use Rattle.std.specs.Prelude.{IfOk, IsOkUnless, OnOk, Some};
ghost use Rattle.std.specs.List.{list_any};
ghost use Rattle.aarp.specs.Choosing.{ticked};
ghost use Rattle.live_router.specs.Ticking.{all_joined, joined, ports_ticked, routes_aged};
ghost use Rattle.live_router.specs.Ticking as spec;
ghost use Rattle.live_router.specs.Ticking.{zones_aged};
ghost use Rattle.learning.specs.Forgetting.{without_gone};
ghost use Rattle.rtmp.specs.Routes as routes_spec;
ghost use Rattle.rtmp.specs.Routes.{aged, beside};
ghost use Rattle.at_base.specs.Limits.{max_ports, max_rows};

use crate::tables::Tables;
use aarp::Chooser;
use at_base::{Error, Range};
use learning::forget;
use router::Router;
use rtmp::{RouteTable, Row, State};
use zip_zones::ZoneTable;

/// Whether a port settles in a tick, by its choice before and after the tick.
fn settles(before: &Chooser, after: &Chooser) -> bool
    requires { after.now ≡ (ticked before.now).0 }
    ensures { result ≡ spec.settles before.now }
{
    before.settled().is_none() && after.settled().is_some()
}

/// Whether any of the ports settles in a tick, by their choices before and after the tick.
fn any_settles(before: &[Chooser], after: &[Chooser]) -> bool
    requires { after.now ≡ ports_ticked before.now }
    ensures { result ≡ list_any spec.settles before.now }
{
    match before {
        [] => false,
        [first, rest @ ..] => settles(first, &after[0]) || any_settles(rest, &after[1..]),
    }
}

/// Adds a direct row for the cable of a port, which has this range. It is left out if the table has
/// no room for it. Error: `Memory`.
fn join<T: RouteTable>(routes: &mut T, range: Range, port: u8) -> Result<(), Error>
    ensures ok { OnOk result (T.rows routes.new ≡ joined range port (T.rows routes.old)) }
    ensures full { max_rows ≤ length (beside range (T.rows routes.old)) → result ≡ Ok tt }
    ensures refused { IsOkUnless result Error.Memory }
{
    match routes.direct(range, port) {
        Ok(()) | Err(Error::Full) => Ok(()),
        Err(error) => Err(error),
    }
}

/// Adds direct rows for the cables of the ports that settle in a tick, by their choices before and
/// after the tick. The ports are numbered from `port`. Error: `Memory`.
fn join_all<T: RouteTable>(
    routes: &mut T,
    port: u8,
    before: &[Chooser],
    after: &[Chooser],
) -> Result<(), Error>
    requires ticked { after.now ≡ ports_ticked before.now }
    requires few { port + length before.now ≤ max_ports }
    ensures ok { OnOk result
        (T.rows routes.new ≡ all_joined port before.now (T.rows routes.old)) }
    ensures refused { IsOkUnless result Error.Memory }
{
    match before {
        [] => Ok(()),
        [first, rest @ ..] => {
            if settles(first, &after[0]) {
                join(routes, first.range(), port)?;
            }
            join_all(routes, port + 1, rest, &after[1..])
        }
    }
}

/// A copy of the routing table with direct rows for the cables of the ports that settle. Error:
/// `Memory`.
fn routes_joined<T: RouteTable>(router: &Router<T>, after: &[Chooser]) -> Result<T, Error>
    requires { after.now ≡ ports_ticked router.now.ports }
    ensures ok { IfOk result
        (λ routes. T.rows routes ≡ all_joined 0 router.now.ports router.now.routes) }
    ensures refused { IsOkUnless result Error.Memory }
{
    let mut routes = router.routes().copy()?;
    join_all(&mut routes, 0, router.ports_now(), after)?;
    Ok(routes)
}

/// Whether the row is removed by the next aging.
fn is_over(row: &Row) -> bool
    ensures { result ≡ routes_spec.is_over row.now }
{
    match row.state {
        State::Last => !row.is_direct(),
        _ => false,
    }
}

/// Whether the next aging removes a row.
fn any_over<T: RouteTable>(routes: &T) -> bool
    ensures { result ≡ list_any routes_spec.is_over (T.rows routes.now) }
{
    for index in 0..routes.len() {
        if let Some(row) = routes.row(index) {
            if is_over(&row) {
                return true;
            }
        }
    }
    false
}

/// The tables after a period: the rows of this routing table age, and the zone lists of removed
/// rows are removed. Error: `Memory`.
fn tables_aged<T: RouteTable>(zones: &ZoneTable, joined: T) -> Result<Tables<T>, Error>
    ensures routes { IfOk result
        (λ next. option_map T.rows next.routes ≡ Some (aged (T.rows joined))) }
    ensures zones { IfOk result
        (λ next. unwrap_or next.zones zones.now ≡ without_gone (T.rows joined) zones.now) }
    ensures refused { IsOkUnless result Error.Memory }
{
    let mut routes = joined;
    // In most periods no row goes, and the zone table needn't be copied.
    if !any_over(&routes) {
        routes.age();
        return Ok(Tables {
            routes: Some(routes),
            zones: None,
        });
    }
    let mut zones = zones.copy()?;
    forget(&mut routes, &mut zones);
    Ok(Tables {
        routes: Some(routes),
        zones: Some(zones),
    })
}

/// The tables after a tick in this phase, after which the ports have these choices. Rows age in
/// phase 0. Tables that don't change are `None`. Error: `Memory`.
pub(crate) fn tables_after<T: RouteTable>(
    router: &Router<T>,
    phase: u8,
    after: &[Chooser],
) -> Result<Tables<T>, Error>
    requires { after.now ≡ ports_ticked router.now.ports }
    ensures routes { IfOk result (λ next. unwrap_or (option_map T.rows next.routes)
        router.now.routes
        ≡ routes_aged phase (all_joined 0 router.now.ports router.now.routes)) }
    ensures zones { IfOk result (λ next. unwrap_or next.zones router.now.zones
        ≡ zones_aged phase (all_joined 0 router.now.ports router.now.routes) router.now.zones) }
    ensures refused { IsOkUnless result Error.Memory }
{
    if phase == 0 {
        let routes = routes_joined(router, after)?;
        return tables_aged(router.zones(), routes);
    }
    if any_settles(router.ports_now(), after) {
        let routes = routes_joined(router, after)?;
        return Ok(Tables {
            routes: Some(routes),
            zones: None,
        });
    }
    Ok(Tables {
        routes: None,
        zones: None,
    })
}
