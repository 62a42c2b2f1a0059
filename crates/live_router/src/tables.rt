//! New tables of a router, and their assignment.

ghost use Rattle.std.specs.Prelude.{◌≡◌, length, nat_lt, option_map, unwrap_or, IsTrue};
ghost use Rattle.std.specs.List.{list_all};

use aarp::Chooser;
use router::Router;
use rtmp::RouteTable;
use zip_zones::ZoneTable;

/// The new tables of a router. A table that doesn't change is `None`.
#[derive(Drop)]
pub(crate) struct Tables<T: RouteTable> {
    pub(crate) routes: Option<T>,
    pub(crate) zones: Option<ZoneTable>,
}

/// The new choices, or those before if there are none.
pub(crate) fn ports_now<'a>(next: &'a Option<Vec<Chooser>>, before: &'a [Chooser]) -> &'a [Chooser]
    ensures { result.now ≡ unwrap_or (option_map (λ v. v.items) next.now) before.now }
{
    match next {
        Some(next) => next.as_slice(),
        None => before,
    }
}

/// The new routing table, or the one before if there is none.
pub(crate) fn routes_now<'a, T: RouteTable>(next: &'a Option<T>, before: &'a T) -> &'a T
    ensures { T.rows result.now ≡ unwrap_or (option_map T.rows next.now) (T.rows before.now) }
{
    match next {
        Some(next) => next,
        None => before,
    }
}

/// The new zone table, or the one before if there is none.
pub(crate) fn zones_now<'a>(next: &'a Option<ZoneTable>, before: &'a ZoneTable) -> &'a ZoneTable
    ensures { result.now ≡ unwrap_or next.now before.now }
{
    match next {
        Some(next) => next,
        None => before,
    }
}

/// Replaces the choices of the ports' addresses, if there are new ones.
pub(crate) fn take_ports<T: RouteTable>(router: &mut Router<T>, next: Option<Vec<Chooser>>)
    requires { length (unwrap_or (option_map (λ v. v.items) next) router.old.ports)
        ≡ length router.old.ports }
    ensures { router.new ≡ record router.old {
      ports = unwrap_or (option_map (λ v. v.items) next) router.old.ports;
    } }
{
    if let Some(ports) = next {
        router.set_ports(ports);
    }
}

/// Replaces the routing table, if there is a new one.
fn take_routes<T: RouteTable>(router: &mut Router<T>, next: Option<T>)
    requires { IsTrue (list_all (λ r. nat_lt r.port (length router.old.ports))
        (unwrap_or (option_map T.rows next) router.old.routes)) }
    ensures { router.new ≡ record router.old {
      routes = unwrap_or (option_map T.rows next) router.old.routes;
    } }
{
    if let Some(routes) = next {
        router.set_routes(routes);
    }
}

/// Replaces the zone table, if there is a new one.
fn take_zones<T: RouteTable>(router: &mut Router<T>, next: Option<ZoneTable>)
    ensures { router.new ≡ record router.old { zones = unwrap_or next router.old.zones } }
{
    if let Some(zones) = next {
        router.set_zones(zones);
    }
}

/// Replaces the tables for which there are new ones. The caller ensures that each row's port is one
/// of the ports.
pub(crate) fn take_tables<T: RouteTable>(router: &mut Router<T>, next: Tables<T>)
    requires { IsTrue (list_all (λ r. nat_lt r.port (length router.old.ports))
        (unwrap_or (option_map T.rows next.routes) router.old.routes)) }
    ensures { router.new ≡ record router.old {
      routes = unwrap_or (option_map T.rows next.routes) router.old.routes;
      zones = unwrap_or next.zones router.old.zones;
    } }
{
    let Tables { routes, zones } = next;
    take_routes(router, routes);
    take_zones(router, zones);
}
