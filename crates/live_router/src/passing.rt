//! A tick of a live router.

ghost use Rattle.std.specs.Prelude.{◌≡◌, ◌<◌, ◌≤◌, ◌+◌, ◌++◌, ◌==◌, ◌%◌, [], false, true, length, nat_lt};
ghost use Rattle.std.specs.Prelude.{if◌then◌else◌, option_map, unwrap_or};
ghost use Rattle.std.specs.Prelude.{IfOk, IsOkUnless, IsTrue, OnErr, OnOk};
ghost use Rattle.std.specs.List.{list_all};
ghost use Rattle.learning.specs.Queries.{queries_of};
ghost use Rattle.live_router.specs.Ticking.{all_joined, all_queries, data_from};
ghost use Rattle.live_router.specs.Ticking as spec;
ghost use Rattle.live_router.specs.Ticking.{ports_ticked, probes};
ghost use Rattle.live_router.specs.Ticking.{router_after, routes_aged, sent_by, zones_aged};
ghost use Rattle.station.specs.Lawful.{PutsOut};
ghost use Rattle.station.specs.Made.{Adds, AreMade};
ghost use Rattle.at_base.specs.Limits.{max_ports, max_rows};

use crate::addresses::{are_settled, ports_after};
use crate::asked::put_queries;
use crate::joined::tables_after;
use crate::sent::put_all_data;
use crate::tables::{Tables, ports_now, routes_now, take_ports, take_tables, zones_now};
use aarp::Chooser;
use at_base::Error;
use learning::queries;
use router::Router;
use rtmp::RouteTable;
use station::making::nothing;
use station::{Output, Outputs};
use zip_zones::ZoneTable;

/// The period, in ticks, in which rows age.
const AGE_TICKS: u8 = 100;

/// The period, in ticks, in which routing data and queries are sent.
const SEND_TICKS: u8 = 50;

/// The phase of the next tick.
pub(crate) fn phase_after(phase: u8) -> u8
    requires { phase < 100 }
    ensures value { result ≡ spec.phase_after phase }
    ensures inside { result < 100 }
{
    (phase + 1) % AGE_TICKS
}

/// Adds the routing data of each settled port, and the queries for zone lists. Error: `Memory`.
fn send_all<T: RouteTable>(
    made: &mut Vec<Output>,
    ports: &[Chooser],
    routes: &T,
    zones: &ZoneTable,
) -> Result<(), Error>
    requires { length ports.now ≤ max_ports }
    ensures { Adds (length ports.now) (length (data_from 0 ports.now (T.rows routes.now)) + max_rows)
        (data_from 0 ports.now (T.rows routes.now)
        ++ all_queries ports.now (queries_of (T.rows routes.now) zones.now))
        made.old.items made.new.items result }
{
    put_all_data(made, 0, ports, routes)?;
    let queries = queries(*made.allocator(), routes, zones)?;
    put_queries(made, ports, queries.as_slice())
}

/// Adds the routing data and queries of a tick in this phase, if any are sent in it. Error:
/// `Memory`.
fn send<T: RouteTable>(
    made: &mut Vec<Output>,
    phase: u8,
    ports: &[Chooser],
    routes: &T,
    zones: &ZoneTable,
) -> Result<(), Error>
    requires { length ports.now ≤ max_ports }
    ensures { Adds (length ports.now) (length (data_from 0 ports.now (T.rows routes.now)) + max_rows)
        (if phase % 50 == 0 then data_from 0 ports.now (T.rows routes.now)
        ++ all_queries ports.now (queries_of (T.rows routes.now) zones.now) else [])
        made.old.items made.new.items result }
{
    if phase % SEND_TICKS != 0 {
        return Ok(());
    }
    send_all(made, ports, routes, zones)
}

/// The result of a tick: the outputs, and the choices and tables that change.
#[derive(Drop)]
struct Ticked<T: RouteTable> {
    made: Vec<Output>,
    ports: Option<Vec<Chooser>>,
    tables: Tables<T>,
}

/// The result of a tick of a router, which is in this phase after it. Error: `Memory`.
fn passed<T: RouteTable>(router: &Router<T>, phase: u8) -> Result<Ticked<T>, Error>
    ensures made { IfOk result (λ x. x.made.items
        ≡ probes 0 router.now.ports ++ sent_by phase (router_after phase router.now)) }
    ensures few { IfOk result (λ x. length x.made.items ≤ 256) }
    ensures good { IfOk result (λ x. AreMade (length router.now.ports) x.made.items) }
    ensures ports { IfOk result (λ x. unwrap_or (option_map (λ v. v.items) x.ports)
        router.now.ports ≡ ports_ticked router.now.ports) }
    ensures routes { IfOk result (λ x. unwrap_or (option_map T.rows x.tables.routes)
        router.now.routes
        ≡ routes_aged phase (all_joined 0 router.now.ports router.now.routes)) }
    ensures zones { IfOk result (λ x. unwrap_or x.tables.zones router.now.zones
        ≡ zones_aged phase (all_joined 0 router.now.ports router.now.routes) router.now.zones) }
    ensures seated { IfOk result (λ x. IsTrue (list_all
        (λ r. nat_lt r.port (length router.now.ports))
        (unwrap_or (option_map T.rows x.tables.routes) router.now.routes))) }
    ensures refused { IsOkUnless result Error.Memory }
{
    let mut made = nothing(router.allocator());
    let ports = ports_after(router, &mut made)?;
    let after = ports_now(&ports, router.ports_now());
    let tables = tables_after(router, phase, after)?;
    let routes = routes_now(&tables.routes, router.routes());
    let zones = zones_now(&tables.zones, router.zones());
    send(&mut made, phase, after, routes, zones)?;
    Ok(Ticked {
        made,
        ports,
        tables,
    })
}

/// Whether a tick in this phase changes no more than the requests, and sends nothing: each port is
/// settled, which may be known (`settled`), no routing data is sent, and no row ages.
fn is_quiet<T: RouteTable>(router: &Router<T>, phase: u8, settled: bool) -> bool
    requires { settled ≡ true → list_all (λ p. p.is_settled) router.now.ports ≡ true }
    ensures { result ≡ true → ((phase % 50 == 0) ≡ false)
        × (list_all (λ p. p.is_settled) router.now.ports ≡ true) }
{
    phase % SEND_TICKS != 0 && (settled || are_settled(router.ports_now()))
}

/// Advances a router by a tick that isn't quiet; it is in this phase after it. Error: `Memory`;
/// neither the router nor the outputs change then.
// Apart, so that a quiet tick doesn't clear the room for what this one makes.
#[inline(never)]
fn pass_busy<T: RouteTable>(
    router: &mut Router<T>,
    phase: u8,
    outputs: &mut Outputs,
) -> Result<(), Error>
    ensures ok { OnOk result
        (PutsOut (length router.old.ports) outputs.old.items outputs.new.items (λ added.
        added ≡ probes 0 router.old.ports ++ sent_by phase (router_after phase router.old))) }
    ensures after { OnOk result (router.new ≡ router_after phase router.old) }
    ensures refused { IsOkUnless result Error.Memory }
    ensures router_stays { OnErr result (router.new ≡ router.old) }
    ensures outputs_stay { OnErr result (outputs.new.items ≡ outputs.old.items) }
{
    // All steps that may fail come first: an error then leaves the router unchanged.
    let Ticked {
        made,
        ports,
        tables,
    } = passed(router, phase)?;
    outputs.room(made.len())?;
    outputs.append(made);
    take_tables(router, tables);
    take_ports(router, ports);
    router.pass_requests();
    Ok(())
}

/// Advances a router by a tick; it is in this phase after it. Whether each port is settled may be
/// known before (`settled`), and the result says whether it is known after. Error: `Memory`;
/// neither the router nor the outputs change then.
pub(crate) fn pass<T: RouteTable>(
    router: &mut Router<T>,
    phase: u8,
    settled: bool,
    outputs: &mut Outputs,
) -> Result<bool, Error>
    requires { settled ≡ true → list_all (λ p. p.is_settled) router.old.ports ≡ true }
    ensures ok { OnOk result
        (PutsOut (length router.old.ports) outputs.old.items outputs.new.items (λ added.
        added ≡ probes 0 router.old.ports ++ sent_by phase (router_after phase router.old))) }
    ensures after { OnOk result (router.new ≡ router_after phase router.old) }
    ensures settled { IfOk result
        (λ known. known ≡ true → list_all (λ p. p.is_settled) router.new.ports ≡ true) }
    ensures refused { IsOkUnless result Error.Memory }
    ensures router_stays { OnErr result (router.new ≡ router.old) }
    ensures outputs_stay { OnErr result (outputs.new.items ≡ outputs.old.items) }
{
    if is_quiet(router, phase, settled) {
        router.pass_requests();
        return Ok(true);
    }
    pass_busy(router, phase, outputs)?;
    Ok(false)
}
