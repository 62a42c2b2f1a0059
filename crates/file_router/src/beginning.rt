//! A router of a file as it begins.

ghost use Rattle.std.specs.Prelude.{◌≡◌, ◌⊎◌, ◌↔◌, ◌++◌, true, map, IfErr, IfOk, IsOkUnless, IsTrue, OnOk};
ghost use Rattle.std.specs.List.{list_all};
ghost use Rattle.file_router.specs.Beginning as spec;
ghost use Rattle.internet_file.specs.Sound.{is_port, is_router};
ghost use Rattle.planned_stations.specs.Planning.{is_low_port, is_low_router};

use crate::calls::{calls_of, has_stray};
use crate::given::Given;
use at_base::{Error, What};
use cabled::{CabledRouter, Peers};
use internet_file::{Plan, Port, Router};
use planned_stations::{plans_of, zones_of};
use routing::{Cable, Routing};
use rtmp::Routes;
use std::alloc::Global;

/// A router over a capture, as it begins, and the cables of its ports, in order.
#[derive(Drop)]
pub struct Begun {
    pub routing: Routing<CabledRouter<Routes>>,
    pub cables: Vec<Cable>,
}

/// The cable of a port.
fn cable_of(cables: &[internet_file::Cable], port: &Port) -> Cable
    requires there { IsTrue (is_port cables.now port.now) }
    requires low { IsTrue (is_low_port port.now) }
    ensures { result ≡ spec.cable_of cables.now port.now }
{
    let range = cables[port.cable as usize - 1].range;
    Cable {
        index: port.cable.saturating_sub(1) as u8,
        start: range.start(),
        end: range.end(),
    }
}

/// Appends the cables of ports.
fn put_cables(
    put: &mut Vec<Cable>,
    cables: &[internet_file::Cable],
    ports: &[Port],
) -> Result<(), Error>
    requires there { IsTrue (list_all (is_port cables.now) ports.now) }
    requires low { IsTrue (list_all is_low_port ports.now) }
    ensures put { OnOk result (put.new.items
        ≡ put.old.items ++ map (spec.cable_of cables.now) ports.now) }
    ensures refused { IsOkUnless result Error.Memory }
{
    match ports {
        [] => Ok(()),
        [port, rest @ ..] => {
            put.push(cable_of(cables, port))?;
            put_cables(put, cables, rest)
        }
    }
}

/// A router of the plan, with its ports on cables that it doesn't own.
fn router_of(
    alloc: Global,
    plan: &Plan,
    router: &Router,
    peers: Peers,
) -> Result<CabledRouter<Routes>, Error>
    requires { IsTrue (is_router plan.now.cables router.now) }
    ensures ok { IfOk result
        (λ cabled. cabled ≡ spec.router_first peers plan.now.cables router.now) }
    ensures refused { IsOkUnless result Error.Memory }
{
    let cables = plan.cables();
    let plans = plans_of(alloc, cables, router.port.as_slice())?;
    let zones = zones_of(alloc, cables, router)?;
    CabledRouter::new(alloc, plans.as_slice(), zones, peers)
}

/// A router of a plan over a capture of which nothing was read, by these rules towards the other
/// stations. Its cables are called `cable K`, or as the first name says that was given to one. The
/// caller ensures that the router is one of the plan.
///
/// Errors: `NoSuch(Cable)` where a name is given to a cable on which the router has no port;
/// `Memory`.
pub fn begin(
    alloc: Global,
    plan: &Plan,
    router: &Router,
    names: &[Given],
    peers: Peers,
) -> Result<Begun, Error>
    requires sound { IsTrue (is_router plan.now.cables router.now) }
    requires low { IsTrue (is_low_router router.now) }
    ensures routing { IfOk result (λ begun. begun.routing
        ≡ spec.routing_first peers plan.now.cables router.now names.now) }
    ensures cables { IfOk result (λ begun. begun.cables.items
        ≡ map (spec.cable_of plan.now.cables) router.now.port) }
    ensures stray { (result ≡ Err (Error.NoSuch What.Cable))
        ↔ (spec.has_stray router.now names.now ≡ true) }
    ensures refused { IfErr result
        (λ e. (e ≡ Error.NoSuch What.Cable) ⊎ (e ≡ Error.Memory)) }
{
    if has_stray(router, names) {
        return Err(Error::NoSuch(What::Cable));
    }
    let cabled = router_of(alloc, plan, router, peers)?;
    let calls = calls_of(alloc, names, router.port.as_slice())?;
    let mut cables = Vec::new(alloc);
    put_cables(&mut cables, plan.cables(), router.port.as_slice())?;
    Ok(Begun {
        routing: Routing::new(alloc, cabled, calls),
        cables,
    })
}
