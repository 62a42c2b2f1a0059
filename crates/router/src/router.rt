//! Routers and their tables.

ghost use Rattle.std.specs.Prelude.{◌≡◌, ◌<◌, ◌↔◌, ◌⊎◌, ◌++◌, length, map, nat_lt};
ghost use Rattle.std.specs.Prelude.{[], IfErr, IfOk, IfSome, IsOkUnless, IsTrue, OnOk};
ghost use Rattle.std.specs.List.{list_all};
ghost use Rattle.station.specs.Ports.{is_planned, planned};
ghost use Rattle.router.specs.Holding as spec;
ghost use Rattle.router.specs.Holding.{IsHandIn, hand_by};
ghost use Rattle.at_base.specs.Limits.{max_ports};

use crate::hand::Hand;
use aarp::Chooser;
use at_base::limits::MAX_PORTS;
use at_base::{Addr, Error};
use atp::Responder;
use rtmp::{RouteTable, Row};
use station::PortPlan;
use std::alloc::Global;
use std::marker::Model;
use zip_zones::ZoneTable;

/// A router: its ports on cables, its routing table and its zone table. Receiving frames doesn't
/// change the tables; only the setters and `learn_routes` and `learn_zones` do.
///
/// Inside AppleTalk, the chapters on DDP, RTMP and ZIP.
#[derive(Drop)]
pub struct Router<T: RouteTable> {
    pub(crate) ports: Vec<Chooser>,
    pub(crate) routes: T,
    pub(crate) zones: ZoneTable,
    // The exactly-once requests for zone lists, with their responses.
    pub(crate) responder: Responder,
}

impl<T: RouteTable> Model for Router<T> {
    ghost use Rattle.router.specs.Holding.{Holding, IsHolding};

    ghost Value = { Holding };

    ghost view = { λ r. record {
      ports = r.ports.items;
      routes = T.rows r.routes;
      zones = r.zones;
      requests = r.responder;
    } };

    ghost invariant = { λ r. IsHolding (record {
      ports = r.ports.items;
      routes = T.rows r.routes;
      zones = r.zones;
      requests = r.responder;
    }) };
}

/// The address of the port at an index, if it is settled.
pub fn own_at(ports: &[Chooser], port: u8) -> Option<Addr>
    ensures value { result ≡ spec.own_at ports.now port }
    ensures inside { IfSome result (λ me. port < length ports.now) }
{
    match ports.get(port as usize) {
        Some(chooser) => chooser.settled(),
        None => None,
    }
}

/// Where datagrams are sent by this row.
fn hand_of(row: Option<Row>) -> Hand
    ensures { result ≡ hand_by row }
{
    match row {
        None => Hand::Nowhere,
        Some(row) if row.is_direct() => Hand::Here(row.port),
        Some(row) => Hand::On(row.port, row.next),
    }
}

/// Appends the choices of addresses of the planned ports. Error: `Memory`.
fn put_choosers(ports: &mut Vec<Chooser>, plans: &[PortPlan<'_>]) -> Result<(), Error>
    requires { IsTrue (list_all is_planned plans.now) }
    ensures put { OnOk result (ports.new.items ≡ ports.old.items ++ map planned plans.now) }
    ensures refused { IsOkUnless result Error.Memory }
{
    match plans {
        [] => Ok(()),
        [plan, rest @ ..] => {
            let chooser = plan.chooser(*ports.allocator())?;
            ports.push(chooser)?;
            put_choosers(ports, rest)
        }
    }
}

impl<T: RouteTable> Router<T> {
    /// A router with these ports and tables. The caller ensures that a station of each port's range
    /// may have the port's addresses (`aarp::are_on`), and that each row's port is one of the
    /// ports.
    ///
    /// Errors: `Full` above 16 ports, `Memory`.
    pub fn new(
        alloc: Global,
        plans: &[PortPlan<'_>],
        routes: T,
        zones: ZoneTable,
    ) -> Result<Router<T>, Error>
        requires planned { IsTrue (list_all is_planned plans.now) }
        requires seated { IsTrue (list_all (λ r. nat_lt r.port (length plans.now)) (T.rows routes)) }
        ensures ok { IfOk result (λ router. router ≡ record {
          ports = map planned plans.now;
          routes = T.rows routes;
          zones = zones;
          requests = [];
        }) }
        ensures full { (result ≡ Err Error.Full) ↔ (max_ports < length plans.now) }
        ensures refused { IfErr result (λ e. (e ≡ Error.Full) ⊎ (e ≡ Error.Memory)) }
    {
        if plans.len() > MAX_PORTS {
            return Err(Error::Full);
        }
        let mut ports = Vec::with_capacity(alloc, plans.len())?;
        put_choosers(&mut ports, plans)?;
        let responder = Responder::new(alloc)?;
        Ok(Router {
            ports,
            routes,
            zones,
            responder,
        })
    }

    /// Where the router sends datagrams for a network. Allocates nothing.
    ///
    /// Inside AppleTalk, the chapters on DDP and RTMP.
    pub fn hand(&self, net: u16) -> Hand
        ensures value { result ≡ spec.hand self.now.routes net }
        ensures inside { IsHandIn (length self.now.ports) result }
    {
        hand_of(self.routes.row_for(net))
    }

    /// The address of the port at an index, if there is such a port and its address is settled.
    /// Allocates nothing.
    pub fn own(&self, port: u8) -> Option<Addr>
        ensures { result ≡ spec.own_at self.now.ports port }
    {
        own_at(self.ports.as_slice(), port)
    }

    /// The routing table.
    pub fn routes(&self) -> &T
        ensures { T.rows result.now ≡ self.now.routes }
    {
        &self.routes
    }

    /// The zone table.
    pub fn zones(&self) -> &ZoneTable
        ensures { result.now ≡ self.now.zones }
    {
        &self.zones
    }
}
