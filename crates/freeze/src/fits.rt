//! Proofs that the numbers of an image's parts fit their fields. Only the prover needs these
//! functions: they do nothing. Reading a field shows the prover that the value fits the field's
//! type.

ghost use Rattle.std.specs.List.{AllByRecursion};
ghost use Rattle.at_base.specs.Spelling.{IsValue};
ghost use Rattle.at_base.specs.Text.{IsName};
ghost use Rattle.freeze.specs.Fits.{FitsCable, FitsList};
ghost use Rattle.table_image.proofs.Checked.{FitsPort, FitsRow};
ghost use Rattle.table_image.proofs.CheckedParts.{FitsName, FitsNode};
ghost use Rattle.table_image.specs.Spelling.{own_router_spelling};

use at_base::{Addr, Name};
use table_image::{Cable, Node, NodeName, Port, Router, Row, ZoneList};

/// The port's numbers fit.
fn fit_port(port: &Port)
    ensures { FitsPort port.now }
{
    let _cable = port.cable;
    let _net = port.address.net;
    let _node = port.address.node;
    let _six = port.hardware.as_slice();
}

/// The numbers of each port fit.
fn fit_ports(ports: &[Port])
    ensures { AllByRecursion FitsPort ports.now }
{
    if let [port, rest @ ..] = ports {
        fit_port(port);
        fit_ports(rest);
    }
}

/// The row's numbers fit.
fn fit_row(row: &Row)
    ensures { FitsRow row.now }
{
    let _start = row.start;
    let _end = row.end;
    let _distance = row.distance;
    let _port = row.port;
    let _net = row.next.net;
    let _node = row.next.node;
}

/// The numbers of each row fit.
fn fit_rows(rows: &[Row])
    ensures { AllByRecursion FitsRow rows.now }
{
    if let [row, rest @ ..] = rows {
        fit_row(row);
        fit_rows(rest);
    }
}

/// Each of the zones is a valid name.
fn fit_zones(zones: &[Name])
    ensures { AllByRecursion IsName zones.now }
{
    if let [zone, rest @ ..] = zones {
        let _bytes = zone.as_slice();
        fit_zones(rest);
    }
}

/// The cable's numbers and zones fit.
pub fn fit_cable(cable: &Cable)
    ensures { FitsCable cable.now }
{
    let _start = cable.start;
    let _end = cable.end;
    fit_zones(cable.zones.as_slice());
}

/// The zone list's numbers and zones fit.
fn fit_list(list: &ZoneList)
    ensures { FitsList list.now }
{
    let _start = list.start;
    let _end = list.end;
    fit_zones(list.zones.as_slice());
}

/// The numbers and zones of each zone list fit.
fn fit_lists(lists: &[ZoneList])
    ensures { AllByRecursion FitsList lists.now }
{
    if let [list, rest @ ..] = lists {
        fit_list(list);
        fit_lists(rest);
    }
}

/// The name's numbers fit.
fn fit_name(name: &NodeName)
    ensures { FitsName name.now }
{
    let _socket = name.socket;
    let _enumerator = name.enumerator;
}

/// The numbers of each name fit.
fn fit_names(names: &[NodeName])
    ensures { AllByRecursion FitsName names.now }
{
    if let [name, rest @ ..] = names {
        fit_name(name);
        fit_names(rest);
    }
}

/// The numbers of the router's address, if there is one, fit.
fn fit_own_router(router: Option<Addr>)
    ensures { IsValue own_router_spelling router }
{
    match router {
        Some(addr) => {
            let _net = addr.net;
            let _node = addr.node;
        }
        None => {}
    }
}

/// The numbers of the node and of its names fit.
pub fn fit_node(node: &Node)
    ensures node { FitsNode node.now }
    ensures router { IsValue own_router_spelling node.now.router }
    ensures names { AllByRecursion FitsName node.now.names }
{
    let _cable = node.cable;
    let _net = node.address.net;
    let _node = node.address.node;
    let _six = node.hardware.as_slice();
    fit_own_router(node.router);
    fit_names(node.names.as_slice());
}

/// The numbers of the router's ports, rows and zone lists fit.
pub fn fit_router(router: &Router)
    ensures ports { AllByRecursion FitsPort router.now.ports }
    ensures rows { AllByRecursion FitsRow router.now.rows }
    ensures lists { AllByRecursion FitsList router.now.lists }
{
    fit_ports(router.ports.as_slice());
    fit_rows(router.rows.as_slice());
    fit_lists(router.lists.as_slice());
}
