//! Lookups for the rules about rows. Each tries a hint first, an index that is probably the right
//! one: if rule C3 is kept, a router's row k is for cable k. A hint is verified before it is used.
//! A wrong hint costs a search, and doesn't change the result.

ghost use Rattle.std.specs.Prelude.{◌≡◌, ◌==◌, ◌&&◌, None, Some, position, find};
ghost use Rattle.std.specs.List.{list_any};
ghost use Rattle.std.specs.Option.{option_copied};
ghost use Rattle.table_image.specs.Bounds.{AreRising};
ghost use Rattle.audit.specs.Routing as routing_spec;
ghost use Rattle.at_base.specs.Address as address_spec;
ghost use Rattle.audit.specs.Firsts.{FirstPlace};
ghost use Rattle.audit.specs.Rules as rules_spec;
ghost use Rattle.audit.specs.Rules.{c1, c2};

use crate::stations::same_address;
use at_base::Addr;
use table_image::{Cable, Image, Port, Router, Row};

/// Whether the row has the range of the cable.
pub(crate) fn is_for(row: &Row, cable: &Cable) -> bool
    ensures { result ≡ rules_spec.is_for row.now cable.now }
{
    row.start == cable.start && row.end == cable.end
}

fn search_cables(cables: &[Cable], row: &Row) -> Option<usize>
    ensures { result ≡ position (rules_spec.is_for row.now) cables.now }
{
    cables.iter().position(|c| is_for(row, c))
}

/// The 0-based index of the cable that the row is for, if any.
pub(crate) fn cable_of(image: &Image, hint: usize, row: &Row) -> Option<usize>
    requires { FirstPlace (c1 image.now) None }
    ensures { result ≡ rules_spec.cable_of image.now row.now }
{
    let cables = image.cables();
    if let Some(c) = cables.get(hint) {
        if is_for(row, c) {
            return Some(hint);
        }
    }
    search_cables(cables, row)
}

/// Whether the router has a row for the cable.
pub(crate) fn has_row(router: &Router, hint: usize, cable: &Cable) -> bool
    ensures { result ≡ list_any (λ row. rules_spec.is_for row cable.now) router.now.rows }
{
    let rows = router.rows.as_slice();
    if let Some(row) = rows.get(hint) {
        if is_for(row, cable) {
            return true;
        }
    }
    rows.iter().any(|row| is_for(row, cable))
}

fn search_ports(ports: &[Port], cable: usize) -> Option<usize>
    ensures { result ≡ position (λ p. p.cable == cable) ports.now }
{
    ports.iter().position(|p| p.cable as usize == cable)
}

/// The 0-based index of the router's port on the cable, if any.
pub(crate) fn port_on(router: &Router, cable: usize) -> Option<usize>
    ensures { result ≡ rules_spec.port_on router.now cable }
{
    search_ports(router.ports.as_slice(), cable)
}

fn same_range(a: &Row, b: &Row) -> bool
    ensures { result ≡ (a.now.start == b.now.start && a.now.end == b.now.end) }
{
    a.start == b.start && a.end == b.end
}

fn search_rows<'a>(rows: &'a [Row], row: &Row) -> Option<&'a Row>
    ensures { option_copied result
        ≡ find (λ other. other.start == row.now.start && other.end == row.now.end) rows.now }
{
    rows.iter().find(|other| same_range(other, row))
}

/// The router's row with the same range, if any.
pub(crate) fn same_row(router: &Router, hint: usize, row: &Row) -> Option<Row>
    requires { AreRising router.now.rows }
    ensures { result ≡ rules_spec.same_row (Some router.now) row.now }
{
    let rows = router.rows.as_slice();
    if let Some(other) = rows.get(hint) {
        if same_range(other, row) {
            return Some(*other);
        }
    }
    search_rows(rows, row).copied()
}

fn has_seat(router: &Router, cable: u8, address: Addr) -> bool
    ensures { result
        ≡ list_any (λ p. p.cable == cable && address_spec.same_address p.address address) router.now.ports }
{
    router
        .ports
        .as_slice()
        .iter()
        .any(|p| p.cable == cable && same_address(p.address, address))
}

fn search_routers(routers: &[Router], cable: u8, address: Addr) -> Option<usize>
    ensures { result
        ≡ position
        (λ router. list_any (λ p. p.cable == cable && address_spec.same_address p.address address) router.ports)
        routers.now }
{
    routers
        .iter()
        .position(|router| has_seat(router, cable, address))
}

/// The 0-based index of the router that has a port with the address on the cable, if any.
pub(crate) fn owner(image: &Image, hint: usize, cable: u8, address: Addr) -> Option<usize>
    requires { FirstPlace (c2 image.now) None }
    ensures { result ≡ routing_spec.owner image.now cable address }
{
    let routers = image.routers();
    if let Some(router) = routers.get(hint) {
        if has_seat(router, cable, address) {
            return Some(hint);
        }
    }
    search_routers(routers, cable, address)
}
