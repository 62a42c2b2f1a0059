//! What the routers of an internet offer each other in routing data.

ghost use Rattle.std.specs.Prelude.{◌≡◌, ◌&&◌, not};
ghost use Rattle.std.specs.List.{list_any};
ghost use Rattle.rtmp.specs.States.{is_usable};
ghost use Rattle.settled.specs.Offers as spec;
ghost use Rattle.table_image.specs.Bounds.{AreRising, Every};
ghost use Rattle.table_image.specs.declared.router.Router.{Router};

use crate::lookups::{same_range, same_row};
use table_image::{Image, Port, Router, Row};

pub(crate) fn is_on(router: &Router, cable: u8) -> bool
    ensures { result ≡ spec.is_on cable router.now }
{
    router.ports.as_slice().iter().any(|p| p.cable == cable)
}

fn leaves_by(router: &Router, cable: u8, row: &Row) -> bool
    ensures { result ≡ spec.leaves_by cable router.now row.now }
{
    match router.ports.as_slice().get(row.port as usize) {
        Some(port) => port.cable == cable,
        None => false,
    }
}

/// Whether the offered row is nearer by two or more.
fn is_nearer(row: &Row, offered: &Row) -> bool
    ensures { result ≡ spec.is_nearer row.now offered.now }
{
    u32::from(offered.distance) + 1 < u32::from(row.distance)
}

pub(crate) fn is_nearer_offer(cable: u8, row: &Row, router: &Router, offered: &Row) -> bool
    ensures { result ≡ spec.is_nearer_offer cable row.now router.now offered.now }
{
    same_range(offered, row)
        && offered.state.is_usable()
        && !leaves_by(router, cable, offered)
        && is_nearer(row, offered)
}

/// Whether the router tells of its row on the cable.
fn tells(router: &Router, cable: u8, offered: &Row) -> bool
    ensures { result
        ≡ (spec.is_on cable router.now && not (spec.leaves_by cable router.now offered.now)) }
{
    is_on(router, cable) && !leaves_by(router, cable, offered)
}

/// Whether the router tells of its row on the cable of one of these ports.
fn tells_on(router: &Router, ports: &[Port], offered: &Row) -> bool
    ensures { result ≡ list_any (λ port. spec.is_on port.cable router.now
        && not (spec.leaves_by port.cable router.now offered.now)) ports.now }
{
    ports.iter().any(|port| tells(router, port.cable, offered))
}

/// Whether the router has this row to offer, nearer than the other one. What most rows fail comes
/// first.
fn has_nearer(row: &Row, offered: &Row) -> bool
    ensures { result ≡ (spec.is_nearer row.now offered.now && is_usable offered.now.state) }
{
    is_nearer(row, offered) && offered.state.is_usable()
}

/// Whether the router offers the range of the row, nearer than the row, on the cable of one of these
/// ports. The index is a hint: where its row for the range may be.
fn is_offered_by(router: &Router, ports: &[Port], k: usize, row: &Row) -> bool
    requires { AreRising router.now.rows }
    ensures { result ≡ list_any (λ port. spec.offers_nearer port.cable row.now router.now) ports.now }
{
    match same_row(router.rows.as_slice(), k, row) {
        Some(offered) => has_nearer(row, offered) && tells_on(router, ports, offered),
        None => false,
    }
}

fn is_offered(routers: &[Router], ports: &[Port], k: usize, row: &Row) -> bool
    requires { Every (λ (router : Router). AreRising router.rows) routers.now }
    ensures { result
        ≡ list_any (λ router. list_any (λ port. spec.offers_nearer port.cable row.now router) ports.now) routers.now }
{
    match routers {
        [] => false,
        [first, rest @ ..] => {
            is_offered_by(first, ports, k, row) || is_offered(rest, ports, k, row)
        }
    }
}

/// Whether a router offers the range of the row with index `k` of a router, nearer than the row, on
/// a cable of that router.
pub(crate) fn has_nearer_offer(image: &Image, router: &Router, k: usize, row: &Row) -> bool
    ensures { result ≡ spec.has_nearer_offer image.now router.now row.now }
{
    is_offered(image.routers(), router.ports.as_slice(), k, row)
}
