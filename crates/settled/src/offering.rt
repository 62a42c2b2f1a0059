//! Who offers the range of a row nearer than the row.

ghost use Rattle.std.specs.Prelude.{◌≡◌, false, IfNone, Some, slice_get};
ghost use Rattle.settled.specs.Offered as spec;
ghost use Rattle.settled.specs.Offered.{has_offer, next_number, offer_to};

use crate::offers::{is_nearer_offer, is_on};
use at_base::Place;
use table_image::{Image, Port, Router, Row};

/// An offer of a range. Numbers count from 1, in the order of the image.
#[derive(Clone, Copy, Debug, PartialEq, Eq)]
pub struct Offer {
    /// The cable on which it is heard.
    pub cable: u32,
    /// The router that makes it.
    pub router: u32,
    /// That router's row for the range.
    pub row: u32,
    /// The row's distance.
    pub distance: u8,
}

/// The number after this one, or this one if it is the greatest.
fn next(number: u32) -> u32
    ensures { result ≡ next_number number }
{
    number.saturating_add(1)
}

/// The number and the distance of the first of these rows, of which the first has number `m`, by
/// which the router offers the range of the row, nearer, on the cable.
fn row_offering(cable: u8, row: &Row, router: &Router, m: u32, rows: &[Row]) -> Option<(u32, u8)>
    ensures { result ≡ spec.row_offering cable row.now router.now m rows.now }
{
    match rows {
        [] => None,
        [first, rest @ ..] => {
            if is_nearer_offer(cable, row, router, first) {
                Some((m, first.distance))
            } else {
                row_offering(cable, row, router, next(m), rest)
            }
        }
    }
}

/// The number and the distance of the first row by which the router offers the range of the row,
/// nearer, on the cable, if it is there.
fn row_of(cable: u8, row: &Row, router: &Router) -> Option<(u32, u8)>
    ensures { result ≡ spec.row_of cable row.now router.now }
{
    if is_on(router, cable) {
        row_offering(cable, row, router, 1, router.rows.as_slice())
    } else {
        None
    }
}

/// The offer of the first of these routers, of which the first has number `s`, that offers the range
/// of the row, nearer, on the cable.
fn router_offering(cable: u8, row: &Row, s: u32, routers: &[Router]) -> Option<Offer>
    ensures { result ≡ spec.router_offering cable row.now s routers.now }
{
    match routers {
        [] => None,
        [first, rest @ ..] => match row_of(cable, row, first) {
            Some((number, distance)) => Some(Offer {
                cable: u32::from(cable) + 1,
                router: s,
                row: number,
                distance,
            }),
            None => router_offering(cable, row, next(s), rest),
        },
    }
}

/// The first offer to the row on the cables of these ports.
fn port_offering(row: &Row, routers: &[Router], ports: &[Port]) -> Option<Offer>
    ensures { result ≡ spec.port_offering row.now routers.now ports.now }
{
    match ports {
        [] => None,
        [first, rest @ ..] => match router_offering(first.cable, row, 1, routers) {
            Some(offer) => Some(offer),
            None => port_offering(row, routers, rest),
        },
    }
}

/// The first offer to the row with this index of a router.
fn offer_by(image: &Image, k: usize, router: &Router) -> Option<Offer>
    ensures { result ≡ spec.offer_by image.now k (Some router.now) }
{
    match router.rows.as_slice().get(k) {
        Some(row) => port_offering(row, image.routers(), router.ports.as_slice()),
        None => None,
    }
}

/// The first offer to the row with index `k` of the router with index `r`, if there is such a row.
fn offer_at(image: &Image, r: usize, k: usize) -> Option<Offer>
    ensures { result ≡ spec.offer_by image.now k (slice_get image.now.routers r) }
{
    match image.routers().get(r) {
        Some(router) => offer_by(image, k, router),
        None => None,
    }
}

/// Who offers the range of the row at a place nearer than the row, so that its router takes another
/// way: the first offer, by the ports of the row's router, then by the routers, then by their rows;
/// none at a place that `settled` doesn't name, or where the row isn't usable and nobody offers its
/// range nearer. Allocates nothing.
///
/// Inside AppleTalk, the chapter on RTMP.
pub fn nearer_offer(image: &Image, place: Place) -> Option<Offer>
    ensures first { result ≡ offer_to image.now place }
    ensures none { IfNone result (has_offer image.now place ≡ false) }
{
    let Place::Row(r, k) = place else {
        return None;
    };
    if r == 0 || k == 0 {
        return None;
    }
    offer_at(image, r as usize - 1, k as usize - 1)
}
