//! Whether routing data can still change the tables of an internet.

ghost use Rattle.std.specs.Prelude.{◌≡◌, ◌<◌, suc, None, Some, IfSome, length, slice_get};
ghost use Rattle.at_base.specs.declared.error.Place.{Place};
ghost use Rattle.audit.specs.Firsts.{FirstNumber, FirstPlace};
ghost use Rattle.settled.specs.Settling as spec;

use crate::offers::has_nearer_offer;
use at_base::Place;
use std::fmt;
use table_image::{Image, Router, Row};

/// Whether the tables of an internet stay as they are, whatever routing data its routers send each
/// other.
#[derive(Clone, Copy, Debug, PartialEq, Eq)]
pub enum Settling {
    /// They stay: each row is usable, and no router offers its range nearer.
    Yes,
    /// The first row that may change: a router offers its range nearer, or it isn't usable.
    No(Place),
}

/// The line that says so, as `settled: no router 1 row 3`.
impl fmt::Display for Settling {
    ghost use Rattle.std.specs.Prelude.{Some};
    ghost use Rattle.settled.specs.Settling.{settling_line};

    ghost output = { λ s. Some (settling_line s) };

    fn fmt<W: fmt::Write>(&self, f: &mut fmt::Formatter<W>) -> fmt::Result {
        match self {
            Settling::Yes => write!(f, "settled: yes"),
            Settling::No(place) => write!(f, "settled: no {place}"),
        }
    }
}

fn may_change(image: &Image, router: &Router, k: usize, row: &Row) -> bool
    ensures { result ≡ spec.may_change image.now router.now row.now }
{
    !row.state.is_usable() || (!row.is_direct() && has_nearer_offer(image, router, k, row))
}

/// The number in a place of the part with this 0-based index.
fn from_one(k: usize) -> u32
    requires { k < 256 }
    ensures { result ≡ suc k }
{
    k as u32 + 1
}

fn first_row(image: &Image, r: usize, router: &Router) -> Option<usize>
    requires at { slice_get image.now.routers r ≡ Some router.now }
    ensures first { FirstNumber (λ k. spec.changes image.now (Place.Row (suc r) (suc k))) result }
    ensures low { IfSome result (λ k. k < length router.now.rows) }
{
    for (k, row) in router.rows.as_slice().iter().enumerate() {
        if may_change(image, router, k, row) {
            return Some(k);
        }
    }
    None
}

fn first_place(image: &Image) -> Option<Place>
    ensures { FirstPlace (spec.changes image.now) result }
{
    for (r, router) in image.routers().iter().enumerate() {
        if let Some(k) = first_row(image, r, router) {
            return Some(Place::Row(from_one(r), from_one(k)));
        }
    }
    None
}

/// Whether the tables of an internet are settled, or else the first row that may change. Allocates
/// nothing.
///
/// Inside AppleTalk, the chapter on RTMP.
pub fn settled(image: &Image) -> Settling
    ensures { spec.IsSettling image.now result }
{
    match first_place(image) {
        Some(place) => Settling::No(place),
        None => Settling::Yes,
    }
}
