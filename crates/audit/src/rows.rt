//! The rules about rows, C3 to C7.

ghost use Rattle.std.specs.Prelude.{◌≡◌, ◌<◌, true, suc, None, Some, IfSome, length, slice_get};
ghost use Rattle.audit.specs.Firsts.{FirstNumber, FirstPlace};
ghost use Rattle.audit.specs.Rules as spec;
ghost use Rattle.audit.specs.Rules.{c1, c2, c3, row_breaks, breaks_rows};
ghost use Rattle.audit.specs.Straight.{AreStraight};

use crate::lookups::has_row;
use crate::next::{Hints, breaks_next, breaks_steps};
use crate::places::from_one;
use crate::ranges::{breaks_direct, breaks_ranges};
use crate::rule::{MAX_DISTANCE, Rule};
use at_base::Place;
use table_image::{Cable, Image, Router, Row};

fn breaks(
    rule: Rule,
    image: &Image,
    hints: &Hints,
    r: usize,
    router: &Router,
    k: usize,
    row: &Row,
) -> bool
    requires cables { FirstPlace (c1 image.now) None }
    requires stations { FirstPlace (c2 image.now) None }
    ensures { result ≡ row_breaks rule image.now r router.now row.now }
{
    match rule {
        // No row breaks a rule about cables, stations, zone lists, nodes or mappings.
        Rule::CablesInOrder
        | Rule::StationsAddressed
        | Rule::ZoneListsAgree
        | Rule::NodesServed
        | Rule::MappingsTrue => false,
        Rule::RowsCoverCables => breaks_ranges(image, router, k, row),
        Rule::DirectRowsDirect => breaks_direct(image, router, k, row),
        Rule::DistancesFit => MAX_DISTANCE < row.distance,
        Rule::NextRoutersExist => breaks_next(image, hints, r, router, row),
        Rule::DistancesFall => breaks_steps(image, hints, router, k, row),
    }
}

fn first_row(image: &Image, hints: &Hints, rule: Rule, r: usize, router: &Router) -> Option<usize>
    requires cables { FirstPlace (c1 image.now) None }
    requires stations { FirstPlace (c2 image.now) None }
    requires at { slice_get image.now.routers r ≡ Some router.now }
    ensures first { FirstNumber
        (λ k. breaks_rows rule image.now (Place.Row (suc r) (suc k)))
        result }
    ensures low { IfSome result (λ k. k < length router.now.rows) }
{
    for (k, row) in router.rows.as_slice().iter().enumerate() {
        if breaks(rule, image, hints, r, router, k, row) {
            return Some(k);
        }
    }
    None
}

fn lacks_row(router: &Router, k: usize, cable: &Cable) -> bool
    ensures { result ≡ spec.lacks_row router.now cable.now }
{
    !has_row(router, k, cable)
}

fn first_lack(image: &Image, r: usize, router: &Router) -> Option<usize>
    requires { slice_get image.now.routers r ≡ Some router.now }
    ensures first { FirstNumber (λ k. c3 image.now (Place.Missing (suc r) (suc k))) result }
    ensures low { IfSome result (λ k. k < 200) }
{
    for (k, cable) in image.cables().iter().enumerate() {
        if lacks_row(router, k, cable) {
            return Some(k);
        }
    }
    None
}

fn first_missing(image: &Image, rule: Rule, r: usize, router: &Router) -> Option<usize>
    requires { slice_get image.now.routers r ≡ Some router.now }
    ensures first { FirstNumber
        (λ k. breaks_rows rule image.now (Place.Missing (suc r) (suc k)))
        result }
    ensures low { IfSome result (λ k. k < 200) }
{
    match rule {
        Rule::RowsCoverCables => first_lack(image, r, router),
        Rule::CablesInOrder
        | Rule::StationsAddressed
        | Rule::DirectRowsDirect
        | Rule::DistancesFit
        | Rule::NextRoutersExist
        | Rule::DistancesFall
        | Rule::ZoneListsAgree
        | Rule::NodesServed
        | Rule::MappingsTrue => None,
    }
}

fn search(image: &Image, hints: &Hints, rule: Rule) -> Option<Place>
    requires cables { FirstPlace (c1 image.now) None }
    requires stations { FirstPlace (c2 image.now) None }
    ensures { FirstPlace (breaks_rows rule image.now) result }
{
    for (r, router) in image.routers().iter().enumerate() {
        if let Some(k) = first_row(image, hints, rule, r, router) {
            return Some(Place::Row(from_one(r), from_one(k)));
        }
        if let Some(k) = first_missing(image, rule, r, router) {
            return Some(Place::Missing(from_one(r), from_one(k)));
        }
    }
    None
}

/// The first row, or cable without a row, that breaks the rule, if any. Where all rows are straight,
/// none is searched for.
pub(crate) fn bad_row(image: &Image, hints: &Hints, straight: bool, rule: Rule) -> Option<Place>
    requires cables { FirstPlace (c1 image.now) None }
    requires stations { FirstPlace (c2 image.now) None }
    requires rows { straight ≡ true → AreStraight image.now }
    ensures { FirstPlace (breaks_rows rule image.now) result }
{
    // Only for the prover: the contract of `routers` says that rows rise.
    let _routers = image.routers();
    if straight {
        return None;
    }
    search(image, hints, rule)
}
