//! Rule C8: each zone list is complete and has the zones of its cable, and each router has a list
//! for each cable.

ghost use Rattle.std.specs.Prelude.{◌≡◌, ◌<◌, ◌≤◌, suc, true, false, None, Some};
ghost use Rattle.std.specs.Prelude.{IsTrue, IfSome, length, position, slice_get};
ghost use Rattle.std.specs.List.{list_any};
ghost use Rattle.audit.specs.Places.{index_of};
ghost use Rattle.audit.specs.Firsts.{FirstNumber, FirstPlace};
ghost use Rattle.audit.specs.Rules.{c1, c8};
ghost use Rattle.audit.specs.ZoneLists as spec;
ghost use Rattle.audit.specs.ZoneLists.{bad_list};
ghost use Rattle.audit.specs.GoodLists.{AreGood, AreGoodBelow, KeepsList, KeepsLists};

use crate::places::from_one;
use crate::zone_hints::ZoneHints;
use crate::zone_sets::{are_spelled_alike, are_zones_of};
use at_base::Place;
use table_image::{Cable, Image, Router, ZoneList};

fn is_for(list: &ZoneList, cable: &Cable) -> bool
    ensures { result ≡ spec.is_list_for list.now cable.now }
{
    list.start == cable.start && list.end == cable.end
}

fn search_cables(cables: &[Cable], list: &ZoneList) -> Option<usize>
    ensures { result ≡ position (spec.is_list_for list.now) cables.now }
{
    cables.iter().position(|c| is_for(list, c))
}

// The 0-based index of the cable that the list is for, if any. A router's list k is usually for
// cable k.
fn cable_of(image: &Image, hint: usize, list: &ZoneList) -> Option<usize>
    requires { FirstPlace (c1 image.now) None }
    ensures { result ≡ index_of (spec.is_list_for list.now) image.now.cables }
{
    let cables = image.cables();
    if let Some(c) = cables.get(hint) {
        if is_for(list, c) {
            return Some(hint);
        }
    }
    search_cables(cables, list)
}

// Whether a complete list for cable c is bad.
fn is_bad_for(image: &Image, hints: &ZoneHints, c: usize, list: &ZoneList) -> bool
    requires cables { FirstPlace (c1 image.now) None }
    requires cable { index_of (spec.is_list_for list.now) image.now.cables ≡ Some c }
    requires complete { list.now.complete ≡ true }
    ensures { result ≡ bad_list image.now list.now }
{
    match image.cables().get(c) {
        Some(cable) => { !are_zones_of(hints, c, cable.zones.as_slice(), list.zones.as_slice()) }
        None => true,
    }
}

fn is_bad(image: &Image, hints: &ZoneHints, k: usize, list: &ZoneList) -> bool
    requires { FirstPlace (c1 image.now) None }
    ensures { result ≡ bad_list image.now list.now }
{
    if !list.complete {
        return true;
    }
    match cable_of(image, k, list) {
        Some(c) => is_bad_for(image, hints, c, list),
        None => true,
    }
}

// Whether the lists are equal, with their zones in the same order and spelling.
fn are_equal(a: &ZoneList, b: &ZoneList) -> bool
    ensures { IsTrue result → a.now ≡ b.now }
{
    a.start == b.start
        && a.end == b.end
        && a.complete == b.complete
        && are_spelled_alike(a.zones.as_slice(), b.zones.as_slice())
}

// Whether list k is bad, where no list of the router before is.
fn is_bad_after(
    image: &Image,
    hints: &ZoneHints,
    before: &[ZoneList],
    k: usize,
    list: &ZoneList,
) -> bool
    requires cables { FirstPlace (c1 image.now) None }
    requires before { AreGood image.now before.now }
    ensures { result ≡ bad_list image.now list.now }
{
    if let Some(other) = before.get(k) {
        if are_equal(list, other) {
            return false;
        }
    }
    is_bad(image, hints, k, list)
}

fn first_list(
    image: &Image,
    hints: &ZoneHints,
    before: &[ZoneList],
    r: usize,
    router: &Router,
) -> Option<usize>
    requires cables { FirstPlace (c1 image.now) None }
    requires before { AreGood image.now before.now }
    requires at { slice_get image.now.routers r ≡ Some router.now }
    ensures first { FirstNumber (λ k. c8 image.now (Place.List (suc r) (suc k))) result }
    ensures low { IfSome result (λ k. k < length router.now.lists) }
{
    for (k, list) in router.lists.as_slice().iter().enumerate() {
        if is_bad_after(image, hints, before, k, list) {
            return Some(k);
        }
    }
    None
}

fn has_list(router: &Router, hint: usize, cable: &Cable) -> bool
    ensures { result ≡ list_any (λ l. spec.is_list_for l cable.now) router.now.lists }
{
    let lists = router.lists.as_slice();
    if let Some(list) = lists.get(hint) {
        if is_for(list, cable) {
            return true;
        }
    }
    lists.iter().any(|list| is_for(list, cable))
}

fn lacks_list(router: &Router, k: usize, cable: &Cable) -> bool
    ensures { result ≡ spec.lacks_list router.now cable.now }
{
    !has_list(router, k, cable)
}

fn first_missing(image: &Image, r: usize, router: &Router) -> Option<usize>
    requires { slice_get image.now.routers r ≡ Some router.now }
    ensures first { FirstNumber (λ k. c8 image.now (Place.Missing (suc r) (suc k))) result }
    ensures low { IfSome result (λ k. k < 200) }
{
    for (k, cable) in image.cables().iter().enumerate() {
        if lacks_list(router, k, cable) {
            return Some(k);
        }
    }
    None
}

// The lists of the router before router r; none for the first router.
fn lists_before(image: &Image, r: usize) -> &[ZoneList]
    requires within { r ≤ length image.now.routers }
    requires good { AreGoodBelow image.now r }
    ensures { AreGood image.now result.now }
{
    match image.routers()[..r].last() {
        Some(router) => router.lists.as_slice(),
        None => &[],
    }
}

// Whether the list has the range of the cable and its zones, in the same order and spelling.
fn is_spelled_like(list: &ZoneList, cable: &Cable) -> bool
    ensures complete { IsTrue result → list.now.complete ≡ true }
    ensures range { IsTrue result → spec.is_list_for list.now cable.now ≡ true }
    ensures zones { IsTrue result → list.now.zones ≡ cable.now.zones }
{
    list.complete
        && is_for(list, cable)
        && are_spelled_alike(list.zones.as_slice(), cable.zones.as_slice())
}

// Whether list k of router r is spelled like cable k.
fn is_spelled_at(image: &Image, r: usize, router: &Router, k: usize, cable: &Cable) -> bool
    requires cables { FirstPlace (c1 image.now) None }
    requires at { slice_get image.now.routers r ≡ Some router.now }
    requires cable { slice_get image.now.cables k ≡ Some cable.now }
    ensures { IsTrue result → KeepsList image.now r k }
{
    match router.lists.as_slice().get(k) {
        Some(list) => is_spelled_like(list, cable),
        None => false,
    }
}

// Whether each list of router r is spelled like the cable with its number, and each cable has one.
fn are_spelled_like_cables(image: &Image, r: usize, router: &Router) -> bool
    requires cables { FirstPlace (c1 image.now) None }
    requires at { slice_get image.now.routers r ≡ Some router.now }
    ensures { IsTrue result → KeepsLists image.now r }
{
    let cables = image.cables();
    if router.lists.len() > cables.len() {
        return false;
    }
    for (k, cable) in cables.iter().enumerate() {
        if !is_spelled_at(image, r, router, k, cable) {
            return false;
        }
    }
    true
}

// Whether all lists of all routers are spelled like the cables, as most are.
fn all_are_spelled_like_cables(image: &Image) -> bool
    requires { FirstPlace (c1 image.now) None }
    ensures { IsTrue result → FirstPlace (c8 image.now) None }
{
    for (r, router) in image.routers().iter().enumerate() {
        if !are_spelled_like_cables(image, r, router) {
            return false;
        }
    }
    true
}

// The first bad list or missing one. It is a function of its own, since each call of a function pays
// for the size of its locals.
#[inline(never)]
fn first_bad(image: &Image) -> Option<Place>
    requires { FirstPlace (c1 image.now) None }
    ensures { FirstPlace (c8 image.now) result }
{
    let hints = ZoneHints::of(image);
    for (r, router) in image.routers().iter().enumerate() {
        let before = lists_before(image, r);
        if let Some(k) = first_list(image, &hints, before, r, router) {
            return Some(Place::List(from_one(r), from_one(k)));
        }
        if let Some(k) = first_missing(image, r, router) {
            return Some(Place::Missing(from_one(r), from_one(k)));
        }
    }
    None
}

/// The first zone list that is bad, or the first cable for which a router has no list, if any.
pub(crate) fn bad_zone_list(image: &Image) -> Option<Place>
    requires { FirstPlace (c1 image.now) None }
    ensures { FirstPlace (c8 image.now) result }
{
    if all_are_spelled_like_cables(image) {
        return None;
    }
    first_bad(image)
}
