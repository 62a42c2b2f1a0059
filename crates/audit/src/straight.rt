//! The rules about rows in one pass. In an internet that keeps them, a router's row k is for cable
//! k, so that one comparison shows which cable a row is for, and that no cable lacks one.

ghost use Rattle.std.specs.Prelude.{◌≡◌, ◌&&◌, true, not, IfSome, None, Some, nat_lt, slice_get};
ghost use Rattle.rtmp.specs.States.{is_usable};
ghost use Rattle.audit.specs.Firsts.{FirstPlace};
ghost use Rattle.audit.specs.Places.{on};
ghost use Rattle.audit.specs.Rules as rules_spec;
ghost use Rattle.audit.specs.Rules.{bad_direct, c2, max_distance};
ghost use Rattle.audit.specs.Straight as spec;
ghost use Rattle.audit.specs.Straight.{AreStraight, IsFound, IsStraight};

use crate::lookups::{is_for, port_on};
use crate::next::{Hints, next_router};
use crate::ranges::is_bad_direct;
use crate::rule::MAX_DISTANCE;
use crate::stations::same_address;
use at_base::Addr;
use table_image::{Image, Router, Row};

// Whether the row is that of the cable with its index.
fn is_for_cable(image: &Image, k: usize, row: &Row) -> bool
    ensures { result ≡ on (slice_get image.now.cables k) (rules_spec.is_for row.now) }
{
    match image.cables().get(k) {
        Some(cable) => is_for(row, cable),
        None => false,
    }
}

// The next router that was found for a row. Most rows of a router have few next routers, and those
// for cables side by side often have the same.
#[derive(Clone, Copy)]
struct NextFound {
    port: u8,
    address: Addr,
    // The 0-based index of the router, if there is one.
    router: Option<usize>,
}

// The 0-based index of the row's next router, if any. Where the last row that was asked for has the
// same, it is known.
fn find_next(
    image: &Image,
    hints: &Hints,
    last: &mut Option<NextFound>,
    router: &Router,
    row: &Row,
) -> Option<usize>
    requires stations { FirstPlace (c2 image.now) None }
    requires last { IfSome last.old (IsFound image.now router.now) }
    ensures next { result ≡ rules_spec.next_router image.now router.now row.now }
    ensures last { IfSome last.new (IsFound image.now router.now) }
{
    if let Some(it) = *last {
        if it.port == row.port && same_address(it.address, row.next) {
            return it.router;
        }
    }
    let found = next_router(image, hints, router, row);
    *last = Some(NextFound {
        port: row.port,
        address: row.next,
        router: found,
    });
    found
}

fn is_one_nearer(router: &Router, k: usize, row: &Row) -> bool
    ensures { result ≡ spec.is_one_nearer k row.now router.now }
{
    match router.rows.as_slice().get(k) {
        Some(other) => other.distance as u32 + 1 == row.distance as u32,
        None => false,
    }
}

// Whether the row has a next router, and that one's row for the same cable is one nearer. Which
// cable that row is for is looked at when its turn comes.
fn has_nearer_next(
    image: &Image,
    hints: &Hints,
    last: &mut Option<NextFound>,
    router: &Router,
    k: usize,
    row: &Row,
) -> bool
    requires stations { FirstPlace (c2 image.now) None }
    requires last { IfSome last.old (IsFound image.now router.now) }
    ensures nearer { result ≡ spec.has_nearer_next image.now router.now k row.now }
    ensures last { IfSome last.new (IsFound image.now router.now) }
{
    let Some(s) = find_next(image, hints, last, router, row) else {
        return false;
    };
    match image.routers().get(s) {
        Some(next) => is_one_nearer(next, k, row),
        None => false,
    }
}

fn is_straight(
    image: &Image,
    hints: &Hints,
    last: &mut Option<NextFound>,
    router: &Router,
    k: usize,
    row: &Row,
) -> bool
    requires stations { FirstPlace (c2 image.now) None }
    requires last { IfSome last.old (IsFound image.now router.now) }
    ensures straight { result ≡ spec.is_straight image.now router.now k row.now }
    ensures last { IfSome last.new (IsFound image.now router.now) }
{
    is_for_cable(image, k, row)
        && row.state.is_usable()
        && !(MAX_DISTANCE < row.distance)
        && !is_bad_direct(row, port_on(router, k))
        && (row.is_direct() || has_nearer_next(image, hints, last, router, k, row))
}

fn has_straight_rows(image: &Image, hints: &Hints, router: &Router) -> bool
    requires { FirstPlace (c2 image.now) None }
    ensures { result ≡ true → IsStraight image.now router.now }
{
    let rows = router.rows.as_slice();
    if rows.len() != image.cables().len() {
        return false;
    }
    let mut last = None;
    for (k, row) in rows.iter().enumerate() {
        if !is_straight(image, hints, &mut last, router, k, row) {
            return false;
        }
    }
    true
}

/// Whether the rows of all routers are straight, and so break no rule.
pub(crate) fn are_straight(image: &Image, hints: &Hints) -> bool
    requires { FirstPlace (c2 image.now) None }
    ensures { result ≡ true → AreStraight image.now }
{
    for router in image.routers() {
        if !has_straight_rows(image, hints, router) {
            return false;
        }
    }
    true
}
