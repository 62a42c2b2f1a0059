//! What is marked in a drawing: the place where the verdict's rule is broken, or, of tables that pass,
//! the first row that may change.

ghost use Rattle.std.specs.Prelude.{◌≡◌, ◌==◌, ◌+◌, ◌<◌, ◌^◌};
ghost use Rattle.drawing.specs.Marks as spec;
ghost use Rattle.drawing.specs.Marks.{mark_at};

use at_base::{Fault, Place};
use audit::Verdict;
use settled::Settling;

/// What is marked in a drawing.
#[derive(Clone, Copy, Debug, PartialEq, Eq)]
pub(crate) enum Mark {
    /// A broken rule, and its place: red.
    Broken(Fault),
    /// A row that may change: orange.
    MayChange(Place),
}

/// The mark of an image with this verdict, whose tables are settled or not: none where the verdict
/// is yes and they are.
pub(crate) fn mark_of(verdict: &Verdict, settling: Settling) -> Option<Mark>
    ensures { result ≡ spec.mark_of verdict.now settling }
{
    match (verdict, settling) {
        (Verdict::No(fault), _) => Some(Mark::Broken(*fault)),
        (Verdict::Yes(_), Settling::Yes) => None,
        (Verdict::Yes(_), Settling::No(place)) => Some(Mark::MayChange(place)),
    }
}

/// The place of a mark.
fn place_of(mark: Mark) -> Place
    ensures { result ≡ spec.place_of mark }
{
    match mark {
        Mark::Broken(fault) => fault.place,
        Mark::MayChange(place) => place,
    }
}

/// Whether a number, which counts from 1, is that of what has an index.
fn is_number(number: u32, index: u8) -> bool
    ensures { result ≡ (number == index + 1) }
{
    number == u32::from(index) + 1
}

fn is_cable(place: Place, k: u8) -> bool
    ensures { result ≡ spec.is_cable k place }
{
    match place {
        Place::Cable(number) => is_number(number, k),
        _ => false,
    }
}

fn is_router(place: Place, r: u8) -> bool
    ensures { result ≡ spec.is_router r place }
{
    match place {
        Place::Row(number, _) | Place::Missing(number, _) | Place::List(number, _) => {
            is_number(number, r)
        }
        _ => false,
    }
}

fn is_port(place: Place, r: u8, p: usize) -> bool
    requires { p + 1 < 2 ^ 64 }
    ensures { result ≡ spec.is_port r p place }
{
    match place {
        Place::Port(router, port) => is_number(router, r) && port as usize == p + 1,
        _ => false,
    }
}

fn is_node(place: Place, k: u8) -> bool
    ensures { result ≡ spec.is_node k place }
{
    match place {
        Place::Node(number) => is_number(number, k),
        _ => false,
    }
}

/// The mark, if its place is the cable with index `k`.
pub(crate) fn mark_at_cable(mark: Option<Mark>, k: u8) -> Option<Mark>
    ensures { result ≡ mark_at (spec.is_cable k) mark }
{
    match mark {
        Some(found) => {
            if is_cable(place_of(found), k) {
                Some(found)
            } else {
                None
            }
        }
        None => None,
    }
}

/// The mark, if its place is a row or a zone list of the router with index `r`, or a cable for
/// which that router has none.
pub(crate) fn mark_at_router(mark: Option<Mark>, r: u8) -> Option<Mark>
    ensures { result ≡ mark_at (spec.is_router r) mark }
{
    match mark {
        Some(found) => {
            if is_router(place_of(found), r) {
                Some(found)
            } else {
                None
            }
        }
        None => None,
    }
}

/// The mark, if its place is the port with index `p` of the router with index `r`.
pub(crate) fn mark_at_port(mark: Option<Mark>, r: u8, p: usize) -> Option<Mark>
    requires { p + 1 < 2 ^ 64 }
    ensures { result ≡ mark_at (spec.is_port r p) mark }
{
    match mark {
        Some(found) => {
            if is_port(place_of(found), r, p) {
                Some(found)
            } else {
                None
            }
        }
        None => None,
    }
}

/// The mark, if its place is the node with index `k`.
pub(crate) fn mark_at_node(mark: Option<Mark>, k: u8) -> Option<Mark>
    ensures { result ≡ mark_at (spec.is_node k) mark }
{
    match mark {
        Some(found) => {
            if is_node(place_of(found), k) {
                Some(found)
            } else {
                None
            }
        }
        None => None,
    }
}
