//! Rows and the cables that they are for: rule C3 (each row is usable and for a cable) and rule C4
//! (the rows of a router's own cables are direct, and no others).

ghost use Rattle.std.specs.Prelude.{◌≡◌, None};
ghost use Rattle.audit.specs.Places.{on};
ghost use Rattle.audit.specs.Firsts.{FirstPlace};
ghost use Rattle.audit.specs.Rules as spec;
ghost use Rattle.audit.specs.Rules.{bad_range, bad_direct, c1};

use crate::lookups::{cable_of, port_on};
use table_image::{Image, Router, Row};

/// Whether the row breaks rule C3.
pub(crate) fn breaks_ranges(image: &Image, router: &Router, k: usize, row: &Row) -> bool
    requires { FirstPlace (c1 image.now) None }
    ensures { result ≡ bad_range image.now router.now row.now }
{
    !(row.state.is_usable() && cable_of(image, k, row).is_some())
}

/// Whether the row, for a cable on which the router has this port, if any, breaks rule C4.
pub(crate) fn is_bad_direct(row: &Row, port: Option<usize>) -> bool
    ensures { result ≡ bad_direct row.now port }
{
    match port {
        Some(p) => !(row.distance == 0 && row.port as usize == p && row.is_direct()),
        None => row.distance == 0 || row.is_direct(),
    }
}

/// Whether the row breaks rule C4.
pub(crate) fn breaks_direct(image: &Image, router: &Router, k: usize, row: &Row) -> bool
    requires { FirstPlace (c1 image.now) None }
    ensures { result ≡ on (spec.cable_of image.now row.now) (λ c. bad_direct row.now (spec.port_on router.now c)) }
{
    match cable_of(image, k, row) {
        Some(c) => is_bad_direct(row, port_on(router, c)),
        None => false,
    }
}
