//! What is wrong at a place, where more can be said of it than its rule says.

use crate::item::at;
use crate::joined::{Groups, has_router};
use crate::stations::{is_harmless_node, is_harmless_port, is_unsettled};
use at_base::{Fault, Place};
use std::io;
use table_image::{Image, Router, Row};

/// What is wrong at a place.
#[derive(Clone, Copy, Debug)]
pub(crate) enum Finding {
    /// What the rule says, and nothing more.
    Rule,
    /// The station has no address yet.
    Unsettled,
    /// The station's hardware address is also that of stations on other cables, and all else about
    /// it is right.
    HardwareElsewhere,
    /// No router has a port on the cable.
    NoRouter,
    /// Routers have ports on the cable, but none lead there from the router with this number.
    Apart(u32),
    /// A row of the router with this number has another range than the cable with this number, with
    /// which it shares networks.
    OtherRange(u32, Row, usize),
    /// No cable has a network of the row.
    NoCable,
}

/// What is wrong at the place of a fault.
pub(crate) fn finding_at(image: &Image, fault: Fault) -> Finding {
    match (fault.rule, fault.place) {
        (2, place) if is_unsettled(image, place) => Finding::Unsettled,
        (2, Place::Port(r, p)) if is_harmless_port(image, r, p) => Finding::HardwareElsewhere,
        (2, Place::Node(k)) if is_harmless_node(image, k) => Finding::HardwareElsewhere,
        (3, Place::Row(r, k)) => finding_at_row(image, r, k),
        (3, Place::Missing(r, k)) => finding_at_missing(image, r, k),
        _ => Finding::Rule,
    }
}

/// What is wrong with row `k` of router `r`, which isn't usable or isn't for a cable.
fn finding_at_row(image: &Image, r: u32, k: u32) -> Finding {
    let Some(router) = at(image.routers(), r) else {
        return Finding::Rule;
    };
    let Some(row) = at(router.rows.as_slice(), k) else {
        return Finding::Rule;
    };
    for (index, cable) in image.cables().iter().enumerate() {
        if cable.start == row.start && cable.end == row.end {
            return finding_between(image, r, router, index);
        }
        if cable.start <= row.end && row.start <= cable.end {
            return Finding::OtherRange(r, *row, index.saturating_add(1));
        }
    }
    Finding::NoCable
}

/// Why router `r` has no row for cable `k`.
fn finding_at_missing(image: &Image, r: u32, k: u32) -> Finding {
    match at(image.routers(), r) {
        Some(router) => finding_between(image, r, router, (k as usize).saturating_sub(1)),
        None => Finding::Rule,
    }
}

/// Why router `r` has no usable row for the cable with this index.
fn finding_between(image: &Image, r: u32, router: &Router, cable: usize) -> Finding {
    if !has_router(image, cable) {
        Finding::NoRouter
    } else if Groups::of(image).leads(router, cable) {
        Finding::Rule
    } else {
        Finding::Apart(r)
    }
}

/// Shows what is wrong, below the place and the parts with which it was compared.
pub(crate) fn show_finding(rt: &impl Eprint, image: &Image, finding: Finding) -> io::Result<()> {
    match finding {
        Finding::Rule | Finding::NoCable => Ok(()),
        Finding::Unsettled => eprintln!(rt;
            "  0.0 is no address: the station has not settled on one"
        ),
        Finding::HardwareElsewhere => eprintln!(rt;
            "On real cables this is harmless: a hardware address has to be unique on its own cable \
             alone. The audit wants it once in all."
        ),
        Finding::NoRouter => eprintln!(rt; "  no router has a port on this cable"),
        Finding::Apart(r) => {
            eprintln!(rt; "  no routers lead from router {r} to this cable")?;
            Groups::of(image).show(rt, image.cables().len())
        }
        Finding::OtherRange(r, row, k) => match image.cables().get(k.saturating_sub(1)) {
            Some(cable) => eprintln!(rt;
                "  router {r} has {}-{} for cable {k}'s {}-{}",
                row.start, row.end, cable.start, cable.end
            ),
            None => Ok(()),
        },
    }
}
