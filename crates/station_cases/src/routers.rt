//! The state of a router.

use crate::texts::put_row;
use at_base::{Addr, Name, Range};
use case_words::{Answer, Stop, Words, put_text};
use router::{Hand, Router};
use rtmp::RouteTable;
use station::Station;
use std::alloc::AllocError;
use zip_zones::ZoneTable;

/// Appends the address of a port, or that it has none.
fn put_own(text: &mut String, own: Option<Addr>) -> Result<(), AllocError> {
    match own {
        Some(own) => writeln!(text, "{own}"),
        None => writeln!(text, "none"),
    }
}

/// Appends a line for each port.
fn put_ports<T: RouteTable>(text: &mut String, router: &Router<T>) -> Result<(), AllocError> {
    for port in 0..router.ports() {
        write!(text, "port {port} ")?;
        put_own(text, router.own(port))?;
    }
    Ok(())
}

fn put_rows<T: RouteTable>(text: &mut String, routes: &T) -> Result<(), AllocError> {
    if routes.len() == 0 {
        return writeln!(text, "none");
    }
    for index in 0..routes.len() {
        if let Some(row) = routes.row(index) {
            put_row(text, &row)?;
        }
    }
    Ok(())
}

/// Appends zone names, separated by semicolons, and the end of a line.
fn put_names(text: &mut String, names: &[Name]) -> Result<(), AllocError> {
    let mut mark = "";
    for name in names {
        write!(text, "{mark} ")?;
        put_text(text, name.as_slice())?;
        mark = ";";
    }
    writeln!(text)
}

/// Appends the line of the list of a range.
fn put_list(text: &mut String, zones: &ZoneTable, range: Range) -> Answer {
    let net = range.start();
    let word = if zones.complete(net) {
        "complete"
    } else {
        "incomplete"
    };
    let names = zones.names_of(net)?;
    write!(text, "{range} {word}")?;
    put_names(text, names.as_slice())?;
    Ok(())
}

fn put_lists(text: &mut String, zones: &ZoneTable) -> Answer {
    if zones.len() == 0 {
        writeln!(text, "none")?;
    }
    for index in 0..zones.len() {
        if let Some(range) = zones.range_at(index) {
            put_list(text, zones, range)?;
        }
    }
    Ok(())
}

fn put_hand(text: &mut String, hand: Hand) -> Result<(), AllocError> {
    match hand {
        Hand::Here(port) => writeln!(text, "here on port {port}"),
        Hand::On(port, router) => writeln!(text, "on by port {port} to {router}"),
        Hand::Nowhere => writeln!(text, "nowhere"),
    }
}

/// Appends the answer to a question.
pub(crate) fn ask_router<T: RouteTable>(
    router: &Router<T>,
    mut words: Words<'_>,
    text: &mut String,
) -> Answer {
    match words.word() {
        "ports" => put_ports(text, router)?,
        "own" => put_own(text, router.own(words.number()?))?,
        "rows" => put_rows(text, router.routes())?,
        "row-count" => {
            let count = router.routes().len();
            writeln!(text, "{count}")?;
        }
        "lists" => put_lists(text, router.zones())?,
        "hand" => put_hand(text, router.hand(words.number()?))?,
        _ => return Err(Stop::Unclear),
    }
    Ok(())
}
