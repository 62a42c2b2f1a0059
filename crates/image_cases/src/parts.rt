//! The form of the parts of an image in answers.

use at_base::{Name, Range};
use case_words::{put_hw, put_text};
use rtmp::State;
use std::alloc::AllocError;
use table_image::{Cable, Image, Mapping, Node, Port, Router, Row, Version, ZoneList};
use zip_zones::ZoneTable;

fn put_zones(text: &mut String, zones: &[Name]) -> Result<(), AllocError> {
    for zone in zones {
        text.push(' ')?;
        put_text(text, zone.as_slice())?;
    }
    writeln!(text)
}

fn put_cable(text: &mut String, cable: &Cable) -> Result<(), AllocError> {
    let (start, end) = (cable.start, cable.end);
    write!(text, "cable {start}-{end}")?;
    put_zones(text, cable.zones.as_slice())
}

fn put_mappings(text: &mut String, mappings: &[Mapping]) -> Result<(), AllocError> {
    for mapping in mappings {
        let address = mapping.address;
        write!(text, "knows {address} ")?;
        put_hw(text, mapping.hardware)?;
        writeln!(text)?;
    }
    Ok(())
}

fn put_port(text: &mut String, port: &Port) -> Result<(), AllocError> {
    let (cable, address) = (port.cable, port.address);
    write!(text, "port cable {cable} {address} ")?;
    put_hw(text, port.hardware)?;
    writeln!(text)?;
    put_mappings(text, &port.mappings)
}

fn state_word(state: State) -> &'static str {
    match state {
        State::Good => "good",
        State::Suspect => "suspect",
        State::Bad => "bad",
        State::Last => "last",
    }
}

fn put_row(text: &mut String, row: &Row) -> Result<(), AllocError> {
    let (start, end, distance, port) = (row.start, row.end, row.distance, row.port);
    let (next, state) = (row.next, state_word(row.state));
    write!(text, "row {start}-{end} distance {distance} port {port} ")?;
    writeln!(text, "next {next} {state}")
}

fn complete_word(complete: bool) -> &'static str {
    if complete { "complete" } else { "incomplete" }
}

fn put_list(text: &mut String, list: &ZoneList) -> Result<(), AllocError> {
    let (start, end, complete) = (list.start, list.end, complete_word(list.complete));
    write!(text, "list {start}-{end} {complete}")?;
    put_zones(text, list.zones.as_slice())
}

fn put_router(text: &mut String, router: &Router) -> Result<(), AllocError> {
    writeln!(text, "router")?;
    for port in &router.ports {
        put_port(text, port)?;
    }
    for row in &router.rows {
        put_row(text, row)?;
    }
    for list in &router.lists {
        put_list(text, list)?;
    }
    Ok(())
}

fn put_names(text: &mut String, node: &Node) -> Result<(), AllocError> {
    for name in &node.names {
        let (socket, enumerator) = (name.socket, name.enumerator);
        write!(text, "name socket {socket} enumerator {enumerator} ")?;
        put_text(text, name.object.as_slice())?;
        text.push(' ')?;
        put_text(text, name.kind.as_slice())?;
        writeln!(text)?;
    }
    Ok(())
}

fn put_node(text: &mut String, node: &Node) -> Result<(), AllocError> {
    let (cable, address) = (node.cable, node.address);
    write!(text, "node cable {cable} {address} ")?;
    put_hw(text, node.hardware)?;
    write!(text, " zone ")?;
    put_text(text, node.zone.as_slice())?;
    match node.router {
        Some(router) => writeln!(text, " router {router}")?,
        None => writeln!(text, " router none")?,
    }
    put_names(text, node)?;
    put_mappings(text, &node.mappings)
}

/// Appends the parts of an image, one on each line, in the form of commands.
pub(crate) fn put_parts(text: &mut String, image: &Image) -> Result<(), AllocError> {
    if let Version::V2 = image.version() {
        writeln!(text, "version 2")?;
    }
    for cable in image.cables() {
        put_cable(text, cable)?;
    }
    for router in image.routers() {
        put_router(text, router)?;
    }
    for node in image.nodes() {
        put_node(text, node)?;
    }
    Ok(())
}

/// Appends rows of a routing table.
pub(crate) fn put_routes(text: &mut String, rows: &[rtmp::Row]) -> Result<(), AllocError> {
    for row in rows {
        let (range, distance, port, next) = (row.range, row.distance, row.port, row.next);
        let state = state_word(row.state);
        writeln!(
            text,
            "{range} distance {distance} port {port} next {next} {state}"
        )?;
    }
    Ok(())
}

fn put_zone_list(
    text: &mut String,
    table: &ZoneTable,
    range: Range,
    names: &[Name],
) -> Result<(), AllocError> {
    let complete = complete_word(table.complete(range.start()));
    write!(text, "{range} {complete}")?;
    put_zones(text, names)
}

/// Appends the lists of a zone table.
pub(crate) fn put_zone_table(text: &mut String, table: &ZoneTable) -> case_words::Answer {
    for index in 0..table.len() {
        if let Some(range) = table.range_at(index) {
            let names = table.names_of(range.start())?;
            put_zone_list(text, table, range, names.as_slice())?;
        }
    }
    Ok(())
}
