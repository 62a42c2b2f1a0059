//! Questions about an image, and their answers.

use crate::edits::edited;
use crate::parts::{put_parts, put_routes, put_zone_table};
use crate::pieces::another;
use crate::{making, reading};
use at_base::limits::{
    MAX_CABLES, MAX_LISTS, MAX_MAPPINGS, MAX_NAMES, MAX_NODES, MAX_PORTS, MAX_ROUTERS, MAX_ROWS,
    MAX_ZONES,
};
use audit::audit;
use case_words::{Answer, Stop, Words, put_line, yes_or_no};
use image_zones::zones_of;
use std::alloc::Global;
use table_image::{Image, Listed, write};

/// Adds a name to a list of a router's zone table, as `10-19 total 3 Green`.
fn add(alloc: Global, table: &mut zip_zones::ZoneTable, words: &mut Words<'_>) -> Answer {
    let range = words.range()?;
    let total = words.named("total")?;
    let name = words.name(alloc)?;
    table.add(range, total, &name)?;
    Ok(())
}

/// Appends the zone table of a router, after adding a name if the words give one.
fn zones(alloc: Global, image: &Image, mut words: Words<'_>, text: &mut String) -> Answer {
    let mut table = zones_of(alloc, image, words.number()?)?;
    if words.passes("adding") {
        add(alloc, &mut table, &mut words)?;
    }
    put_zone_table(text, &table)
}

fn routes(alloc: Global, image: &Image, mut words: Words<'_>, text: &mut String) -> Answer {
    let rows = image.rows_of(alloc, words.number()?)?;
    put_routes(text, rows.as_slice())?;
    Ok(())
}

/// Appends the number of bytes of the written image, and their capacity.
fn room(alloc: Global, image: &Image, text: &mut String) -> Answer {
    let written = write(alloc, image)?.into_vec();
    let (len, room) = (written.len(), written.capacity());
    writeln!(text, "{len} bytes, room for {room}")?;
    Ok(())
}

/// Appends the numbers of cables, routers and nodes of the image.
fn counts(image: &Image, text: &mut String) -> Answer {
    let cables = image.cables().len();
    let routers = image.routers().len();
    let nodes = image.nodes().len();
    writeln!(text, "{cables} cables, {routers} routers, {nodes} nodes")?;
    Ok(())
}

/// Answers the question about the image that the first word names.
fn ask(alloc: Global, image: &Image, mut words: Words<'_>, text: &mut String) -> Answer {
    match words.word() {
        "counts" => counts(image, text)?,
        "parts" => put_parts(text, image)?,
        "bytes" => put_line(text, write(alloc, image)?.as_slice())?,
        "room" => room(alloc, image, text)?,
        "rows" => routes(alloc, image, words, text)?,
        "zones" => zones(alloc, image, words, text)?,
        "audit" => {
            let line = audit(image).line(alloc)?;
            writeln!(text, "{line}")?;
        }
        _ => return Err(Stop::Unclear),
    }
    Ok(())
}

/// Answers the question before a colon about the image in the bytes with the changes after it;
/// without a question, whether writing the image gives the same bytes.
pub(crate) fn image(
    alloc: Global,
    bytes: &Vec<u8>,
    mut words: Words<'_>,
    text: &mut String,
) -> Answer {
    let rest = words.rest();
    match rest.split_once(':') {
        Some((question, changes)) => {
            let image = reading::image(alloc, bytes, Words::new(changes.trim_start()))?;
            ask(alloc, &image, Words::new(question), text)
        }
        None => is_kept(alloc, bytes, Words::new(rest), text),
    }
}

/// Appends whether writing the image in the bytes gives the same bytes. They are read in two pieces
/// too, cut at each place, and byte by byte.
fn is_kept(alloc: Global, bytes: &Vec<u8>, words: Words<'_>, text: &mut String) -> Answer {
    let bytes = edited(alloc, bytes, words)?;
    if let Some(cut) = another(alloc, bytes.as_slice())? {
        writeln!(text, "another answer if they are cut at {cut}")?;
    }
    let image = image_feed::read(alloc, bytes.as_slice())?;
    let written = write(alloc, &image)?;
    let same = yes_or_no(written.as_slice() == bytes.as_slice());
    writeln!(text, "an image; written alike: {same}")?;
    Ok(())
}

/// Answers the question about the image with these parts; without a question, whether they make an
/// image.
pub(crate) fn made(alloc: Global, parts: &str, words: Words<'_>, text: &mut String) -> Answer {
    let image = making::image(alloc, parts)?;
    if words.is_empty() {
        writeln!(text, "an image")?;
        return Ok(());
    }
    ask(alloc, &image, words, text)
}

/// Appends the limits.
pub(crate) fn limits(text: &mut String) -> Answer {
    writeln!(
        text,
        "{MAX_CABLES} cables, {MAX_ROUTERS} routers, {MAX_NODES} nodes"
    )?;
    writeln!(
        text,
        "{MAX_ZONES} zones of a cable, {MAX_NAMES} names of a node"
    )?;
    writeln!(
        text,
        "{MAX_PORTS} ports, {MAX_ROWS} rows, {MAX_LISTS} zone lists of a router"
    )?;
    writeln!(text, "{MAX_MAPPINGS} mappings of a port or a node")?;
    Ok(())
}

/// Appends the results of the calls of a list of numbers, and whether it equals another one.
fn put_listed(text: &mut String, list: &Listed<u8>, other: &Listed<u8>) -> Answer {
    let (len, is_empty, same) = (
        list.len(),
        yes_or_no(list.is_empty()),
        yes_or_no(list == other),
    );
    write!(text, "{len} numbers, empty {is_empty}, equal {same}:")?;
    for number in list {
        write!(text, " {number}")?;
    }
    writeln!(text)?;
    for number in list.iter() {
        write!(text, "{number} ")?;
    }
    match list.last() {
        Some(number) => writeln!(text, "last {number}")?,
        None => writeln!(text, "no last")?,
    }
    Ok(())
}

fn list_of(alloc: Global, words: &mut Words<'_>) -> Result<Listed<u8>, Stop> {
    if words.passes("one") {
        let one = words.number()?;
        let _ = words.passes("/");
        return Ok(Listed::one(one));
    }
    Ok(Listed::from_vec(words.list(alloc, |words: &mut Words<'_>| words.number())?))
}

/// Compares two lists of numbers, as `7 8 9 / one 7`.
pub(crate) fn listed(alloc: Global, mut words: Words<'_>, text: &mut String) -> Answer {
    let list = list_of(alloc, &mut words)?;
    let other = list_of(alloc, &mut words)?;
    put_listed(text, &list, &other)
}
