//! Rows of routing tables as text, such as `30-39 distance 1 port 1 next 20.2 good`.

use at_base::{Addr, Range};
use case_words::{Stop, Words};
use rtmp::{RouteTable, Row, State};
use std::alloc::AllocError;

/// The state of a row.
pub(crate) fn state(words: &mut Words<'_>) -> Result<State, Stop> {
    Ok(match words.word() {
        "good" => State::Good,
        "suspect" => State::Suspect,
        "bad" => State::Bad,
        "last" => State::Last,
        _ => return Err(Stop::Unclear),
    })
}

fn state_word(state: State) -> &'static str {
    match state {
        State::Good => "good",
        State::Suspect => "suspect",
        State::Bad => "bad",
        State::Last => "last",
    }
}

/// An address after the word `next`.
fn next(words: &mut Words<'_>) -> Result<Addr, Stop> {
    words.expect("next")?;
    words.addr()
}

/// A row.
pub(crate) fn row(words: &mut Words<'_>) -> Result<Row, Stop> {
    Ok(Row {
        range: words.range()?,
        distance: words.named("distance")?,
        port: words.named("port")?,
        next: next(words)?,
        state: state(words)?,
    })
}

/// The row with its range moved up by a number of networks.
fn above(row: &Row, by: u16) -> Result<Row, Stop> {
    let start = row.range.start().saturating_add(by);
    let end = row.range.end().saturating_add(by);
    Ok(Row {
        range: Range::new(start, end)?,
        distance: row.distance,
        port: row.port,
        next: row.next,
        state: row.state,
    })
}

/// Appends rows with rising ranges, as `200 by 100 from` and the first row: 200 rows, each 100
/// networks above the one before it.
pub(crate) fn put_many(rows: &mut Vec<Row>, mut words: Words<'_>) -> Result<(), Stop> {
    let count: u16 = words.number()?;
    let step: u16 = words.named("by")?;
    words.expect("from")?;
    let first = row(&mut words)?;
    rows.reserve(count as usize)?;
    for index in 0..count {
        rows.push(above(&first, index.saturating_mul(step))?)?;
    }
    Ok(())
}

/// Appends the line of a row.
fn put_row(text: &mut String, row: &Row) -> Result<(), AllocError> {
    let (range, distance, port, next) = (row.range, row.distance, row.port, row.next);
    let state = state_word(row.state);
    writeln!(
        text,
        "{range} distance {distance} port {port} next {next} {state}"
    )
}

/// Appends the line of a row, or of a missing one.
pub(crate) fn put_found(text: &mut String, found: Option<Row>) -> Result<(), AllocError> {
    match found {
        Some(row) => put_row(text, &row),
        None => writeln!(text, "none"),
    }
}

/// Appends the lines of a table's rows, or `none` for an empty table.
pub(crate) fn put_rows<T: RouteTable>(text: &mut String, table: &T) -> Result<(), AllocError> {
    if table.len() == 0 {
        return put_found(text, table.row(0));
    }
    for index in 0..table.len() {
        put_found(text, table.row(index))?;
    }
    Ok(())
}

/// Whether a table has the row, which is often at this index or next to it.
fn has<T: RouteTable>(table: &T, index: usize, row: &Option<Row>) -> bool {
    for near in index.saturating_sub(1)..index.saturating_add(2) {
        if table.row(near) == *row {
            return true;
        }
    }
    for other in 0..table.len() {
        if table.row(other) == *row {
            return true;
        }
    }
    false
}

/// Appends, after a word, the rows of a table that another table doesn't have.
fn put_missing<T: RouteTable>(
    text: &mut String,
    word: &str,
    table: &T,
    other: &T,
) -> Result<(), AllocError> {
    for index in 0..table.len() {
        let row = table.row(index);
        if !has(other, index, &row) {
            write!(text, "{word} ")?;
            put_found(text, row)?;
        }
    }
    Ok(())
}

/// Appends the rows that only the first of two tables has, and then those that only the second has.
pub(crate) fn put_changes<T: RouteTable>(
    text: &mut String,
    table: &T,
    other: &T,
) -> Result<(), AllocError> {
    put_missing(text, "now", table, other)?;
    put_missing(text, "was", other, table)
}
