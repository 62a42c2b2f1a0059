//! Zone tables.

use crate::zone_words::{names, put_each, put_names, put_ranges};
use at_base::{Error, Range};
use case_words::{Answer, Stop, Words, yes_or_no};
use rtmp::RouteTable;
use std::alloc::Global;
use zip_zones::ZoneTable;

/// A zone table, and another that may be a copy of it.
#[derive(Drop)]
pub(crate) struct Zones {
    pub(crate) table: ZoneTable,
    other: ZoneTable,
}

/// Sets the list of a range.
fn set(alloc: Global, table: &mut ZoneTable, mut words: Words<'_>) -> Answer {
    let range = words.range()?;
    let names = names(alloc, &mut words)?;
    table.set(range, names.as_slice())?;
    Ok(())
}

/// Adds a name to the list of a range, with the number of all its zones.
fn add(alloc: Global, table: &mut ZoneTable, mut words: Words<'_>) -> Answer {
    let range = words.range()?;
    let total = words.named("of")?;
    let name = words.name(alloc)?;
    table.add(range, total, &name)?;
    Ok(())
}

/// Appends a list after all others, with a least number of zones.
fn append(alloc: Global, table: &mut ZoneTable, mut words: Words<'_>) -> Answer {
    let range = words.range()?;
    let least = words.named("least")?;
    let names = names(alloc, &mut words)?;
    table.append(range, least, names.as_slice())?;
    Ok(())
}

/// Appends whether the network's list has a zone.
fn has(alloc: Global, table: &ZoneTable, mut words: Words<'_>, text: &mut String) -> Answer {
    let net = words.number()?;
    let name = words.name(alloc)?;
    let has = yes_or_no(table.lists(net, &name));
    writeln!(text, "{has}")?;
    Ok(())
}

/// Appends whether the network's list is complete.
fn complete(table: &ZoneTable, mut words: Words<'_>, text: &mut String) -> Answer {
    let complete = yes_or_no(table.complete(words.number()?));
    writeln!(text, "{complete}")?;
    Ok(())
}

/// Appends the ranges that have a zone.
fn cables(alloc: Global, table: &ZoneTable, mut words: Words<'_>, text: &mut String) -> Answer {
    let name = words.name(alloc)?;
    put_ranges(text, table.cables_of(&name)?.as_slice())?;
    Ok(())
}

/// Appends the list of a range: whether it is complete, and its names.
fn put_list(text: &mut String, table: &ZoneTable, range: Range) -> Answer {
    let state = if table.complete(range.start()) {
        "complete"
    } else {
        "incomplete"
    };
    write!(text, "{range} {state}")?;
    put_names(text, table.names_of(range.end())?.as_slice())?;
    writeln!(text)?;
    Ok(())
}

/// Appends all lists.
fn put_lists(text: &mut String, table: &ZoneTable) -> Answer {
    if table.len() == 0 {
        writeln!(text, "none")?;
    }
    for index in 0..table.len() {
        if let Some(range) = table.range_at(index) {
            put_list(text, table, range)?;
        }
    }
    Ok(())
}

/// Appends the range at an index.
fn put_at(text: &mut String, table: &ZoneTable, mut words: Words<'_>) -> Answer {
    match table.range_at(words.number()?) {
        Some(range) => writeln!(text, "{range}")?,
        None => writeln!(text, "none")?,
    }
    Ok(())
}

fn put_count(text: &mut String, table: &ZoneTable) -> Answer {
    let len = table.len();
    writeln!(text, "{len}")?;
    Ok(())
}

/// Appends the networks for whose zones a router with these routes asks.
fn put_due<T: RouteTable>(text: &mut String, table: &ZoneTable, routes: &T) -> Answer {
    let due = table.queries_due(routes)?;
    if due.is_empty() {
        writeln!(text, "none")?;
    }
    for start in due.iter() {
        let start = *start;
        writeln!(text, "{start}")?;
    }
    Ok(())
}

impl Zones {
    /// Two tables without lists.
    pub(crate) fn new(alloc: Global) -> Result<Zones, Error> {
        Ok(Zones {
            table: ZoneTable::new(alloc)?,
            other: ZoneTable::new(alloc)?,
        })
    }

    /// Carries out a command that changes a table.
    pub(crate) fn change(&mut self, alloc: Global, mut words: Words<'_>) -> Answer {
        match words.word() {
            "set" => set(alloc, &mut self.table, words)?,
            "add" => add(alloc, &mut self.table, words)?,
            "append" => append(alloc, &mut self.table, words)?,
            "remove" => self.table.remove(words.range()?),
            "copy" => self.other = self.table.copy()?,
            "swap" => std::mem::swap(&mut self.table, &mut self.other),
            _ => return Err(Stop::Unclear),
        }
        Ok(())
    }

    /// Carries out a command if it reads a table. Returns whether it does.
    pub(crate) fn read<T: RouteTable>(
        &self,
        alloc: Global,
        routes: &T,
        mut words: Words<'_>,
        text: &mut String,
    ) -> Result<bool, Stop> {
        let table = &self.table;
        match words.word() {
            "list" => put_lists(text, table)?,
            "count" => put_count(text, table)?,
            "at" => put_at(text, table, words)?,
            "complete" => complete(table, words, text)?,
            "has" => has(alloc, table, words, text)?,
            "cables" => cables(alloc, table, words, text)?,
            "names" => put_each(text, table.names_of(words.number()?)?.as_slice())?,
            "all" => put_each(text, table.all()?.as_slice())?,
            "due" => put_due(text, table, routes)?,
            _ => return Ok(false),
        }
        Ok(true)
    }
}
