//! Routing tables.

ghost use Rattle.std.specs.Prelude.{◌≡◌, nat_le};
ghost use Rattle.std.specs.List.{list_all};

use crate::equality::compare;
use crate::rows::{put_changes, put_found, put_many, put_rows, row};
use crate::spelling::put_groups;
use at_base::{Addr, Bytes, Error, Range};
use case_words::{Answer, Stop, Words, put_hex};
use rtmp::{
    Change, DataPacket, Horizon, Nonextended, RouteTable, Row, hear_packet, write_data,
    write_response,
};
use std::alloc::{AllocError, Global};

/// A routing table, another that may be a copy of it, and the rows for the next load.
#[derive(Drop)]
pub(crate) struct Routes<T: RouteTable> {
    pub(crate) table: T,
    other: T,
    given: Vec<Row>,
}

fn are_near(rows: &[Row]) -> bool
    ensures { result ≡ list_all (λ r. nat_le r.distance 31) rows.now }
{
    rows.iter().all(|row| row.distance <= 31)
}

/// Loads the rows, whose distances must be at most 31.
fn load<T: RouteTable>(table: &mut T, rows: &[Row]) -> Answer {
    if !are_near(rows) {
        return Err(Stop::Unclear);
    }
    table.load(rows)?;
    Ok(())
}

fn change_word(change: Change) -> &'static str {
    match change {
        Change::Ignored => "ignored",
        Change::Changed => "changed",
        Change::Added => "added",
    }
}

fn from(words: &mut Words<'_>) -> Result<Addr, Stop> {
    words.expect("from")?;
    words.addr()
}

/// Handles a report that a range is at a distance.
fn hear<T: RouteTable>(table: &mut T, mut words: Words<'_>, text: &mut String) -> Answer {
    let range = words.range()?;
    let distance = words.named("distance")?;
    let source = from(&mut words)?;
    let port = words.named("port")?;
    let change = change_word(table.hear(range, distance, source, port)?);
    writeln!(text, "{change}")?;
    Ok(())
}

/// What is made of nonextended tuples: they are ranges after the word `as-ranges`.
pub(crate) fn nonextended(words: &mut Words<'_>) -> Nonextended {
    if words.passes("as-ranges") {
        Nonextended::AsRanges
    } else {
        Nonextended::Skipped
    }
}

/// Handles a packet of routing data.
fn hear_bytes<T: RouteTable>(alloc: Global, table: &mut T, mut words: Words<'_>) -> Answer {
    let port = words.named("port")?;
    let nonextended = nonextended(&mut words);
    let bytes = words.bytes(alloc)?;
    hear_packet(
        table,
        &DataPacket::read(bytes.as_slice())?,
        port,
        nonextended,
    )?;
    Ok(())
}

/// The packet of routing data with a number, as a router sends it on a port: of all rows after the
/// word `whole`.
fn sent<T: RouteTable>(
    alloc: Global,
    table: &T,
    mut words: Words<'_>,
) -> Result<Option<Bytes>, Stop> {
    let horizon = if words.passes("whole") {
        Horizon::Whole
    } else {
        Horizon::Split
    };
    let number = words.number()?;
    let port = words.named("port")?;
    words.expect("of")?;
    let own: Range = words.range()?;
    words.expect("as")?;
    let me = words.addr()?;
    Ok(write_data(alloc, table, horizon, port, own, me, number)?)
}

/// The response to a request for the router of a cable.
fn response(alloc: Global, mut words: Words<'_>) -> Result<Option<Bytes>, Stop> {
    words.expect("of")?;
    let own: Range = words.range()?;
    words.expect("as")?;
    Ok(Some(write_response(alloc, own, words.addr()?)?))
}

/// Appends a packet: its first four bytes, and then its tuples.
fn put_sent(text: &mut String, sent: &Option<Bytes>) -> Result<(), AllocError> {
    match sent {
        Some(bytes) => match bytes.as_slice() {
            [a, b, c, d, tuples @ ..] => {
                put_hex(text, &[*a, *b, *c, *d])?;
                put_groups(text, tuples, 6)
            }
            short => put_groups(text, short, 6),
        },
        None => writeln!(text, "none"),
    }
}

impl<T: RouteTable> Routes<T> {
    /// Two tables without rows.
    pub(crate) fn new(alloc: Global) -> Result<Routes<T>, Error> {
        Ok(Routes {
            table: T::empty(alloc)?,
            other: T::empty(alloc)?,
            given: Vec::new(alloc),
        })
    }

    /// Loads the rows that were given since the last load.
    fn load(&mut self) -> Answer {
        let answer = load(&mut self.table, self.given.as_slice());
        if answer != Err(Stop::Refused(Error::Memory)) {
            self.given.clear();
        }
        answer
    }

    fn direct(&mut self, mut words: Words<'_>) -> Answer {
        let range = words.range()?;
        let port = words.named("port")?;
        self.table.direct(range, port)?;
        Ok(())
    }

    /// Carries out a command that changes a table.
    fn change(&mut self, alloc: Global, mut words: Words<'_>, text: &mut String) -> Answer {
        match words.word() {
            "row" => self.given.push(row(&mut words)?)?,
            "rows" => put_many(&mut self.given, words)?,
            "load" => self.load()?,
            "direct" => self.direct(words)?,
            "hear" => hear(&mut self.table, words, text)?,
            "packet" => hear_bytes(alloc, &mut self.table, words)?,
            "age" => self.table.age(),
            "poison" => self.table.poison(words.addr()?),
            "copy" => self.other = self.table.copy()?,
            "swap" => std::mem::swap(&mut self.table, &mut self.other),
            _ => return Err(Stop::Unclear),
        }
        Ok(())
    }

    fn put_count(&self, text: &mut String) -> Answer {
        let len = self.table.len();
        writeln!(text, "{len}")?;
        Ok(())
    }

    /// Carries out a command that reads or changes a table.
    pub(crate) fn act(&mut self, alloc: Global, words: Words<'_>, text: &mut String) -> Answer {
        let mut after = words;
        match after.word() {
            "list" => put_rows(text, &self.table)?,
            "changes" => put_changes(text, &self.table, &self.other)?,
            "count" => self.put_count(text)?,
            "at" => put_found(text, self.table.row(after.number()?))?,
            "for" => put_found(text, self.table.row_for(after.number()?))?,
            "send" => put_sent(text, &sent(alloc, &self.table, after)?)?,
            "respond" => put_sent(text, &response(alloc, after)?)?,
            "compare" => compare(alloc, self.given.as_slice(), after, text)?,
            _ => self.change(alloc, words, text)?,
        }
        Ok(())
    }
}
