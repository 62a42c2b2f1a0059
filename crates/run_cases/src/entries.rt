//! Entries of transcripts, as text and as the lines of a trace.

use at_base::{Addr, Hw};
use cable_model::{DropCause, Entry, How, Kind};
use case_words::{Answer, Stop, Words, put_hw};
use frozen::Frozen;
use image_feed::read;
use rtmp::RouteTable;
use std::alloc::{AllocError, Global};
use table_image::Image;
use text::{put_address, put_decimal};
use trace_lines::Lines;

pub(crate) fn kind(words: &mut Words<'_>) -> Result<Kind, Stop> {
    match words.word() {
        "ddp" => Ok(Kind::Ddp),
        "aarp" => Ok(Kind::Aarp),
        _ => Err(Stop::Unclear),
    }
}

fn how(words: &mut Words<'_>) -> Result<How, Stop> {
    Ok(match words.word() {
        "station" => How::Station,
        "all" => How::All,
        "own" => How::Own,
        "absent" => How::Absent,
        "held" => How::Held,
        _ => return Err(Stop::Unclear),
    })
}

fn cause(words: &mut Words<'_>) -> Result<DropCause, Stop> {
    match words.word() {
        "no-route" => Ok(DropCause::NoRoute),
        "hop-limit" => Ok(DropCause::HopLimit),
        _ => Err(Stop::Unclear),
    }
}

fn put(words: &mut Words<'_>) -> Result<Entry, Stop> {
    let stamp = words.number()?;
    let cable = words.named("cable")?;
    let sender = words.named("station")?;
    words.expect("to")?;
    Ok(Entry::Put {
        stamp,
        cable,
        sender,
        to: words.hw()?,
        kind: kind(words)?,
        bytes: 0,
    })
}

fn reached(words: &mut Words<'_>) -> Result<Entry, Stop> {
    let cable = words.named("cable")?;
    let station = words.named("station")?;
    let how = how(words)?;
    Ok(Entry::Reached {
        cable,
        station,
        how,
        bytes: 0,
    })
}

fn hold(words: &mut Words<'_>) -> Result<Entry, Stop> {
    let stamp = words.number()?;
    let cable = words.named("cable")?;
    let station = words.named("station")?;
    words.expect("next")?;
    Ok(Entry::Hold {
        stamp,
        cable,
        station,
        next: words.addr()?,
        bytes: 0,
    })
}

/// An entry, as `reached cable 0 station 2 all`. Cables and stations count from 0.
fn entry(words: &mut Words<'_>) -> Result<Entry, Stop> {
    Ok(match words.word() {
        "sent" => Entry::Sent {
            station: words.named("station")?,
            bytes: 0,
        },
        "put" => put(words)?,
        "took" => Entry::Took {
            stamp: words.number()?,
            station: words.named("station")?,
        },
        "reached" => reached(words)?,
        "dropped" => Entry::Dropped {
            router: words.named("station")?,
            cause: cause(words)?,
            bytes: 0,
        },
        "lost" => Entry::Lost {
            stamp: words.number()?,
        },
        "hold" => hold(words)?,
        _ => return Err(Stop::Unclear),
    })
}

/// Appends ASCII text.
fn put_ascii(text: &mut String, bytes: &[u8]) -> Result<(), AllocError> {
    for byte in bytes {
        text.push(*byte as char)?;
    }
    Ok(())
}

fn lines_of(alloc: Global, image: &Image, entries: &str) -> Result<Vec<u8>, Stop> {
    let mut lines = Lines::new(alloc, image)?;
    let mut made = Vec::new(alloc);
    for line in entries.lines() {
        let mut words = Words::new(line);
        let entry = entry(&mut words)?;
        let bytes = words.bytes(alloc)?;
        lines.append(&mut made, &entry, bytes.as_slice())?;
    }
    Ok(made)
}

/// Appends the lines of the entries over the image of the bytes.
pub(crate) fn print(alloc: Global, bytes: &[u8], entries: &str, text: &mut String) -> Answer {
    let image = read(alloc, bytes)?;
    let made = lines_of(alloc, &image, entries)?;
    put_ascii(text, made.as_slice())?;
    Ok(())
}

/// Appends an address and a number as traces print them.
pub(crate) fn decimal(alloc: Global, mut words: Words<'_>, text: &mut String) -> Answer {
    let addr: Addr = words.addr()?;
    let number: u32 = words.number()?;
    let mut made = Vec::new(alloc);
    put_address(&mut made, addr)?;
    made.push(b' ')?;
    put_decimal(&mut made, number)?;
    put_ascii(text, made.as_slice())?;
    writeln!(text)?;
    Ok(())
}

fn how_word(how: How) -> &'static str {
    match how {
        How::Station => "station",
        How::All => "all",
        How::Own => "own",
        How::Absent => "absent",
        How::Held => "held",
    }
}

pub(crate) fn kind_word(kind: Kind) -> &'static str {
    match kind {
        Kind::Ddp => "ddp",
        Kind::Aarp => "aarp",
    }
}

/// Appends a frame, up to its receiver.
fn put_frame(
    text: &mut String,
    stamp: u32,
    cable: u8,
    sender: u16,
    to: Hw,
) -> Result<(), AllocError> {
    write!(text, "put {stamp} cable {cable} station {sender} to ")?;
    put_hw(text, to)
}

/// Appends a datagram that reached a cable.
fn put_reached(text: &mut String, cable: u8, station: u16, how: How) -> Result<(), AllocError> {
    let how = how_word(how);
    write!(text, "reached cable {cable} station {station} {how}")
}

/// Appends an entry as text, without the number of its bytes.
fn put_start(text: &mut String, entry: &Entry) -> Result<(), AllocError> {
    match *entry {
        Entry::Sent { station, .. } => write!(text, "sent station {station}"),
        Entry::Put {
            stamp,
            cable,
            sender,
            to,
            kind,
            ..
        } => {
            put_frame(text, stamp, cable, sender, to)?;
            let kind = kind_word(kind);
            write!(text, " {kind}")
        }
        Entry::Took { stamp, station } => write!(text, "took {stamp} station {station}"),
        Entry::Reached {
            cable,
            station,
            how,
            ..
        } => put_reached(text, cable, station, how),
        Entry::Dropped { router, cause, .. } => {
            write!(text, "dropped station {router} {cause:?}")
        }
        Entry::Lost { stamp } => write!(text, "lost {stamp}"),
        Entry::Hold {
            stamp,
            cable,
            station,
            next,
            ..
        } => write!(
            text,
            "hold {stamp} cable {cable} station {station} next {next}"
        ),
    }
}

/// Appends an entry as text, with the number of its bytes.
fn put_entry(text: &mut String, entry: &Entry) -> Result<(), AllocError> {
    put_start(text, entry)?;
    match number_of(entry) {
        Some(bytes) => writeln!(text, " bytes {bytes}"),
        None => writeln!(text),
    }
}

/// Appends the entries of a transcript as text.
pub(crate) fn put_entries(text: &mut String, entries: &[Entry]) -> Result<(), AllocError> {
    for entry in entries {
        put_entry(text, entry)?;
    }
    Ok(())
}

/// The number of the bytes that an entry names.
pub(crate) fn number_of(entry: &Entry) -> Option<u32> {
    match *entry {
        Entry::Sent { bytes, .. }
        | Entry::Put { bytes, .. }
        | Entry::Reached { bytes, .. }
        | Entry::Dropped { bytes, .. }
        | Entry::Hold { bytes, .. } => Some(bytes),
        Entry::Took { .. } | Entry::Lost { .. } => None,
    }
}

/// Appends the lines of a run's entries from an index on.
pub(crate) fn put_trace<T: RouteTable>(
    alloc: Global,
    run: &Frozen<T>,
    from: usize,
    text: &mut String,
) -> Answer {
    let mut lines = Lines::new(alloc, run.image())?;
    let mut made = Vec::new(alloc);
    for (place, entry) in run.transcript().iter().enumerate() {
        let bytes = match number_of(entry) {
            Some(number) => run.bytes(number),
            None => &[],
        };
        if place == from {
            made.clear();
        }
        lines.append(&mut made, entry, bytes)?;
    }
    if from < run.transcript().len() {
        put_ascii(text, made.as_slice())?;
    }
    Ok(())
}
