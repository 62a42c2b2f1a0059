//! Stations that ask: how a case begins one, and what is told of its questions.

use at_base::{Addr, Text32};
use case_words::{Answer, Stop, Words, put_text};
use rtmp::Horizon;
use std::alloc::{AllocError, Global};
use survey::{Aim, Asker, First, Open, Pattern, Question, Sought, Stage, Told, Wanted};
use zip_zones::ZoneFunction;

/// The aim of a station that asks one question, so often anew.
fn once(to: Option<Addr>, wanted: Wanted, times: u16) -> Aim {
    Aim {
        first: Some(First { to, wanted, times }),
        spreads: false,
        pattern: None,
    }
}

/// An address, or the router where there is none.
fn whom(words: &mut Words<'_>) -> Result<Option<Addr>, Stop> {
    if words.is_empty() {
        return Ok(None);
    }
    Ok(Some(words.addr()?))
}

/// What lists of zones are asked for, from their first name on.
fn list(words: &mut Words<'_>) -> Result<Wanted, Stop> {
    match words.word() {
        "all" => Ok(Wanted::List(ZoneFunction::GetZoneList, 1)),
        "local" => Ok(Wanted::List(ZoneFunction::GetLocalZones, 1)),
        "mine" => Ok(Wanted::List(ZoneFunction::GetMyZone, 0)),
        _ => Err(Stop::Unclear),
    }
}

/// Names of every object and type.
fn every(alloc: Global, words: &mut Words<'_>) -> Result<Pattern, Stop> {
    Ok(Pattern {
        object: words.text32(alloc)?,
        kind: words.text32(alloc)?,
    })
}

/// Names in a zone.
fn names(alloc: Global, words: &mut Words<'_>) -> Result<Aim, Stop> {
    let sought = Sought {
        object: words.text32(alloc)?,
        kind: words.text32(alloc)?,
        zone: words.text32(alloc)?,
    };
    Ok(once(None, Wanted::Names(sought), 1))
}

/// Names in the zones that are learnt; the station's own zone is asked for first.
fn search(alloc: Global, words: &mut Words<'_>) -> Result<Aim, Stop> {
    let first = once(None, Wanted::List(ZoneFunction::GetMyZone, 0), 1);
    Ok(Aim {
        pattern: Some(every(alloc, words)?),
        ..first
    })
}

/// All that routers hold, and the names in all zones.
fn survey(alloc: Global, words: &mut Words<'_>) -> Result<Aim, Stop> {
    Ok(Aim {
        first: None,
        spreads: true,
        pattern: Some(every(alloc, words)?),
    })
}

/// What a station is to ask, as `echo 10.2 times 3`, `routes`, `zones mine` or `survey "=" "="`.
fn aim(alloc: Global, words: &mut Words<'_>) -> Result<Aim, Stop> {
    match words.word() {
        "echo" => {
            let to = words.addr()?;
            Ok(once(Some(to), Wanted::Echo, words.named("times")?))
        }
        "routes" => Ok(once(whom(words)?, Wanted::Routes(Horizon::Whole), 1)),
        "zones" => Ok(once(None, list(words)?, 1)),
        "names" => names(alloc, words),
        "search" => search(alloc, words),
        "survey" => survey(alloc, words),
        _ => Err(Stop::Unclear),
    }
}

/// The station that asks, as `020000000077 echo 10.2 times 1`.
pub(crate) fn asker_of(alloc: Global, words: &mut Words<'_>) -> Result<Asker, Stop> {
    let hw = words.hw()?;
    let aim = aim(alloc, words)?;
    Ok(Asker::new(alloc, hw, &aim)?)
}

/// Appends what is asked.
fn put_wanted(text: &mut String, wanted: &Wanted) -> Result<(), AllocError> {
    match wanted {
        Wanted::Echo => write!(text, "echo"),
        Wanted::Routes(Horizon::Split) => write!(text, "routes split"),
        Wanted::Routes(Horizon::Whole) => write!(text, "routes whole"),
        Wanted::Zones(net) => write!(text, "zones {net}"),
        Wanted::List(function, start) => write!(text, "list {} {start}", function.number()),
        Wanted::Names(sought) => {
            write!(text, "names ")?;
            put_text(text, sought.object.as_slice())?;
            write!(text, " ")?;
            put_text(text, sought.kind.as_slice())?;
            write!(text, " ")?;
            put_text(text, sought.zone.as_slice())
        }
    }
}

/// Appends the line of what happened to a question.
fn put_item(text: &mut String, what: &str, item: &Open) -> Result<(), AllocError> {
    let (id, times, to) = (item.id, item.times, item.question.to);
    write!(text, "{what} {id} times {times} to {to} ")?;
    put_wanted(text, &item.question.wanted)?;
    writeln!(text)
}

/// Appends a line for each thing that happened to a question in the last step.
fn put_told(text: &mut String, told: &[Told]) -> Result<(), AllocError> {
    for it in told {
        match it {
            Told::Asked(item) => put_item(text, "asked", item)?,
            Told::Answered(item) => put_item(text, "answered", item)?,
            Told::Silent(item) => put_item(text, "silent", item)?,
        }
    }
    Ok(())
}

/// Appends how far a station has come.
fn put_stage(text: &mut String, asker: &Asker) -> Result<(), AllocError> {
    match asker.stage() {
        Stage::Listens => write!(text, "listens")?,
        Stage::Chooses => write!(text, "chooses")?,
        Stage::Settled(own) => write!(text, "has {own}")?,
    }
    writeln!(text, "{}", if asker.is_through() { ", done" } else { "" })
}

/// Answers a question about the state of a station that asks.
pub(crate) fn ask_asker(asker: &Asker, mut words: Words<'_>, text: &mut String) -> Answer {
    match words.word() {
        "told" => put_told(text, asker.told())?,
        "stage" => put_stage(text, asker)?,
        _ => return Err(Stop::Unclear),
    }
    if text.as_str().is_empty() {
        writeln!(text, "nothing")?;
    }
    Ok(())
}
