//! The words of a question to stations on real cables.

use crate::performed::Performed;
use at_base::{Addr, Error, Text32};
use clap::error::ErrorKind as ParseError;
use command_line::Outcome;
use rtmp::Horizon;
use std::alloc::Global;
use survey::{Aim, First, Pattern, Sought, Wanted};
use text::address;
use text::hex::nibble;
use text::number::number;
use zip_zones::ZoneFunction;

/// The words of a question, and of its options.
#[derive(Clone, Copy)]
pub struct Words<'a> {
    pub question: &'a [&'a str],
    pub local: bool,
    pub mine: bool,
    pub count: Option<&'a str>,
}

/// What a station is to ask, and whether zones are what is asked for.
#[derive(Clone, Copy)]
pub struct Meant {
    pub aim: Aim,
    pub zones: bool,
}

/// A usage error, whose text was printed.
fn misused<'a>() -> Performed<'a> {
    Performed::misused(ParseError::InvalidValue)
}

/// One question, to a station or to the nearest router.
fn one(to: Option<Addr>, wanted: Wanted, times: u16) -> Aim {
    Aim {
        first: Some(First { to, wanted, times }),
        spreads: false,
        pattern: None,
    }
}

/// How many echoes are asked for.
fn times_in<'a>(rt: &HostRuntime, count: Option<&str>) -> Result<u16, Performed<'a>> {
    let Some(word) = count else {
        return Ok(1);
    };
    match number(65_535, word.as_bytes()) {
        Some(times) if times > 0 => Ok(times as u16),
        _ => {
            let _ = eprintln!(rt; "error: --count {word} is no number of echoes");
            Err(misused())
        }
    }
}

/// The station in a word.
fn station_in<'a>(rt: &HostRuntime, word: &str) -> Result<Addr, Performed<'a>> {
    match address(word.as_bytes()) {
        Some(addr) if addr.net != 0 && addr.node != 0 && addr.node != 255 => Ok(addr),
        _ => {
            let _ = eprintln!(rt; "error: {word} is no address of a station, as 10.7");
            Err(misused())
        }
    }
}

/// The router or the routers in a word: node 0 is any router of the network, and 255 each of them.
fn router_in<'a>(rt: &HostRuntime, word: &str) -> Result<Addr, Performed<'a>> {
    match address(word.as_bytes()) {
        Some(addr) if addr.net != 0 => Ok(addr),
        _ => {
            let _ = eprintln!(rt; "error: {word} is no address of a router, as 10.130");
            Err(misused())
        }
    }
}

/// The first byte of a text in which a byte may be written as `\x8E`, and what follows it.
fn byte_in(text: &[u8]) -> Option<(u8, &[u8])> {
    if let [b'\\', b'x', high, low, rest @ ..] = text {
        if let (Some(high), Some(low)) = (nibble(*high), nibble(*low)) {
            return Some((high * 16 + low, rest));
        }
    }
    match text {
        [first, rest @ ..] => Some((*first, rest)),
        [] => None,
    }
}

/// The bytes of a text in which a byte may be written as `\x8E`. Error: `Memory`.
fn bytes_in(alloc: Global, word: &[u8]) -> Result<Vec<u8>, Error> {
    let mut bytes = Vec::new(alloc);
    let mut rest = word;
    for _ in 0..word.len() {
        let Some((byte, more)) = byte_in(rest) else {
            break;
        };
        bytes.push(byte)?;
        rest = more;
    }
    Ok(bytes)
}

/// The text of 1 to 32 bytes in a word, if it is one. Error: `Memory`.
fn text_in(alloc: Global, word: &str) -> Result<Option<Text32>, Error> {
    let bytes = bytes_in(alloc, word.as_bytes())?;
    if bytes.is_empty() {
        return Ok(None);
    }
    Ok(Text32::new(bytes.as_slice()).ok())
}

/// The names in a word without its zone, if it has some. Error: `Memory`.
fn pattern_in(alloc: Global, word: &str) -> Result<Option<Pattern>, Error> {
    let Some((object, kind)) = word.rsplit_once(':') else {
        return Ok(None);
    };
    match (text_in(alloc, object)?, text_in(alloc, kind)?) {
        (Some(object), Some(kind)) => Ok(Some(Pattern { object, kind })),
        _ => Ok(None),
    }
}

/// The question for the zone of the station, and then for names there.
fn names_here(pattern: Pattern) -> Aim {
    Aim {
        pattern: Some(pattern),
        ..one(None, Wanted::List(ZoneFunction::GetMyZone, 0), 1)
    }
}

/// The question for names in a zone.
fn names_there(pattern: Pattern, zone: Text32) -> Aim {
    let Pattern { object, kind } = pattern;
    one(None, Wanted::Names(Sought { object, kind, zone }), 1)
}

/// The question for names in a word, if it is one. Error: `Memory`.
fn names_in(alloc: Global, word: &str) -> Result<Option<Aim>, Error> {
    let (name, zone) = match word.rsplit_once('@') {
        Some((name, zone)) => (name, zone),
        None => (word, "*"),
    };
    let Some(pattern) = pattern_in(alloc, name)? else {
        return Ok(None);
    };
    if zone == "*" {
        return Ok(Some(names_here(pattern)));
    }
    match text_in(alloc, zone)? {
        Some(zone) => Ok(Some(names_there(pattern, zone))),
        None => Ok(None),
    }
}

/// The question for names in a word.
fn names_asked<'a>(rt: &HostRuntime, word: &str) -> Result<Aim, Performed<'a>> {
    match names_in(rt.alloc(), word) {
        Ok(Some(aim)) => Ok(aim),
        Ok(None) => {
            let _ = eprintln!(rt; "error: {word} is no name, as =:LaserWriter@Blue");
            Err(misused())
        }
        Err(error) => Err(Performed::without_source(Outcome::Answered(Err(error)))),
    }
}

/// Which zones are asked for. A list is asked for from its first name on; of one zone there is no list,
/// and netatalk's atalkd refuses another index than 0 there.
fn zones_asked(words: Words<'_>) -> Wanted {
    match (words.local, words.mine) {
        (_, true) => Wanted::List(ZoneFunction::GetMyZone, 0),
        (true, false) => Wanted::List(ZoneFunction::GetLocalZones, 1),
        (false, false) => Wanted::List(ZoneFunction::GetZoneList, 1),
    }
}

/// Refuses options that another question has.
fn check_options<'a>(rt: &HostRuntime, words: Words<'_>) -> Result<(), Performed<'a>> {
    let first = match words.question {
        [first, ..] => *first,
        [] => "",
    };
    if words.count.is_some() && first != "echo" {
        let _ = eprintln!(rt; "error: --count asks for echo");
        return Err(misused());
    }
    if (words.local || words.mine) && first != "zones" {
        let _ = eprintln!(rt; "error: --local and --mine ask for zones");
        return Err(misused());
    }
    if words.local && words.mine {
        let _ = eprintln!(rt; "error: --local and --mine are two questions");
        return Err(misused());
    }
    Ok(())
}

/// What a station is to ask, by the words of a question.
pub fn meant_by<'a>(rt: &HostRuntime, words: Words<'_>) -> Result<Meant, Performed<'a>> {
    check_options(rt, words)?;
    let rows = Wanted::Routes(Horizon::Whole);
    let aim = match words.question {
        ["echo", word] => {
            let station = station_in(rt, *word)?;
            one(Some(station), Wanted::Echo, times_in(rt, words.count)?)
        }
        ["names", word] => names_asked(rt, *word)?,
        ["zones"] => one(None, zones_asked(words), 1),
        ["routes"] => one(None, rows, 1),
        ["routes", word] => one(Some(router_in(rt, *word)?), rows, 1),
        _ => {
            let _ = eprintln!(rt;
                "error: a question is echo ADDR, names OBJECT:TYPE@ZONE, zones, routes, or routes ADDR"
            );
            return Err(misused());
        }
    };
    Ok(Meant {
        aim,
        zones: aim.pattern.is_none(),
    })
}
