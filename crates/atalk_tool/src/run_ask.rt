//! A station on a real cable that asks: a survey of routers, or one question.

use crate::asking::{Asking, Tells};
use crate::explain::Evidence;
use crate::performed::Performed;
use crate::question_words::{Words, meant_by};
use crate::telling::{Lines, Telling};
use asked_lines::{Answers, Log, Style};
use at_base::{Bytes, Error, Hw, Text32};
use clap::error::ErrorKind as ParseError;
use command_line::{Outcome, Station};
use routing::{Cable, Called, Routing, Stream};
use std::io::writer;
use survey::{Aim, Asker, Pattern};
use text::Output;
use text::hex::pairs;

/// The networks that cables may have: which of them the cable has isn't known when its capture begins.
const FIRST: u16 = 1;

const LAST: u16 = 65_279;

/// A station on a real cable.
#[derive(Drop)]
struct Seat {
    cable: Bytes,
    hw: Hw,
}

/// A run that ended with an error.
fn failed<'a>(error: Error) -> Performed<'a> {
    Performed::without_source(Outcome::Answered(Err(error)))
}

/// The hardware address of six bytes, if it is that of one station.
fn hardware_of(bytes: &[u8]) -> Option<Hw> {
    match bytes {
        [a, b, c, d, e, f] if *a % 2 == 0 => {
            let hw = Hw([*a, *b, *c, *d, *e, *f]);
            if hw.same(&Hw([0; 6])) { None } else { Some(hw) }
        }
        _ => None,
    }
}

/// The hardware address in the word of `--hardware`.
fn hardware_in<'a>(rt: &HostRuntime, word: &str) -> Result<Hw, Performed<'a>> {
    let bytes = match pairs(rt.alloc(), word.as_bytes()) {
        Ok(Some(bytes)) => bytes,
        Ok(None) => Bytes::from_vec(Vec::new(rt.alloc())),
        Err(error) => return Err(failed(error)),
    };
    match hardware_of(bytes.as_slice()) {
        Some(hw) => Ok(hw),
        None => {
            let _ = eprintln!(rt;
                "error: --hardware {word} is no address of a station, as 02004E560001"
            );
            Err(Performed::misused(ParseError::InvalidValue))
        }
    }
}

/// The station in the words of a command line.
fn seat_in<'a>(rt: &HostRuntime, station: Station<'_>) -> Result<Seat, Performed<'a>> {
    let hw = hardware_in(rt, station.hardware)?;
    if station.cable.is_empty() {
        let _ = eprintln!(rt; "error: --cable is empty");
        return Err(Performed::misused(ParseError::InvalidValue));
    }
    match Bytes::copy(rt.alloc(), station.cable.as_bytes()) {
        Ok(cable) => Ok(Seat { cable, hw }),
        Err(error) => Err(failed(error)),
    }
}

/// A station over standard input that is to ask, of which nothing was read.
fn begun(rt: &HostRuntime, seat: Seat, aim: &Aim) -> Result<Routing<Asker>, Error> {
    let alloc = rt.alloc();
    let Seat { cable, hw } = seat;
    let asker = Asker::new(alloc, hw, aim)?;
    let mut calls = Vec::with_capacity(alloc, 1)?;
    calls.push(Called::only(cable))?;
    Ok(Routing::new(alloc, asker, calls))
}

/// Runs a station over standard input, until it is done or the input ends.
fn run_over<'a>(rt: &HostRuntime, routing: Routing<Asker>, asking: Asking<'_>) -> Performed<'a> {
    let output = Output::new(rt.alloc(), writer(rt));
    let mut stream = Stream::new(routing, output, asking);
    let cables = [Cable {
        index: 0,
        start: FIRST,
        end: LAST,
    }];
    let answer = match stream.begin(&cables) {
        Ok(()) => stream.run(rt.alloc(), &mut rt.reader()),
        Err(error) => Err(error),
    };
    let answer = match answer {
        Ok(()) => Ok(stream.watch.end(stream.routing.station())),
        Err(error) => Err(error),
    };
    Performed {
        outcome: Outcome::Answered(answer),
        evidence: Evidence::of(None),
    }
}

/// Runs a station that is to ask.
fn run_station<'a>(
    rt: &HostRuntime,
    station: Station<'_>,
    aim: &Aim,
    asking: Asking<'_>,
) -> Performed<'a> {
    let seat = match seat_in(rt, station) {
        Ok(seat) => seat,
        Err(performed) => return performed,
    };
    match begun(rt, seat, aim) {
        Ok(routing) => run_over(rt, routing, asking),
        Err(error) => failed(error),
    }
}

/// What a survey asks: each router for all that it holds, and each zone for its names.
fn survey_aim() -> Aim {
    let every = Text32::new(b"=").unwrap();
    Aim {
        first: None,
        spreads: true,
        pattern: Some(Pattern {
            object: every,
            kind: every,
        }),
    }
}

/// Asks routers on a real cable, and those that they tell of, for all that they hold.
pub fn run_survey<'a>(rt: &HostRuntime, station: Station<'_>, log: bool) -> Performed<'a> {
    let aim = survey_aim();
    if log {
        // Between two questions at most eleven ticks pass, and each is asked at most three times.
        let _ = eprintln!(rt;
            "at most 800 ticks, and 36 for each question: 5 to each address of a router and one for \
            each network there, 2 about each network, 1 about each zone"
        );
    }
    let asking = Asking::new(rt, Style::Text, Tells::Log(Log::new(log)));
    run_station(rt, station, &aim, asking)
}

/// How answers are told.
fn style_of(telling: Telling) -> Style {
    match telling.lines {
        Lines::Text => Style::Text,
        Lines::Json => Style::Json,
        Lines::Nothing => Style::Nothing,
    }
}

/// Asks stations on a real cable, and beyond, one question.
pub fn run_ask<'a>(
    rt: &HostRuntime,
    station: Station<'_>,
    words: Words<'_>,
    telling: Telling,
) -> Performed<'a> {
    let meant = match meant_by(rt, words) {
        Ok(meant) => meant,
        Err(performed) => return performed,
    };
    let style = style_of(telling);
    let answers = Answers::new(rt.alloc(), style, meant.zones);
    let asking = Asking::new(rt, style, Tells::Answers(answers));
    run_station(rt, station, &meant.aim, asking)
}
