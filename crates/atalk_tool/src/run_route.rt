//! A router of an internet file, on real cables.

use crate::explain::Evidence;
use crate::keeper::Keeper;
use crate::outputs::{Outputs, Wanted};
use crate::performed::Performed;
use at_base::{Error, What};
use cabled::Peers;
use clap::error::ErrorKind as ParseError;
use command_line::{Outcome, Route, Source};
use commands::{AtFault, READS, Refused, read_text};
use file_router::{Begun, Given, begin, name_in};
use internet_file::{Plan, read};
use planned_stations::router_at;
use routing::Stream;
use std::fs::File;
use std::io::{Read, writer};
use text::Output;
use text::number::number;

/// The numbers and names of a router on real cables.
#[derive(Drop)]
struct Wants {
    /// The index of the router, from 0.
    router: usize,
    names: Vec<Given>,
    /// After how many ticks its image is written each time; 0 for at the end alone.
    every: u32,
}

/// A run that ended with an error of a file's.
fn refused<'a>(source: Source<'a>, refused: Refused) -> Performed<'a> {
    Performed {
        outcome: Outcome::Answered(Err(refused.error)),
        evidence: Evidence {
            refused: Some(refused),
            ..Evidence::of(Some(source))
        },
    }
}

/// A run that ended with an error.
fn failed<'a>(error: Error) -> Performed<'a> {
    Performed::without_source(Outcome::Answered(Err(error)))
}

/// The names in the words of `--cable`.
fn names_in<'a>(rt: &HostRuntime, cables: &[&str]) -> Result<Vec<Given>, Performed<'a>> {
    let mut names = Vec::new(rt.alloc());
    for word in cables {
        match name_in(rt.alloc(), word.as_bytes()) {
            Ok(Some(name)) => {
                if names.push(name).is_err() {
                    return Err(failed(Error::Memory));
                }
            }
            Ok(None) => {
                let _ = eprintln!(rt;
                    "error: --cable {word} is no number of a cable and name, as 3=eth0"
                );
                return Err(Performed::misused(ParseError::InvalidValue));
            }
            Err(error) => return Err(failed(error)),
        }
    }
    Ok(names)
}

/// The number of ticks in the word of `--every`, if there is one.
fn every_in<'a>(rt: &HostRuntime, word: Option<&str>) -> Result<u32, Performed<'a>> {
    let Some(word) = word else {
        return Ok(0);
    };
    match number(u32::MAX, word.as_bytes()) {
        Some(every) if every > 0 => Ok(every),
        _ => {
            let _ = eprintln!(rt; "error: --every {word} is no number of ticks");
            Err(Performed::misused(ParseError::InvalidValue))
        }
    }
}

/// The numbers and names in the words of a command line.
fn words_in<'a>(
    rt: &HostRuntime,
    route: Route<'_>,
    cables: &[&str],
) -> Result<Wants, Performed<'a>> {
    let Some(router) = number(u32::MAX, route.router.as_bytes()) else {
        let word = route.router;
        let _ = eprintln!(rt; "error: --router {word} is no number of a router");
        return Err(Performed::misused(ParseError::InvalidValue));
    };
    Ok(Wants {
        router: (router as usize).wrapping_sub(1),
        names: names_in(rt, cables)?,
        every: every_in(rt, route.every)?,
    })
}

/// The plan of the internet file that a reader has.
fn plan_in<'a, S: Read + Drop>(
    rt: &HostRuntime,
    source: Source<'a>,
    mut reader: S,
) -> Result<Plan, Performed<'a>> {
    let text = match read_text(rt.alloc(), &mut reader, READS) {
        Ok(text) => text,
        Err(it) => return Err(refused(source, it)),
    };
    match read(rt.alloc(), text.as_slice()) {
        Ok(plan) => Ok(plan),
        Err(it) => {
            let error = it.error;
            let file = Some(AtFault { text, refused: it });
            Err(refused(
                source,
                Refused {
                    file,
                    ..Refused::of(error)
                },
            ))
        }
    }
}

/// The plan of an internet file.
fn plan_of<'a>(rt: &HostRuntime, source: Source<'a>) -> Result<Plan, Performed<'a>> {
    match source {
        Source::StandardInput => plan_in(rt, source, rt.reader()),
        Source::File(path) => match File::open(rt, path) {
            Ok(file) => plan_in(rt, source, file),
            Err(error) => Err(Performed::not_opened(source, error.kind())),
        },
    }
}

/// Runs a router of a plan over standard input, to its end, and writes its image.
fn run_over<'a>(
    rt: &HostRuntime,
    begun: Begun,
    keeper: Keeper<'_>,
    wanted: Wanted<'a>,
) -> Performed<'a> {
    let outputs = match Outputs::open(rt, wanted) {
        Ok(outputs) => outputs,
        Err(performed) => return performed,
    };
    let output = Output::new(rt.alloc(), writer(rt));
    let mut stream = Stream::new(begun.routing, output, keeper);
    let answer = match stream.begin(begun.cables.as_slice()) {
        Ok(()) => stream.run(rt.alloc(), &mut rt.reader()),
        Err(error) => Err(error),
    };
    stream
        .watch
        .end(stream.routing.station(), outputs, answer, wanted)
}

/// Runs a router of a plan.
fn run_planned<'a>(
    rt: &HostRuntime,
    plan: &Plan,
    wants: &Wants,
    route: Route<'a>,
) -> Performed<'a> {
    let Some(planned) = router_at(plan, wants.router) else {
        return failed(Error::NoSuch(What::Router));
    };
    match begin(
        rt.alloc(),
        plan,
        planned,
        wants.names.as_slice(),
        Peers::Real,
    ) {
        Ok(begun) => {
            let keeper = Keeper::new(rt, plan, wants.router, route, wants.every);
            run_over(rt, begun, keeper, Wanted::of(route.image, None))
        }
        Err(error) => failed(error),
    }
}

/// Runs a router of an internet file over standard input, with the words for the names of its cables.
pub fn run_route<'a>(rt: &HostRuntime, route: Route<'a>, cables: &[&'a str]) -> Performed<'a> {
    let wants = match words_in(rt, route, cables) {
        Ok(wants) => wants,
        Err(performed) => return performed,
    };
    match plan_of(rt, route.source) {
        Ok(plan) => run_planned(rt, &plan, &wants, route),
        Err(performed) => performed,
    }
}
