//! The arguments of `atalk`.

use at_base::Error;
use case_words::{Answer, Stop, Words, put_text};
use clap::error::ErrorKind;
use command_line::{Job, Request, Route, Source, Station, read_arguments};
use std::alloc::{AllocError, Global};

fn put_source(text: &mut String, source: Source<'_>) -> Result<(), AllocError> {
    match source {
        Source::StandardInput => write!(text, " standard input"),
        Source::File(name) => {
            write!(text, " file ")?;
            put_text(text, name.as_bytes())
        }
    }
}

/// Appends the word of an option, if it is given.
fn put_word(text: &mut String, what: &str, word: Option<&str>) -> Result<(), AllocError> {
    match word {
        Some(word) => {
            write!(text, " {what} ")?;
            put_text(text, word.as_bytes())
        }
        None => Ok(()),
    }
}

fn put_route(text: &mut String, route: Route<'_>) -> Result<(), AllocError> {
    write!(text, "route")?;
    put_source(text, route.source)?;
    put_word(text, "router", Some(route.router))?;
    put_word(text, "image to", route.image)?;
    put_word(text, "every", route.every)?;
    put_flag(text, "log", route.log)
}

fn put_station(text: &mut String, what: &str, it: Station<'_>) -> Result<(), AllocError> {
    write!(text, "{what}")?;
    put_word(text, "on", Some(it.cable))?;
    put_word(text, "hardware", Some(it.hardware))
}

fn put_flag(text: &mut String, what: &str, given: bool) -> Result<(), AllocError> {
    if given {
        write!(text, " {what}")?;
    }
    Ok(())
}

/// Appends what a job is called, the source that it reads, and the file for its image or the word for
/// its ways, if it has one.
fn put_one(
    text: &mut String,
    what: &str,
    source: Source<'_>,
    to: &str,
    word: Option<&str>,
) -> Result<(), AllocError> {
    write!(text, "{what}")?;
    put_source(text, source)?;
    put_word(text, to, word)
}

fn put_job(text: &mut String, job: Job<'_>) -> Result<(), AllocError> {
    match job {
        Job::Audit(image) => put_one(text, "audit", image, "", None),
        Job::Trace(image, script, capture) => {
            put_one(text, "trace", image, "", None)?;
            put_source(text, script)?;
            put_word(text, "capture to", capture)
        }
        Job::Play(file, to, version, capture) => {
            put_one(text, "play", file, "image to", to)?;
            if let Some(version) = version {
                let number = version.number();
                write!(text, " version {number}")?;
            }
            put_word(text, "capture to", capture)
        }
        Job::Make(file, to) => put_one(text, "make", file, "image to", to),
        Job::Show(image) => put_one(text, "show", image, "", None),
        Job::Draw(image, to) => put_one(text, "draw", image, "ways to", to),
        Job::Join(image, to) => put_one(text, "join", image, "image to", Some(to)),
        Job::Route(route) => put_route(text, route),
        Job::Survey(station, log) => {
            put_station(text, "survey", station)?;
            put_flag(text, "log", log)
        }
        Job::Ask(station, local, mine, count) => {
            put_station(text, "ask", station)?;
            put_flag(text, "local", local)?;
            put_flag(text, "mine", mine)?;
            put_word(text, "count", count)
        }
    }
}

fn put_request(text: &mut String, request: &Request<'_>) -> Result<(), AllocError> {
    put_job(text, request.job)?;
    for source in &request.further {
        put_source(text, *source)?;
    }
    for cable in &request.cables {
        put_word(text, "cable", Some(cable))?;
    }
    for word in &request.question {
        put_word(text, "asked", Some(word))?;
    }
    put_word(text, "explain", request.explain)?;
    if request.quiet {
        write!(text, " quiet")?;
    }
    if request.json {
        write!(text, " json")?;
    }
    writeln!(text)
}

/// The words as arguments; `""` is an empty one.
fn list<'a>(alloc: Global, mut words: Words<'a>) -> Result<Vec<&'a str>, Stop> {
    let mut list = Vec::new(alloc);
    for _ in 0..u64::MAX {
        if words.is_empty() {
            break;
        }
        let word = words.word();
        list.push(if word == "\"\"" { "" } else { word })?;
    }
    Ok(list)
}

/// Appends the command of the arguments, or their error.
pub(crate) fn answer(alloc: Global, words: Words<'_>, text: &mut String) -> Answer {
    let list = list(alloc, words)?;
    match read_arguments(alloc, list.as_slice()) {
        Ok(request) => put_request(text, &request)?,
        Err(error) => match error.kind() {
            ErrorKind::OutOfMemory => return Err(Error::Memory.into()),
            kind => writeln!(text, "{kind:?}")?,
        },
    }
    Ok(())
}
