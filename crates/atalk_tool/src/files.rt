//! Whether the files of a command are different ones.

ghost use Rattle.std.specs.Prelude.{◌≡◌, ◌⊎◌, Err, IfErr, true};

use crate::performed::Performed;
use at_base::Error;
use clap::error::ErrorKind as ParseError;
use command_line::{Job, Outcome, Request, Source};
use std::io;
use std::io::ErrorKind;
use whole_files::{FileId, Identity, Named, Target, first_shared};

/// The names by which the system knows the files of the standard streams.
const INPUT: &str = "/proc/self/fd/0";

const OUTPUT: &str = "/proc/self/fd/1";

/// An input of a command: its name in the usage, and its source.
#[derive(Clone, Copy)]
struct Reads<'a> {
    name: &'a str,
    source: Source<'a>,
}

/// The files of a command.
#[derive(Clone, Copy)]
struct Uses<'a> {
    input: Reads<'a>,
    script: Option<Source<'a>>,
    image: Option<&'a str>,
    capture: Option<&'a str>,
}

/// The files of a command that reads this one and writes none but standard output.
fn reading<'a>(name: &'a str, source: Source<'a>) -> Uses<'a> {
    Uses {
        input: Reads { name, source },
        script: None,
        image: None,
        capture: None,
    }
}

/// The files of a job.
fn files_of<'a>(job: &Job<'a>) -> Uses<'a> {
    match *job {
        Job::Audit(source) => reading("FILE", source),
        Job::Trace(image, script, capture) => Uses {
            script: Some(script),
            capture,
            ..reading("IMAGE", image)
        },
        Job::Play(source, image, _, capture) => Uses {
            image,
            capture,
            ..reading("FILE", source)
        },
        Job::Make(source, image) => Uses {
            image,
            ..reading("FILE", source)
        },
        Job::Show(source) => reading("IMAGE", source),
        Job::Draw(source, _) => reading("IMAGE", source),
        Job::Join(first, image) => Uses {
            image: Some(image),
            ..reading("IMAGE", first)
        },
        Job::Route(route) => Uses {
            image: route.image,
            ..reading("FILE", route.source)
        },
        Job::Survey(_, _) => reading("FILE", Source::StandardInput),
        Job::Ask(_, _, _, _) => reading("FILE", Source::StandardInput),
    }
}

/// What tells the regular file at a path from others.
fn existing(rt: &HostRuntime, path: &str) -> Identity<'static> {
    match FileId::at(rt, path) {
        Some(id) => Identity::Existing(id),
        None => Identity::Unknown,
    }
}

/// An input, with what tells it from other files.
fn named<'a>(rt: &HostRuntime, input: Reads<'a>) -> Named<'a> {
    match input.source {
        Source::StandardInput => Named {
            name: "standard input",
            identity: existing(rt, INPUT),
        },
        Source::File(path) => Named {
            name: input.name,
            identity: existing(rt, path),
        },
    }
}

/// The target of an output, if one is wanted; that a target can't be told is said when it is opened.
/// Error: `OutOfMemory`.
fn target(rt: &HostRuntime, path: Option<&str>) -> io::Result<Option<Target>> {
    let Some(path) = path else {
        return Ok(None);
    };
    match Target::at(rt, path) {
        Ok(target) => Ok(Some(target)),
        Err(error) if error.kind() == ErrorKind::OutOfMemory => Err(error),
        Err(_) => Ok(None),
    }
}

/// What tells an output from other files.
fn identity(target: &Option<Target>) -> Identity<'_> {
    match target {
        Some(Target::Existing(id, _)) => Identity::Existing(*id),
        Some(Target::New(path)) => Identity::New(path.as_str()),
        Some(Target::Stream) | None => Identity::Unknown,
    }
}

/// A run that ended for want of memory to look at its files.
fn out_of_memory<'a>() -> Performed<'a>
    ensures { result.outcome ≡ Outcome.Answered (Err Error.Memory) }
{
    Performed::without_source(Outcome::Answered(Err(Error::Memory)))
}

/// Refuses an output named `-`.
fn refuse_dash<'a>(rt: &impl Eprint, option: &str) -> Performed<'a>
    ensures { result.outcome ≡ Outcome.NoJob ParseError.ArgumentConflict true }
{
    let _ = eprintln!(rt;
        "error: {option} - names no file: ./- does, and /dev/stdout is standard output"
    );
    Performed::misused(ParseError::ArgumentConflict)
}

/// Refuses two files that are one.
fn refuse_shared<'a>(rt: &impl Eprint, first: &str, second: &str) -> Performed<'a>
    ensures { result.outcome ≡ Outcome.NoJob ParseError.ArgumentConflict true }
{
    let _ = eprintln!(rt; "error: {first} and {second} are the same file");
    Performed::misused(ParseError::ArgumentConflict)
}

/// Refuses two outputs, or an output and an input, that are one file.
fn check_shared<'a>(rt: &HostRuntime, uses: Uses<'_>) -> Result<(), Performed<'a>>
    ensures { IfErr result (λ p. (p.outcome ≡ Outcome.NoJob ParseError.ArgumentConflict true)
        ⊎ (p.outcome ≡ Outcome.Answered (Err Error.Memory))) }
{
    let (Ok(image), Ok(capture)) = (target(rt, uses.image), target(rt, uses.capture)) else {
        return Err(out_of_memory());
    };
    let outputs = [
        Named {
            name: "--image",
            identity: identity(&image),
        },
        Named {
            name: "--capture",
            identity: identity(&capture),
        },
        Named {
            name: "standard output",
            identity: existing(rt, OUTPUT),
        },
    ];
    let script = Reads {
        name: "SCRIPT",
        source: uses.script.unwrap_or(uses.input.source),
    };
    let inputs = [named(rt, uses.input), named(rt, script)];
    match first_shared(&outputs, &inputs) {
        Some((first, second)) => Err(refuse_shared(rt, first.name, second.name)),
        None => Ok(()),
    }
}

/// Refuses an output that is one of the images which are joined after the first one.
fn check_further<'a>(
    rt: &HostRuntime,
    uses: Uses<'_>,
    further: &[Source<'_>],
) -> Result<(), Performed<'a>>
    ensures { IfErr result (λ p. (p.outcome ≡ Outcome.NoJob ParseError.ArgumentConflict true)
        ⊎ (p.outcome ≡ Outcome.Answered (Err Error.Memory))) }
{
    for source in further {
        let input = Reads {
            source: *source,
            ..uses.input
        };
        check_shared(rt, Uses { input, ..uses })?;
    }
    Ok(())
}

/// Refuses standard input as the internet file of a router, and images every so many ticks that go to
/// no file.
fn check_route<'a>(rt: &impl Eprint, job: &Job<'_>) -> Result<(), Performed<'a>>
    ensures { IfErr result (λ p. p.outcome ≡ Outcome.NoJob ParseError.ArgumentConflict true) }
{
    let Job::Route(route) = job else {
        return Ok(());
    };
    if route.source == Source::StandardInput {
        let _ = eprintln!(rt;
            "error: FILE - names no file: ./- does, and standard input carries the cables' frames"
        );
        return Err(Performed::misused(ParseError::ArgumentConflict));
    }
    if route.every.is_some() && route.image.is_none() {
        let _ = eprintln!(rt; "error: --every asks for --image");
        return Err(Performed::misused(ParseError::ArgumentConflict));
    }
    Ok(())
}

/// Looks at the files of a request before anything is read. An output that is named `-`, or is the
/// same file as another output or an input, ends the run here.
pub fn check_files<'a>(rt: &HostRuntime, request: &Request<'_>) -> Result<(), Performed<'a>>
    ensures { IfErr result (λ p. (p.outcome ≡ Outcome.NoJob ParseError.ArgumentConflict true)
        ⊎ (p.outcome ≡ Outcome.Answered (Err Error.Memory))) }
{
    check_route(rt, &request.job)?;
    let uses = files_of(&request.job);
    if uses.image == Some("-") {
        return Err(refuse_dash(rt, "--image"));
    }
    if uses.capture == Some("-") {
        return Err(refuse_dash(rt, "--capture"));
    }
    check_shared(rt, uses)?;
    match request.job {
        Job::Join(_, _) => check_further(rt, uses, request.further.as_slice()),
        _ => Ok(()),
    }
}
