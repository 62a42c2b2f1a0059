//! A run of the program.

ghost use Rattle.std.specs.Prelude.{◌≡◌, Bool};
ghost use Rattle.clap.specs.Words.{kind_of};
ghost use Rattle.command_line.specs.Exits.{exit_at};

use crate::explain::{Evidence, explain, prompt};
use crate::files::check_files;
use crate::objects::print_objects;
use crate::outputs::Wanted;
use crate::performed::Performed;
use crate::printing::Printing;
use crate::question_words::Words;
use crate::run_ask::{run_ask, run_survey};
use crate::run_join::{JoinJob, join_sources};
use crate::run_play::{PlayJob, play_source};
use crate::run_route::run_route;
use crate::run_tables::{MakeJob, Printed, draw_source, make_source, print_source};
use crate::run_trace::{Sources, trace_sources};
use crate::settling::settle;
use crate::telling::{Lines, Telling, Terminals};
use clap::error::ErrorKind as ParseError;
use command_line::{Job, Outcome, Request, Source, exit_of, read_arguments};
use commands::{answer_of, audit_file};
use std::fs::File;
use std::io;
use std::io::Read;
use std::rt::Env;
use text::Output;

/// The arguments, the program's own name first.
fn given_arguments<R: Env + AllocGlobal>(rt: &R) -> io::Result<Vec<String>> {
    Ok(std::env::args(rt)?.collect(rt.alloc())?)
}

/// An image that is audited.
#[derive(Clone, Copy)]
struct Audited<'a> {
    source: Source<'a>,
    /// Its name, if it is one of several.
    name: Option<&'a str>,
}

/// Audits the image that the reader has, and prints the line on standard output.
fn audit_reader<'a, R: Print + AllocGlobal, S: Read + Drop>(
    rt: &R,
    it: Audited<'a>,
    mut reader: S,
    telling: Telling,
) -> Performed<'a> {
    let mut output = Output::new(rt.alloc(), Printing::named(rt, telling, it.name));
    let audited = audit_file(rt.alloc(), &mut reader, &mut output);
    let image = audited.as_ref().ok().map(|judged| &judged.image);
    let answer = settle(rt, answer_of(&audited), image, it.name, telling);
    Performed {
        outcome: Outcome::Answered(answer),
        evidence: Evidence {
            settled: telling.settled,
            ..Evidence::of_worked(it.source, audited)
        },
    }
}

/// Audits the image of the source. If it is read from a terminal, a prompt is printed there.
fn audit_source<'a>(rt: &HostRuntime, it: Audited<'a>, telling: Telling) -> Performed<'a> {
    match it.source {
        Source::StandardInput => {
            if telling.prompts {
                prompt(rt, "an image");
            }
            audit_reader(rt, it, rt.reader(), telling)
        }
        Source::File(path) => match File::open(rt, path) {
            Ok(file) => audit_reader(rt, it, file, telling),
            Err(error) => Performed::not_opened(it.source, error.kind()),
        },
    }
}

/// The name of a source, as the command line has it.
fn word_of<'a>(source: Source<'a>) -> &'a str {
    match source {
        Source::StandardInput => "-",
        Source::File(path) => path,
    }
}

/// Audits one of several images, and returns the exit status.
fn audit_one(rt: &HostRuntime, source: Source<'_>, telling: Telling) -> u8 {
    let name = word_of(source);
    let it = Audited {
        source,
        name: Some(name),
    };
    answer(rt, &audit_source(rt, it, telling), Some(name), telling)
}

/// Audits images, each as the only one would be, but that each line begins with the name of its
/// image. Returns the worst of the exit statuses.
fn audit_several(
    rt: &HostRuntime,
    first: Source<'_>,
    further: &[Source<'_>],
    telling: Telling,
) -> u8 {
    let mut worst = audit_one(rt, first, telling);
    for source in further {
        worst = worst.max(audit_one(rt, *source, telling));
    }
    worst
}

/// Prints help, the version, or a usage error.
fn print_answer<'a>(rt: &(impl Print + Eprint), error: &clap::Error) -> Performed<'a>
    ensures { (printed : Bool)
        × (result.outcome ≡ Outcome.NoJob (kind_of error.now) printed) }
{
    let kind = error.kind();
    // If memory ran out, only the number of the error is printed.
    let printed = kind != ParseError::OutOfMemory && error.print(rt).is_ok();
    Performed::without_source(Outcome::NoJob(kind, printed))
}

/// Prints the number of an error on standard error, and returns the exit status. Of one of several
/// inputs, its name stands before the number.
fn finish(rt: &impl Eprint, outcome: &Outcome, name: Option<&str>) -> u8
    ensures { result ≡ (exit_at outcome.now).status }
{
    let exit = exit_of(outcome);
    if let Some(number) = exit.refusal {
        // If standard error is closed too, there is only the status.
        let _ = match name {
            Some(name) => eprintln!(rt; "{name}: refused: {number}"),
            None => eprintln!(rt; "refused: {number}"),
        };
    }
    exit.status
}

/// Prints what is told after a command, and returns the exit status: the number of an error, on
/// standard error; the objects of a refusal and of notes, if objects are printed; and an explanation
/// for a person.
fn answer<R: Print + Eprint + AllocGlobal>(
    rt: &R,
    performed: &Performed<'_>,
    name: Option<&str>,
    telling: Telling,
) -> u8
    ensures { result ≡ (exit_at performed.now.outcome).status }
{
    let status = finish(rt, &performed.outcome, name);
    if telling.lines == Lines::Json {
        print_objects(rt, telling.objects, performed, name);
    }
    if telling.explains {
        explain(rt, &performed.outcome, &performed.evidence);
    }
    status
}

/// The arguments can't be read: memory ran out, or one of them isn't text.
fn refuse_arguments<'a>(rt: &impl Eprint, kind: io::ErrorKind) -> Performed<'a>
    ensures { result.outcome ≡ Outcome.NoArguments kind }
{
    if kind != io::ErrorKind::OutOfMemory {
        let _ = eprintln!(rt; "error: an argument is not UTF-8 text");
    }
    Performed::without_source(Outcome::NoArguments(kind))
}

/// Performs the job of a request whose files are different ones.
fn perform<'a>(rt: &HostRuntime, request: &Request<'a>, telling: Telling) -> Performed<'a> {
    match request.job {
        Job::Audit(source) => audit_source(rt, Audited { source, name: None }, telling),
        Job::Trace(image, script, capture) => {
            trace_sources(rt, Sources::of(image, script, capture), telling)
        }
        Job::Play(source, image, version, capture) => {
            let wanted = Wanted::of(image, capture);
            let job = PlayJob {
                source,
                wanted,
                version,
            };
            play_source(rt, job, telling)
        }
        Job::Make(source, image) => {
            let wanted = Wanted::of(image, None);
            make_source(rt, MakeJob { source, wanted }, telling)
        }
        Job::Show(source) => print_source(rt, source, Printed::Tables, telling),
        Job::Draw(source, to) => draw_source(rt, source, to, telling),
        Job::Join(first, image) => {
            let (further, wanted) = (request.further.as_slice(), Wanted::of(Some(image), None));
            let job = JoinJob {
                first,
                further,
                wanted,
            };
            join_sources(rt, job, telling)
        }
        Job::Route(route) => run_route(rt, route, request.cables.as_slice()),
        Job::Survey(station, log) => run_survey(rt, station, log),
        Job::Ask(station, local, mine, count) => {
            let question = request.question.as_slice();
            let words = Words {
                question,
                local,
                mine,
                count,
            };
            run_ask(rt, station, words, telling)
        }
    }
}

/// Performs the job that the arguments ask for, and returns the exit status.
fn run_arguments(rt: &HostRuntime, arguments: &[String], terminals: Terminals) -> u8 {
    let request = match read_arguments(rt.alloc(), arguments) {
        Ok(request) => request,
        Err(error) => return answer(rt, &print_answer(rt, &error), None, terminals.telling()),
    };
    match Telling::of(rt, &request, terminals) {
        Ok(telling) => run_request(rt, &request, telling),
        Err(refused) => answer(rt, &refused, None, terminals.telling()),
    }
}

/// Performs the job of a request, and returns the exit status.
fn run_request(rt: &HostRuntime, request: &Request<'_>, telling: Telling) -> u8 {
    if let Err(refused) = check_files(rt, request) {
        return answer(rt, &refused, None, telling);
    }
    match (request.job, request.further.as_slice()) {
        (Job::Audit(first), further) if !further.is_empty() => {
            audit_several(rt, first, further, telling)
        }
        _ => answer(rt, &perform(rt, request, telling), None, telling),
    }
}

/// Performs the job that the program's arguments ask for, and returns the exit status.
pub fn run(rt: &HostRuntime, terminals: Terminals) -> u8 {
    match given_arguments(rt) {
        Ok(arguments) => run_arguments(rt, arguments.as_slice(), terminals),
        Err(error) => answer(
            rt,
            &refuse_arguments(rt, error.kind()),
            None,
            terminals.telling(),
        ),
    }
}
