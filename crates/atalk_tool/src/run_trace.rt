//! Traces scripts over images, from their sources to standard output and the output for the capture.

ghost use Rattle.std.specs.Prelude.{◌≡◌, IfErr, Some};
ghost use Rattle.commands.specs.declared.refused.Origin.TheVariants as OriginValue;

use crate::explain::{Evidence, name_of};
use crate::keeping::{Keeping, bytes_of};
use crate::outputs::{Outputs, Wanted};
use crate::performed::Performed;
use crate::printing::Printing;
use crate::telling::Telling;
use command_line::{Outcome, Source};
use commands::{Origin, Refused, answer_of, capture_run, run_frozen};
use frozen::Frozen;
use frozen_trace::{Refusals, Traced};
use reply_advice::{Replies, Unanswered};
use rtmp::Routes;
use script_advice::write_undone;
use std::fs::File;
use std::io::Read;
use text::Output;

/// The sources of the image and the script of a trace, and the files that it is to write.
#[derive(Clone, Copy)]
pub struct Sources<'a> {
    pub image: Source<'a>,
    pub script: Source<'a>,
    pub wanted: Wanted<'a>,
}

impl<'a> Sources<'a> {
    /// The sources of a trace, and the file for its capture, if one is wanted.
    pub fn of(image: Source<'a>, script: Source<'a>, capture: Option<&'a str>) -> Sources<'a> {
        Sources {
            image,
            script,
            wanted: Wanted::of(None, capture),
        }
    }
}

/// The source that the result of a trace is about.
fn source_of<'a>(
    sources: Sources<'a>,
    traced: &Result<Traced<Frozen<Routes>>, Refused>,
) -> Source<'a>
    ensures script { IfErr traced.now (λ r. r.origin ≡ OriginValue.Script
        → result ≡ sources.entry.script) }
    ensures image { IfErr traced.now (λ r. r.origin ≡ OriginValue.Input
        → result ≡ sources.entry.image) }
{
    match traced {
        Err(refused) if refused.origin == Origin::Script => sources.script,
        _ => sources.image,
    }
}

/// The replies that came in a run, if they are to be explained.
fn replies_of(
    rt: &impl AllocGlobal,
    traced: &Result<Traced<Frozen<Routes>>, Refused>,
    telling: Telling,
) -> Option<Replies> {
    match traced {
        Ok(Traced::Ran(run)) if telling.explains => Some(Replies::of_run(rt.alloc(), run)),
        _ => None,
    }
}

/// What is said of the questions that nobody answered, if that is to be told: nothing where memory
/// runs out.
fn unanswered_of(
    rt: &impl AllocGlobal,
    traced: &Result<Traced<Frozen<Routes>>, Refused>,
    telling: Telling,
) -> Option<Vec<u8>> {
    match traced {
        Ok(Traced::Ran(run)) if telling.notes() => {
            let mut words = Vec::new(rt.alloc());
            let unanswered = Unanswered::of_run(rt.alloc(), run);
            unanswered.write(&mut words, run.image()).ok()?;
            Some(words)
        }
        _ => None,
    }
}

/// What is said of the steps that were refused, if they are to be explained: nothing where memory
/// runs out.
fn undone_of(
    rt: &impl AllocGlobal,
    sources: Sources<'_>,
    traced: &Result<Traced<Frozen<Routes>>, Refused>,
    text: Option<&[u8]>,
    refusals: &Refusals,
) -> Option<Vec<u8>> {
    let (Ok(Traced::Ran(run)), Some(text)) = (traced, text) else {
        return None;
    };
    let name = name_of(rt.alloc(), Some(sources.script)).ok()?;
    let mut words = Vec::new(rt.alloc());
    write_undone(
        rt.alloc(),
        &mut words,
        name.as_str(),
        text,
        run.image(),
        refusals,
    )
    .ok()?;
    Some(words)
}

/// Runs the script that one reader has over the image that the other has, and prints the trace on
/// standard output; the capture goes to an output.
fn trace_outputs<I: Read, S: Read>(
    rt: &HostRuntime,
    sources: Sources<'_>,
    image: &mut I,
    script: &mut S,
    outputs: &mut Outputs,
    refusals: &mut Refusals,
    telling: Telling,
) -> Result<Traced<Frozen<Routes>>, Refused> {
    let alloc = rt.alloc();
    let mut output = Output::new(alloc, Printing::new(rt, telling));
    match sources.wanted.capture {
        None => run_frozen(alloc, image, script, &mut output, refusals),
        Some(_) => {
            let Outputs { capture, .. } = outputs;
            capture_run(alloc, image, script, &mut output, capture, refusals)
        }
    }
}

/// Runs the script that one reader has over the image that the other has.
fn trace_readers<'a, I: Read + Drop, S: Read + Drop>(
    rt: &HostRuntime,
    sources: Sources<'a>,
    mut image: I,
    script: S,
    mut outputs: Outputs,
    telling: Telling,
) -> Performed<'a> {
    let mut script = Keeping::new(rt.alloc(), script, telling.notes());
    let mut refusals = Refusals::new(rt.alloc());
    let traced = trace_outputs(
        rt,
        sources,
        &mut image,
        &mut script,
        &mut outputs,
        &mut refusals,
        telling,
    );
    let text = script.into_text();
    let ended = outputs.end(answer_of(&traced));
    Performed {
        outcome: Outcome::Answered(ended.answer),
        evidence: Evidence {
            missed: sources.wanted.missed(ended.unwritten),
            undone: undone_of(rt, sources, &traced, bytes_of(&text), &refusals),
            replies: replies_of(rt, &traced, telling),
            unanswered: unanswered_of(rt, &traced, telling),
            script: text,
            ..Evidence::of_worked(source_of(sources, &traced), traced)
        },
    }
}

/// Runs a script over an image, both of which are open. The file for the capture is looked at before
/// either is read.
fn trace_opened<'a, I: Read + Drop, S: Read + Drop>(
    rt: &HostRuntime,
    sources: Sources<'a>,
    image: I,
    script: S,
    telling: Telling,
) -> Performed<'a> {
    match Outputs::open(rt, sources.wanted) {
        Ok(outputs) => trace_readers(rt, sources, image, script, outputs, telling),
        Err(performed) => performed,
    }
}

/// Runs the script of the source over the image that the reader has.
fn trace_image<'a, I: Read + Drop>(
    rt: &HostRuntime,
    sources: Sources<'a>,
    image: I,
    telling: Telling,
) -> Performed<'a> {
    match sources.script {
        Source::StandardInput => trace_opened(rt, sources, image, rt.reader(), telling),
        Source::File(path) => match File::open(rt, path) {
            Ok(file) => trace_opened(rt, sources, image, file, telling),
            Err(error) => Performed::not_opened(sources.script, error.kind()),
        },
    }
}

/// Runs a script over an image. Both files are opened before either is read.
pub fn trace_sources<'a>(
    rt: &HostRuntime,
    sources: Sources<'a>,
    telling: Telling,
) -> Performed<'a> {
    match sources.image {
        Source::StandardInput => trace_image(rt, sources, rt.reader(), telling),
        Source::File(path) => match File::open(rt, path) {
            Ok(file) => trace_image(rt, sources, file, telling),
            Err(error) => Performed::not_opened(sources.image, error.kind()),
        },
    }
}
