//! Plays internet files, from their sources to the outputs for their lines and images.

use crate::explain::{Evidence, name_of, prompt};
use crate::keeping::{Keeping, bytes_of};
use crate::outputs::{Outputs, Wanted};
use crate::performed::Performed;
use crate::printing::Printing;
use crate::settling::settle;
use crate::telling::Telling;
use crate::watching::Watching;
use at_base::Fault;
use audit::Verdict;
use command_line::{Outcome, Source};
use commands::{Refused, answer_of, capture_play, play_bytes};
use file_advice::{write_other_zones, write_shared_tries, write_undone};
use playing::Played;
use reply_advice::{Replies, Unanswered};
use std::fs::File;
use std::io;
use std::io::{Read, Write};
use table_image::Version;
use text::Output;

/// The source of a play, the files that it is to write, and the version of the image, if one is asked
/// for.
#[derive(Clone, Copy)]
pub struct PlayJob<'a> {
    pub source: Source<'a>,
    pub wanted: Wanted<'a>,
    pub version: Option<Version>,
}

/// The replies that the nodes received, if they are to be explained.
fn replies_of(
    rt: &impl AllocGlobal,
    played: &Result<Played, Refused>,
    telling: Telling,
) -> Option<Replies> {
    match played {
        Ok(it) if telling.explains => Some(Replies::of_world(rt.alloc(), &it.world)),
        _ => None,
    }
}

/// Writes what became of the file's actions and stations.
fn write_told<W: Write>(
    rt: &impl AllocGlobal,
    writer: &mut W,
    job: PlayJob<'_>,
    it: &Played,
    text: Option<&[u8]>,
) -> io::Result<()> {
    let name = name_of(rt.alloc(), Some(job.source))?;
    let (name, plan) = (name.as_str(), it.world.plan());
    write_undone(writer, name, text, plan, it.world.refused())?;
    write_other_zones(writer, name, plan, &it.image)?;
    match it.verdict {
        Verdict::No(Fault { rule: 2, .. }) => write_shared_tries(rt.alloc(), writer, name, plan),
        _ => Ok(()),
    }
}

/// What is said of the file's actions and stations, if that is to be explained: nothing where memory
/// runs out.
fn told_of(
    rt: &impl AllocGlobal,
    job: PlayJob<'_>,
    played: &Result<Played, Refused>,
    text: Option<&[u8]>,
    telling: Telling,
) -> Option<Vec<u8>> {
    match played {
        Ok(it) if telling.notes() => {
            let mut words = Vec::new(rt.alloc());
            write_told(rt, &mut words, job, it, text).ok()?;
            Some(words)
        }
        _ => None,
    }
}

/// What is said of the questions that nobody answered, if that is to be told: nothing where memory
/// runs out.
fn unanswered_of(
    rt: &impl AllocGlobal,
    played: &Result<Played, Refused>,
    telling: Telling,
) -> Option<Vec<u8>> {
    match played {
        Ok(it) if telling.notes() => {
            let unanswered = Unanswered::of_world(rt.alloc(), &it.world, &it.image);
            let mut words = Vec::new(rt.alloc());
            unanswered.write(&mut words, &it.image).ok()?;
            Some(words)
        }
        _ => None,
    }
}

/// Plays the internet file that the reader has, prints its lines on standard output, and writes its
/// image and its capture to the outputs.
fn play_outputs<S: Read>(
    rt: &HostRuntime,
    job: PlayJob<'_>,
    reader: &mut S,
    outputs: &mut Outputs,
    watching: &mut Watching<'_, HostRuntime>,
    telling: Telling,
) -> Result<Played, Refused> {
    let alloc = rt.alloc();
    let mut output = Output::new(alloc, Printing::new(rt, telling));
    let Outputs { image, capture } = outputs;
    match job.wanted.capture {
        None => play_bytes(alloc, reader, &mut output, image, watching, job.version),
        Some(_) => capture_play(
            alloc,
            reader,
            &mut output,
            image,
            capture,
            watching,
            job.version,
        ),
    }
}

/// Plays the internet file that the reader has, and prints its lines on standard output; the image
/// and the capture go to the outputs. If standard error is a terminal, the progress of a long play is
/// printed there.
fn play_reader<'a, S: Read + Drop>(
    rt: &HostRuntime,
    job: PlayJob<'a>,
    reader: S,
    mut outputs: Outputs,
    telling: Telling,
) -> Performed<'a> {
    let mut reader = Keeping::new(rt.alloc(), reader, telling.notes());
    let mut watching = Watching::new(rt, telling.watched);
    let played = play_outputs(rt, job, &mut reader, &mut outputs, &mut watching, telling);
    watching.end();
    let text = reader.into_text();
    let image = played.as_ref().ok().map(|it| &it.image);
    let answer = settle(rt, answer_of(&played), image, None, telling);
    let ended = outputs.end(answer);
    Performed {
        outcome: Outcome::Answered(ended.answer),
        evidence: Evidence {
            missed: job.wanted.missed(ended.unwritten),
            undone: told_of(rt, job, &played, bytes_of(&text), telling),
            replies: replies_of(rt, &played, telling),
            settled: telling.settled,
            unanswered: unanswered_of(rt, &played, telling),
            ..Evidence::of_worked(job.source, played)
        },
    }
}

/// Plays the internet file that the reader has. The files that are to be written are looked at before
/// anything is read.
fn play_into<'a, S: Read + Drop>(
    rt: &HostRuntime,
    job: PlayJob<'a>,
    reader: S,
    telling: Telling,
) -> Performed<'a> {
    match Outputs::open(rt, job.wanted) {
        Ok(outputs) => play_reader(rt, job, reader, outputs, telling),
        Err(performed) => performed,
    }
}

/// Plays an internet file. If it is read from a terminal, a prompt is printed there.
pub fn play_source<'a>(rt: &HostRuntime, job: PlayJob<'a>, telling: Telling) -> Performed<'a> {
    match job.source {
        Source::StandardInput => {
            if telling.prompts {
                prompt(rt, "an internet file");
            }
            play_into(rt, job, rt.reader(), telling)
        }
        Source::File(path) => match File::open(rt, path) {
            Ok(file) => play_into(rt, job, file, telling),
            Err(error) => Performed::not_opened(job.source, error.kind()),
        },
    }
}
