//! Joins images of parts of one internet, from their sources to the output for the image of all.

use crate::explain::{Evidence, prompt};
use crate::outputs::{Outputs, Wanted};
use crate::performed::Performed;
use crate::printing::Printing;
use crate::settling::settle;
use crate::telling::Telling;
use command_line::{Outcome, Source};
use commands::{Refused, answer_of, join_image, judge_image, read_image};
use std::fs::File;
use std::io::Read;
use table_image::Image;
use text::Output;

/// The images that are joined, in their order, and the file for the image of all.
#[derive(Clone, Copy)]
pub struct JoinJob<'b, 'a> {
    pub first: Source<'a>,
    pub further: &'b [Source<'a>],
    pub wanted: Wanted<'a>,
}

/// A joining that ended at the image of this source.
fn refused_at<'a>(source: Source<'a>, refused: Refused) -> Performed<'a> {
    Performed {
        outcome: Outcome::Answered(Err(refused.error)),
        evidence: Evidence {
            refused: Some(refused),
            joins: true,
            ..Evidence::of(Some(source))
        },
    }
}

/// Reads the image that the reader has, and joins it to the one of those before it, if there is one.
fn read_part<'a, S: Read + Drop>(
    rt: &HostRuntime,
    source: Source<'a>,
    before: Option<&Image>,
    mut reader: S,
) -> Result<Image, Performed<'a>> {
    let read = match before {
        Some(before) => join_image(rt.alloc(), before, &mut reader),
        None => read_image(rt.alloc(), &mut reader),
    };
    match read {
        Ok(image) => Ok(image),
        Err(refused) => Err(refused_at(source, refused)),
    }
}

/// Reads the image of the source, and joins it to the one of those before it, if there is one. If it
/// is read from a terminal, a prompt is printed there.
fn open_part<'a>(
    rt: &HostRuntime,
    source: Source<'a>,
    before: Option<&Image>,
    telling: Telling,
) -> Result<Image, Performed<'a>> {
    match source {
        Source::StandardInput => {
            if telling.prompts {
                prompt(rt, "an image");
            }
            read_part(rt, source, before, rt.reader())
        }
        Source::File(path) => match File::open(rt, path) {
            Ok(file) => read_part(rt, source, before, file),
            Err(error) => Err(Performed::not_opened(source, error.kind())),
        },
    }
}

/// The image of all sources, joined from the first to the last.
fn join_parts<'a>(
    rt: &HostRuntime,
    job: JoinJob<'_, 'a>,
    telling: Telling,
) -> Result<Image, Performed<'a>> {
    let mut image = open_part(rt, job.first, None, telling)?;
    for source in job.further {
        image = open_part(rt, *source, Some(&image), telling)?;
    }
    Ok(image)
}

/// Prints the line of the verdict on the image on standard output; the image goes to an output.
fn judge_joined<'a>(
    rt: &HostRuntime,
    job: JoinJob<'_, 'a>,
    image: Image,
    mut outputs: Outputs,
    telling: Telling,
) -> Performed<'a> {
    let mut output = Output::new(rt.alloc(), Printing::new(rt, telling));
    let judged = judge_image(rt.alloc(), image, &mut output, &mut outputs.image);
    let image = judged.as_ref().ok().map(|judged| &judged.image);
    let answer = settle(rt, answer_of(&judged), image, None, telling);
    let ended = outputs.end(answer);
    Performed {
        outcome: Outcome::Answered(ended.answer),
        evidence: Evidence {
            missed: job.wanted.missed(ended.unwritten),
            settled: telling.settled,
            joins: true,
            ..Evidence::of_worked(job.first, judged)
        },
    }
}

/// Joins the images. The file for the image of all is looked at before anything is read.
pub fn join_sources<'a>(rt: &HostRuntime, job: JoinJob<'_, 'a>, telling: Telling) -> Performed<'a> {
    let outputs = match Outputs::open(rt, job.wanted) {
        Ok(outputs) => outputs,
        Err(performed) => return performed,
    };
    match join_parts(rt, job, telling) {
        Ok(image) => judge_joined(rt, job, image, outputs, telling),
        Err(performed) => performed,
    }
}
