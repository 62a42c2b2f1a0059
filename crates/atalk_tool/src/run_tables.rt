//! Tables files: makes the image of one, and prints that of an image, or its drawing.

ghost use Rattle.std.specs.Prelude.{◌≡◌, Err, IfErr, Ok, OnOk, true};

use crate::explain::{Evidence, prompt};
use crate::outputs::{Outputs, Wanted};
use crate::performed::Performed;
use crate::printing::Printing;
use crate::settling::settle;
use crate::telling::Telling;
use at_base::Error;
use clap::error::ErrorKind as ParseError;
use command_line::{Outcome, Source};
use commands::{Refused, answer_of, draw_image, make_bytes, show_image};
use file_advice::Format;
use std::fs::File;
use std::io::{Read, writer};
use text::Output;
use text::number::number;

/// A tables file, and the file for its image, if one is wanted.
#[derive(Clone, Copy)]
pub struct MakeJob<'a> {
    pub source: Source<'a>,
    pub wanted: Wanted<'a>,
}

/// What is printed of an image.
#[derive(Clone, Copy)]
pub enum Printed {
    /// Its tables file.
    Tables,
    /// Its drawing, with the ways to a network, if one is asked for.
    Drawing(Option<u16>),
}

/// Makes the image of the tables file that the reader has, and prints the line of its verdict on
/// standard output; the image goes to an output.
fn make_reader<'a, S: Read + Drop>(
    rt: &HostRuntime,
    job: MakeJob<'a>,
    mut reader: S,
    mut outputs: Outputs,
    telling: Telling,
) -> Performed<'a> {
    let mut output = Output::new(rt.alloc(), Printing::new(rt, telling));
    let made = make_bytes(rt.alloc(), &mut reader, &mut output, &mut outputs.image);
    let image = made.as_ref().ok().map(|judged| &judged.image);
    let answer = settle(rt, answer_of(&made), image, None, telling);
    let ended = outputs.end(answer);
    Performed {
        outcome: Outcome::Answered(ended.answer),
        evidence: Evidence {
            missed: job.wanted.missed(ended.unwritten),
            format: Format::Tables,
            settled: telling.settled,
            ..Evidence::of_worked(job.source, made)
        },
    }
}

/// Makes the image of the tables file that the reader has. The file for the image is looked at before
/// anything is read.
fn make_into<'a, S: Read + Drop>(
    rt: &HostRuntime,
    job: MakeJob<'a>,
    reader: S,
    telling: Telling,
) -> Performed<'a> {
    match Outputs::open(rt, job.wanted) {
        Ok(outputs) => make_reader(rt, job, reader, outputs, telling),
        Err(performed) => performed,
    }
}

/// Makes the image of a tables file. If it is read from a terminal, a prompt is printed there.
pub fn make_source<'a>(rt: &HostRuntime, job: MakeJob<'a>, telling: Telling) -> Performed<'a> {
    match job.source {
        Source::StandardInput => {
            if telling.prompts {
                prompt(rt, "a tables file");
            }
            make_into(rt, job, rt.reader(), telling)
        }
        Source::File(path) => match File::open(rt, path) {
            Ok(file) => make_into(rt, job, file, telling),
            Err(error) => Performed::not_opened(job.source, error.kind()),
        },
    }
}

/// What came of printing: the program's answer is a yes wherever it was printed.
fn printed_answer(printed: &Result<(), Refused>) -> Result<bool, Error>
    ensures yes { OnOk printed.now (result ≡ Ok true) }
    ensures error { IfErr printed.now (λ r. result ≡ Err r.error) }
{
    match printed {
        Ok(()) => Ok(true),
        Err(refused) => Err(refused.error),
    }
}

/// Prints the tables file of the image that the reader has, or its drawing, on standard output.
fn print_reader<'a, R: Print + AllocGlobal, S: Read + Drop>(
    rt: &R,
    source: Source<'a>,
    printed: Printed,
    mut reader: S,
) -> Performed<'a> {
    let mut output = Output::new(rt.alloc(), writer(rt));
    let printed = match printed {
        Printed::Tables => show_image(rt.alloc(), &mut reader, &mut output),
        Printed::Drawing(to) => draw_image(rt.alloc(), &mut reader, &mut output, to),
    };
    Performed {
        outcome: Outcome::Answered(printed_answer(&printed)),
        evidence: Evidence {
            refused: printed.err(),
            ..Evidence::of(Some(source))
        },
    }
}

/// Prints the tables file of an image, or its drawing. If the image is read from a terminal, a
/// prompt is printed there.
pub fn print_source<'a>(
    rt: &HostRuntime,
    source: Source<'a>,
    printed: Printed,
    telling: Telling,
) -> Performed<'a> {
    match source {
        Source::StandardInput => {
            if telling.prompts {
                prompt(rt, "an image");
            }
            print_reader(rt, source, printed, rt.reader())
        }
        Source::File(path) => match File::open(rt, path) {
            Ok(file) => print_reader(rt, source, printed, file),
            Err(error) => Performed::not_opened(source, error.kind()),
        },
    }
}

/// The word for a network isn't one: a usage error.
fn refuse_network<'a>(rt: &impl Eprint, word: &str) -> Performed<'a>
    ensures { result.outcome ≡ Outcome.NoJob ParseError.InvalidValue true }
{
    let _ = eprintln!(rt; "error: --to {word:?} names no network: a number from 0 to 65535 does");
    Performed::misused(ParseError::InvalidValue)
}

/// Prints the drawing of an image, with the ways to the network that a word names, if there is one.
pub fn draw_source<'a>(
    rt: &HostRuntime,
    source: Source<'a>,
    to: Option<&'a str>,
    telling: Telling,
) -> Performed<'a> {
    let Some(word) = to else {
        return print_source(rt, source, Printed::Drawing(None), telling);
    };
    match number(65_535, word.as_bytes()) {
        Some(net) => print_source(rt, source, Printed::Drawing(Some(net as u16)), telling),
        None => refuse_network(rt, word),
    }
}
