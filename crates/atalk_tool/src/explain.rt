//! Explains a result to a person. All of this runs after the result was printed, and
//! writes only to standard error; if a write fails, nothing more is printed.

ghost use Rattle.std.specs.Prelude.{◌≡◌, IfErr, None, Some};

use crate::keeping::bytes_of;
use crate::outputs::Missed;
use at_base::Error;
use audit::Verdict;
use command_line::{Outcome, Source};
use commands::{Answer, AtFault, Judged, Refused};
use file_advice::Format;
use image_advice::{explain_flaw, explain_kind, explain_no, write_unsettled, write_yes};
use reply_advice::Replies;
use settled::{Settling, settled};
use std::alloc::{AllocError, Global};
use std::io;
use std::io::{ErrorKind, Write};
use table_image::Image;

/// Facts about a run of the program besides its outcome.
#[derive(Drop)]
pub struct Evidence<'a> {
    /// The input, or the file for the image, that the outcome is about.
    pub source: Option<Source<'a>>,
    /// The refusal of the command.
    pub refused: Option<Refused>,
    /// The image, and the verdict on it.
    pub judged: Option<Judged>,
    /// Whether it was asked of tables that pass whether they are settled.
    pub settled: bool,
    /// Whether the input is one of the images that are joined.
    pub joins: bool,
    /// The file for the image or the capture, if it couldn't be written.
    pub missed: Option<Missed<'a>>,
    /// What the file was read as that was played or made.
    pub format: Format,
    /// What is said of the actions or the steps that were refused.
    pub undone: Option<Vec<u8>>,
    /// The replies that were received, if they are to be explained.
    pub replies: Option<Replies>,
    /// What is said of the questions that nobody answered.
    pub unanswered: Option<Vec<u8>>,
    /// The text of the script, or the part of it that was read.
    pub script: Option<Vec<u8>>,
}

impl<'a> Evidence<'a> {
    /// A source, if there is one, and nothing else.
    pub fn of(source: Option<Source<'a>>) -> Evidence<'a>
        ensures source { result.source ≡ source.entry }
        ensures nothing { (result.refused ≡ None) × (result.judged ≡ None) × (result.missed ≡ None)
            × (result.replies ≡ None) }
    {
        Evidence {
            source,
            refused: None,
            judged: None,
            settled: false,
            joins: false,
            missed: None,
            format: Format::Internet,
            undone: None,
            replies: None,
            unanswered: None,
            script: None,
        }
    }

    /// What a command worked out, or its refusal, of a source.
    pub fn of_worked<A: Answer>(source: Source<'a>, worked: Result<A, Refused>) -> Evidence<'a>
        ensures source { result.source ≡ Some source.entry }
        ensures refused { IfErr worked (λ r. result.refused ≡ Some r) }
    {
        match worked {
            Ok(it) => Evidence {
                judged: it.into_judged(),
                ..Evidence::of(Some(source))
            },
            Err(refused) => Evidence {
                refused: Some(refused),
                ..Evidence::of(Some(source))
            },
        }
    }
}

/// Prints that the input is read from the terminal.
pub fn prompt(rt: &impl Eprint, what: &str) {
    let _ = eprintln!(rt;
        "atalk: reading {what} from standard input; Ctrl-C ends it, and atalk --help has help"
    );
}

/// Explains on standard error what was received, and a failed audit or an error.
pub fn explain(rt: &(impl Eprint + AllocGlobal), outcome: &Outcome, evidence: &Evidence<'_>) {
    let _ = explain_outcome(rt, outcome, evidence);
}

fn explain_outcome(
    rt: &(impl Eprint + AllocGlobal),
    outcome: &Outcome,
    evidence: &Evidence<'_>,
) -> io::Result<()> {
    match outcome {
        Outcome::Answered(Ok(_)) => {
            explain_run(rt, evidence)?;
            explain_answer(rt, evidence)
        }
        Outcome::Answered(Err(error)) => explain_error(rt, error, evidence),
        Outcome::NotOpened(kind) => {
            explain_source(rt, evidence)?;
            eprintln!(rt; "cannot be opened: {}", explain_kind(*kind))
        }
        Outcome::NotCreated(kind) => {
            explain_source(rt, evidence)?;
            eprintln!(rt; "cannot be created: {}", explain_kind(*kind))
        }
        Outcome::NoArguments(ErrorKind::OutOfMemory) => eprintln!(rt; "atalk: out of memory"),
        // Clap's text was already printed, or that an argument isn't text.
        Outcome::NoArguments(_) | Outcome::NoJob(_, _) => Ok(()),
    }
}

/// The lines of a text, without their ends.
pub fn lines_in(text: &[u8]) -> std::str::Lines<'_> {
    str::from_utf8(text).unwrap_or("").lines()
}

/// Prints lines that are text.
fn print_lines(rt: &impl Eprint, lines: &[u8]) -> io::Result<()> {
    match str::from_utf8(lines) {
        Ok(text) => eprint!(rt; "{text}"),
        Err(_) => Ok(()),
    }
}

/// Says in words which actions or steps were refused, which replies were received, and which
/// questions nobody answered.
fn explain_run(rt: &(impl Eprint + AllocGlobal), evidence: &Evidence<'_>) -> io::Result<()> {
    if let Some(undone) = &evidence.undone {
        print_lines(rt, undone.as_slice())?;
    }
    if let Some(replies) = &evidence.replies {
        let mut text = Vec::new(rt.alloc());
        replies.write(&mut text)?;
        print_lines(rt, text.as_slice())?;
    }
    match &evidence.unanswered {
        Some(lines) => print_lines(rt, lines.as_slice()),
        None => Ok(()),
    }
}

/// What a yes doesn't cover, a line for each, and why its tables may still change, if that was asked:
/// nothing of a no.
pub fn notes_of(alloc: Global, evidence: &Evidence<'_>) -> io::Result<Vec<u8>> {
    let mut notes = Vec::new(alloc);
    match &evidence.judged {
        Some(
            Judged {
                image,
                verdict: Verdict::Yes(_),
            },
        ) => {
            write_yes(&mut notes, image)?;
            write_settling(&mut notes, image, evidence.settled)?;
        }
        _ => {}
    }
    Ok(notes)
}

/// Writes why tables may still change, if that was asked and they may.
fn write_settling<W: Write>(writer: &mut W, image: &Image, asked: bool) -> io::Result<()> {
    if !asked {
        return Ok(());
    }
    match settled(image) {
        Settling::No(place) => write_unsettled(writer, image, place),
        Settling::Yes => Ok(()),
    }
}

/// Explains a no, or what a yes doesn't cover.
fn explain_answer(rt: &(impl Eprint + AllocGlobal), evidence: &Evidence<'_>) -> io::Result<()> {
    let notes = notes_of(rt.alloc(), evidence)?;
    for note in lines_in(notes.as_slice()) {
        eprintln!(rt; "  {note}")?;
    }
    let Some(
        Judged {
            image,
            verdict: Verdict::No(fault),
        },
    ) = &evidence.judged
    else {
        return Ok(());
    };
    if let Format::Tables = evidence.format {
        // What was written down may be wrong where the router is right.
        eprintln!(rt; "Compare the place that is named here with your notes first.")?;
    }
    explain_no(rt, image, *fault)
}

/// The name of a source, as it is told.
pub fn name_of(alloc: Global, source: Option<Source<'_>>) -> Result<String, AllocError> {
    let mut name = String::new(alloc);
    match source {
        Some(Source::File(path)) => write!(name, "{path:?}")?,
        _ => name.push_str("standard input")?,
    }
    Ok(name)
}

/// Prints the program's name and that of the input.
fn explain_source(rt: &impl Eprint, evidence: &Evidence<'_>) -> io::Result<()> {
    match evidence.source {
        Some(Source::File(path)) => eprint!(rt; "atalk: {path:?} "),
        _ => eprint!(rt; "atalk: standard input "),
    }
}

/// Writes why an image isn't joined to the one of those before it.
fn write_unjoined<W: Write>(writer: &mut W, name: &str, error: Error) -> io::Result<()> {
    match error {
        Error::Full => writeln!(
            writer,
            "atalk: {name}: with this image there are more than 200 routers, or more than 200 nodes"
        ),
        _ => writeln!(
            writer,
            "atalk: {name}: its cables are not those of the first image, with the same ranges and \
            zones, in the same order"
        ),
    }
}

/// Writes what is wrong with an input that was refused: the faults of an internet file or a tables
/// file, the bad line of a script, or why an image isn't joined; nothing of another input.
pub fn write_refused<W: Write>(
    alloc: Global,
    writer: &mut W,
    evidence: &Evidence<'_>,
) -> io::Result<()> {
    let Some(refused) = &evidence.refused else {
        return Ok(());
    };
    let name = name_of(alloc, evidence.source)?;
    match (refused.error, &refused.file) {
        (Error::BadScript(line), _) => {
            let text = bytes_of(&evidence.script).unwrap_or(&[]);
            script_advice::write_bad_line(alloc, writer, name.as_str(), text, line)
        }
        (error @ (Error::NoSuch(_) | Error::Full), _) if evidence.joins => {
            write_unjoined(writer, name.as_str(), error)
        }
        (Error::BadFile(_, _), Some(AtFault { refused, text })) => {
            write!(writer, "atalk: {name}: ")?;
            file_advice::write(alloc, writer, evidence.format, text.as_slice(), refused)
        }
        _ => Ok(()),
    }
}

/// Explains what is wrong with a text, or why an image isn't joined.
fn explain_text(rt: &(impl Eprint + AllocGlobal), evidence: &Evidence<'_>) -> io::Result<()> {
    let mut words = Vec::new(rt.alloc());
    write_refused(rt.alloc(), &mut words, evidence)?;
    print_lines(rt, words.as_slice())
}

/// Explains an error of the inputs.
fn explain_refused(
    rt: &(impl Eprint + AllocGlobal),
    refused: &Refused,
    evidence: &Evidence<'_>,
) -> io::Result<()> {
    match refused.error {
        Error::BadImage(place, cause) => {
            explain_source(rt, evidence)?;
            explain_flaw(rt, place, cause, refused.flawed)
        }
        Error::ReadFault => {
            explain_source(rt, evidence)?;
            match refused.reason {
                Some(kind) => eprintln!(rt; "cannot be read: {}", explain_kind(kind)),
                None => eprintln!(rt; "did not end after {} reads", refused.reads),
            }
        }
        _ => explain_text(rt, evidence),
    }
}

fn explain_error(
    rt: &(impl Eprint + AllocGlobal),
    error: &Error,
    evidence: &Evidence<'_>,
) -> io::Result<()> {
    match error {
        Error::Full if !evidence.joins => eprintln!(rt;
            "atalk: more than 4000000 things happened in the play; plan fewer ticks or stations"
        ),
        Error::WriteFault => match evidence.missed {
            Some(Missed { path, kind }) => {
                eprintln!(rt; "atalk: {path:?} cannot be written: {}", explain_kind(kind))
            }
            None => eprintln!(rt; "atalk: the answer cannot be written to standard output"),
        },
        Error::Memory => eprintln!(rt; "atalk: out of memory"),
        _ => match &evidence.refused {
            Some(refused) => explain_refused(rt, refused, evidence),
            None => Ok(()),
        },
    }
}
