//! The objects that are printed after a command: its refusal, or its notes.

use crate::explain::{Evidence, lines_in, notes_of, write_refused};
use crate::performed::Performed;
use crate::telling::Objects;
use at_base::Error;
use command_line::Outcome;
use json_lines::{note, refusal};
use std::io;

/// The error of an outcome that is a refusal.
fn error_of(outcome: &Outcome) -> Option<Error> {
    match *outcome {
        Outcome::NotOpened(_) => Some(Error::ReadFault),
        Outcome::NotCreated(_) => Some(Error::WriteFault),
        Outcome::Answered(Err(error)) => Some(error),
        Outcome::NoArguments(_) | Outcome::NoJob(_, _) | Outcome::Answered(Ok(_)) => None,
    }
}

/// Prints an object there.
fn print_object(rt: &(impl Print + Eprint), to: Objects, object: &str) -> io::Result<()> {
    match to {
        Objects::Output => print!(rt; "{object}"),
        Objects::Errors => eprint!(rt; "{object}"),
    }
}

/// Prints the object of each line of a text as a note.
fn print_notes(
    rt: &(impl Print + Eprint + AllocGlobal),
    to: Objects,
    lines: &[u8],
    name: Option<&str>,
) -> io::Result<()> {
    for line in lines_in(lines) {
        let object = note(rt.alloc(), line, name)?;
        print_object(rt, to, object.as_str())?;
    }
    Ok(())
}

/// Prints the notes of a command that was carried out.
fn print_evidence(
    rt: &(impl Print + Eprint + AllocGlobal),
    to: Objects,
    evidence: &Evidence<'_>,
    name: Option<&str>,
) -> io::Result<()> {
    if let Some(lines) = &evidence.undone {
        print_notes(rt, to, lines.as_slice(), name)?;
    }
    if let Some(lines) = &evidence.unanswered {
        print_notes(rt, to, lines.as_slice(), name)?;
    }
    let notes = notes_of(rt.alloc(), evidence)?;
    print_notes(rt, to, notes.as_slice(), name)
}

/// Prints the object of a refusal, or those of notes; each has the name of its input, if that is one
/// of several. If a write fails, nothing more is printed.
pub fn print_objects(
    rt: &(impl Print + Eprint + AllocGlobal),
    to: Objects,
    performed: &Performed<'_>,
    name: Option<&str>,
) {
    let _ = match error_of(&performed.outcome) {
        Some(error) => print_refusal(rt, to, &error, &performed.evidence, name),
        None => print_evidence(rt, to, &performed.evidence, name),
    };
}

/// Prints the object of a refusal, and a note for each fault of a file or a bad line.
fn print_refusal(
    rt: &(impl Print + Eprint + AllocGlobal),
    to: Objects,
    error: &Error,
    evidence: &Evidence<'_>,
    name: Option<&str>,
) -> io::Result<()> {
    let object = refusal(rt.alloc(), error, name)?;
    print_object(rt, to, object.as_str())?;
    let mut lines = Vec::new(rt.alloc());
    write_refused(rt.alloc(), &mut lines, evidence)?;
    print_notes(rt, to, lines.as_slice(), name)
}
