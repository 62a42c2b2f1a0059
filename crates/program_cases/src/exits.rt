//! The exit status of each outcome of the program.

use at_base::{Cause, Error, Fault, Field, Part, Place, What};
use case_words::{Answer, Stop, Words};
use clap::error::ErrorKind as ParseError;
use command_line::{Outcome, exit_of, status};
use std::io::ErrorKind;

/// An error by its number; an error with fields has fixed ones.
fn error(number: u8) -> Result<Error, Stop> {
    Ok(match number {
        1 => Error::Truncated,
        2 => Error::BadLength,
        3 => Error::BadChecksum,
        4 => Error::BadField(Field::Taken),
        5 => Error::BadRange,
        6 => Error::BadName,
        7 => Error::TooLong,
        8 => Error::NoSuch(What::Name),
        9 => Error::NotPending,
        10 => Error::NoRouter,
        11 => Error::Full,
        12 => Error::BadImage(4, Cause::Version),
        13 => Error::BadFile(Part::Cable, 1),
        14 => Error::Memory,
        15 => Error::ReadFault,
        16 => Error::WriteFault,
        17 => Error::BadScript(1),
        18 => Error::NotAudited(Fault {
            rule: 1,
            place: Place::Cable(1),
        }),
        19 => Error::BadCapture(1),
        _ => return Err(Stop::Unclear),
    })
}

fn parse_error(words: &mut Words<'_>) -> Result<ParseError, Stop> {
    Ok(match words.word() {
        "help" => ParseError::DisplayHelp,
        "version" => ParseError::DisplayVersion,
        "unknown" => ParseError::UnknownArgument,
        "missing" => ParseError::MissingRequiredArgument,
        "subcommand" => ParseError::InvalidSubcommand,
        "memory" => ParseError::OutOfMemory,
        _ => return Err(Stop::Unclear),
    })
}

fn io_error(words: &mut Words<'_>) -> Result<ErrorKind, Stop> {
    Ok(match words.word() {
        "memory" => ErrorKind::OutOfMemory,
        "data" => ErrorKind::InvalidData,
        "missing" => ErrorKind::NotFound,
        "denied" => ErrorKind::PermissionDenied,
        _ => return Err(Stop::Unclear),
    })
}

/// The result of a command: yes, no, or an error.
fn given(word: &str, words: &mut Words<'_>) -> Result<Result<bool, Error>, Stop> {
    Ok(match word {
        "yes" => Ok(true),
        "no" => Ok(false),
        "error" => Err(error(words.number()?)?),
        _ => return Err(Stop::Unclear),
    })
}

fn outcome(words: &mut Words<'_>) -> Result<Outcome, Stop> {
    Ok(match words.word() {
        "no-arguments" => Outcome::NoArguments(io_error(words)?),
        "no-job" => {
            let reason = parse_error(words)?;
            words.expect("printed")?;
            Outcome::NoJob(reason, words.yes_or_no()?)
        }
        "not-opened" => Outcome::NotOpened(io_error(words)?),
        "not-created" => Outcome::NotCreated(io_error(words)?),
        word => Outcome::Answered(given(word, words)?),
    })
}

/// Appends the status of an outcome, and the number of its error, if it has one.
pub(crate) fn answer(mut words: Words<'_>, text: &mut String) -> Answer {
    let exit = exit_of(&outcome(&mut words)?);
    let status = exit.status;
    match exit.refusal {
        Some(number) => writeln!(text, "status {status}, refused: {number}")?,
        None => writeln!(text, "status {status}")?,
    }
    Ok(())
}

/// Appends the status for a command's result.
pub(crate) fn status_of(mut words: Words<'_>, text: &mut String) -> Answer {
    let word = words.word();
    let status = status(&given(word, &mut words)?);
    writeln!(text, "status {status}")?;
    Ok(())
}
