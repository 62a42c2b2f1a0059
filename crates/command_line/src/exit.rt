//! The exit of each outcome: of the arguments, of opening the files and of the job.

ghost use Rattle.std.specs.Prelude.{◌≡◌};
ghost use Rattle.command_line.specs.Exits as spec;
ghost use Rattle.command_line.specs.Exits.{exit_at};

use crate::exit_status::status;
use at_base::Error;
use clap::error::ErrorKind as ParseError;
use std::io::ErrorKind;

/// The outcome of the program.
#[derive(Clone, Copy)]
pub enum Outcome {
    /// The arguments couldn't be read, because of this error.
    NoArguments(ErrorKind),
    /// The arguments have no job: clap's error, and whether its text could be printed.
    NoJob(ParseError, bool),
    /// The file couldn't be opened, because of this error.
    NotOpened(ErrorKind),
    /// The file for the image couldn't be created, because of this error.
    NotCreated(ErrorKind),
    /// The result of the audit, the trace or the play.
    Answered(Result<bool, Error>),
}

/// The exit status, and the number of the error that is printed on standard error, if there is one.
#[derive(Clone, Copy, Debug, PartialEq, Eq)]
pub struct Exit {
    pub status: u8,
    pub refusal: Option<u8>,
}

fn refused(error: Error) -> Exit
    ensures { result ≡ spec.refused error }
{
    Exit {
        status: status(&Err(error)),
        refusal: Some(error.number()),
    }
}

/// The exit of an outcome.
pub fn exit_of(outcome: &Outcome) -> Exit
    ensures { result ≡ exit_at outcome.now }
{
    let status = match *outcome {
        Outcome::NoArguments(ErrorKind::OutOfMemory) => return refused(Error::Memory),
        Outcome::NoArguments(_) => 2,
        Outcome::NoJob(ParseError::OutOfMemory, _) => return refused(Error::Memory),
        Outcome::NoJob(ParseError::DisplayHelp | ParseError::DisplayVersion, true) => 0,
        Outcome::NoJob(ParseError::DisplayHelp | ParseError::DisplayVersion, false) => {
            return refused(Error::WriteFault);
        }
        Outcome::NoJob(_, _) => 2,
        Outcome::NotOpened(_) => return refused(Error::ReadFault),
        Outcome::NotCreated(_) => return refused(Error::WriteFault),
        Outcome::Answered(Err(error)) => return refused(error),
        Outcome::Answered(Ok(yes)) => status(&Ok(yes)),
    };
    Exit {
        status,
        refusal: None,
    }
}
