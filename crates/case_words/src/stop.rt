//! Why a command has no answer.

use at_base::Error;
use std::alloc::{AllocError, AllocFailed};
use std::fmt;

/// Why a command has no answer.
#[derive(Clone, Copy, Debug, PartialEq, Eq)]
pub enum Stop {
    /// A call of the command returned this error.
    Refused(Error),
    /// The line isn't a command, or lacks a word.
    Unclear,
}

/// The result of a command, besides the text that it appends.
pub type Answer = Result<(), Stop>;

impl fmt::Display for Stop {
    fn fmt<W: fmt::Write>(&self, f: &mut fmt::Formatter<W>) -> fmt::Result {
        match self {
            Stop::Refused(error) => write!(f, "{error}"),
            Stop::Unclear => write!(f, "not a command"),
        }
    }
}

impl From<Error> for Stop {
    fn from(error: Error) -> Stop {
        Stop::Refused(error)
    }
}

impl From<AllocError> for Stop {
    fn from(_error: AllocError) -> Stop {
        Stop::Refused(Error::Memory)
    }
}

impl<T: Drop> From<AllocFailed<T>> for Stop {
    fn from(_error: AllocFailed<T>) -> Stop {
        Stop::Refused(Error::Memory)
    }
}
