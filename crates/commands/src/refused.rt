//! Why a call has no answer.

ghost use Rattle.std.specs.Prelude.{◌≡◌, None, IsSomeAnd};

use at_base::Error;
use file_entries::Refused as FileRefused;
use std::io::ErrorKind;

/// One of the inputs of a call.
#[derive(Clone, Copy, Debug, PartialEq, Eq)]
pub enum Origin {
    /// The image of a trace, or the only input.
    Input,
    /// The script of a trace.
    Script,
}

/// A file that isn't what it is read as.
#[derive(Debug, Drop)]
pub struct AtFault {
    /// Its text, or the part of it that was read.
    pub text: Vec<u8>,
    /// Its error and its faults. A text that isn't TOML has no faults.
    pub refused: FileRefused,
}

/// A refusal: its error, and what explains it to a person.
#[derive(Debug, Drop)]
pub struct Refused {
    /// The error.
    pub error: Error,
    /// The input that it is about, if it is about one.
    pub origin: Origin,
    /// Why a read failed. An input that can't be read and has no such reason didn't end.
    pub reason: Option<ErrorKind>,
    /// The number of reads of an input that can't be read.
    pub reads: u32,
    /// The byte at the first flaw of an image.
    pub flawed: Option<u8>,
    /// The file that is at fault.
    pub file: Option<AtFault>,
}

impl Refused {
    /// A refusal that nothing explains but its error.
    pub fn of(error: Error) -> Refused
        ensures error { result.error ≡ error }
        ensures origin { result.origin ≡ Origin.Input }
        ensures reason { result.reason ≡ None }
    {
        Refused {
            error,
            origin: Origin::Input,
            reason: None,
            reads: 0,
            flawed: None,
            file: None,
        }
    }

    /// The refusal of an input that can't be read to its end, for this reason; without one, it
    /// didn't end in so many reads.
    pub(crate) fn unread(reason: Option<ErrorKind>, reads: u32) -> Refused
        ensures error { result.error ≡ Error.ReadFault }
        ensures origin { result.origin ≡ Origin.Input }
        ensures reason { result.reason ≡ reason }
        ensures reads { result.reads ≡ reads }
    {
        Refused {
            reason,
            reads,
            ..Refused::of(Error::ReadFault)
        }
    }

    /// The refusal of an image, with the byte at its first flaw.
    pub(crate) fn flawed(error: Error, byte: Option<u8>) -> Refused
        ensures error { result.error ≡ error }
        ensures origin { result.origin ≡ Origin.Input }
        ensures reason { result.reason ≡ None }
        ensures byte { result.flawed ≡ byte }
    {
        Refused {
            flawed: byte,
            ..Refused::of(error)
        }
    }

    /// The refusal of a file with this text.
    pub(crate) fn at_fault(refused: FileRefused, text: Vec<u8>) -> Refused
        ensures error { result.error ≡ refused.error }
        ensures origin { result.origin ≡ Origin.Input }
        ensures reason { result.reason ≡ None }
        ensures file { IsSomeAnd result.file (λ f. (f.text ≡ text) × (f.refused ≡ refused)) }
    {
        let error = refused.error;
        Refused {
            file: Some(AtFault { text, refused }),
            ..Refused::of(error)
        }
    }

    /// The same refusal, of a script.
    pub(crate) fn in_script(self) -> Refused
        ensures error { result.error ≡ self.error }
        ensures origin { result.origin ≡ Origin.Script }
        ensures reason { result.reason ≡ self.reason }
        ensures reads { result.reads ≡ self.reads }
    {
        Refused {
            origin: Origin::Script,
            ..self
        }
    }
}
