//! The outcome of a run of the program.

ghost use Rattle.std.specs.Prelude.{◌≡◌, Some, true};

use crate::explain::Evidence;
use clap::error::ErrorKind as ParseError;
use command_line::{Outcome, Source};
use std::io;

/// The outcome of a run of the program, and what explains it.
#[derive(Drop)]
pub struct Performed<'a> {
    pub outcome: Outcome,
    pub evidence: Evidence<'a>,
}

impl<'a> Performed<'a> {
    /// A run that ended before it had a source.
    pub fn without_source(outcome: Outcome) -> Performed<'a>
        ensures { result.outcome ≡ outcome }
    {
        Performed {
            outcome,
            evidence: Evidence::of(None),
        }
    }

    /// A usage error, whose text was printed.
    pub fn misused(kind: ParseError) -> Performed<'a>
        ensures { result.outcome ≡ Outcome.NoJob kind true }
    {
        Performed::without_source(Outcome::NoJob(kind, true))
    }

    /// A run that couldn't open a source.
    pub fn not_opened(source: Source<'a>, kind: io::ErrorKind) -> Performed<'a>
        ensures outcome { result.outcome ≡ Outcome.NotOpened kind }
        ensures source { result.evidence.source ≡ Some source.entry }
    {
        Performed {
            outcome: Outcome::NotOpened(kind),
            evidence: Evidence::of(Some(source)),
        }
    }

    /// A run that couldn't create the file for the image or the capture.
    pub fn not_created(path: &'a str, kind: io::ErrorKind) -> Performed<'a>
        ensures outcome { result.outcome ≡ Outcome.NotCreated kind }
        ensures source { result.evidence.source ≡ Some (Source.File path.entry) }
    {
        Performed {
            outcome: Outcome::NotCreated(kind),
            evidence: Evidence::of(Some(Source::File(path))),
        }
    }
}
