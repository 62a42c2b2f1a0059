//! The files that a command writes, from their names to their places.

ghost use Rattle.std.specs.Prelude.{◌≡◌, ◌⊎◌, IfErr, IfOk};
ghost use Rattle.whole_files.specs.Ends as spec;
ghost use Rattle.whole_files.specs.declared.placing.Unwritten.{Unwritten};

use crate::performed::Performed;
use at_base::Error;
use command_line::Outcome;
use std::io;
use std::io::ErrorKind;
use text::Output;
use whole_files::{Ended, Placing, Target, Unwritten, WholeFile};

/// The names of the files that a command is to write.
#[derive(Clone, Copy)]
pub struct Wanted<'a> {
    /// The file for the image, if one is wanted.
    pub image: Option<&'a str>,
    /// The file for the capture, if one is wanted.
    pub capture: Option<&'a str>,
}

/// An output that couldn't be written: its file, and why.
#[derive(Clone, Copy)]
pub struct Missed<'a> {
    pub path: &'a str,
    pub kind: ErrorKind,
}

/// The outputs of a command, of which nothing is written yet.
#[derive(Drop)]
pub struct Outputs {
    pub image: Output<WholeFile>,
    pub capture: Output<WholeFile>,
}

/// The output to the file with this name; nowhere without a name.
fn open(rt: &HostRuntime, path: Option<&str>) -> io::Result<WholeFile> {
    match path {
        Some(path) => WholeFile::open(rt, path, Target::at(rt, path)?),
        None => Ok(WholeFile::nowhere(rt)),
    }
}

/// A run that ended since a file can't be written, or for want of memory to look at it.
fn refused<'a>(path: Option<&'a str>, kind: ErrorKind) -> Performed<'a> {
    match (path, kind) {
        (Some(path), kind) if kind != ErrorKind::OutOfMemory => Performed::not_created(path, kind),
        _ => Performed::without_source(Outcome::Answered(Err(Error::Memory))),
    }
}

impl Outputs {
    /// Looks at the files that are wanted: one that can't be written ends the run here.
    pub fn open<'a>(rt: &HostRuntime, wanted: Wanted<'a>) -> Result<Outputs, Performed<'a>> {
        let image = match open(rt, wanted.image) {
            Ok(image) => image,
            Err(error) => return Err(refused(wanted.image, error.kind())),
        };
        match open(rt, wanted.capture) {
            Ok(capture) => Ok(Outputs {
                image: Output::new(rt.alloc(), image),
                capture: Output::new(rt.alloc(), capture),
            }),
            Err(error) => Err(refused(wanted.capture, error.kind())),
        }
    }

    /// Ends a command with this answer: its files are put in their places, or nothing is left of them.
    pub fn end(self, answer: Result<bool, Error>) -> Ended
        ensures error { IfErr answer (λ e. result ≡ spec.refused e
            (spec.lost self.image.writer.fault self.capture.writer.fault)) }
        ensures verdict { IfOk answer (λ yes. (result ≡ spec.kept yes)
            ⊎ ((unwritten : Unwritten) × (result ≡ spec.missed unwritten))) }
    {
        let Outputs {
            mut image,
            mut capture,
        } = self;
        Placing::new().end(answer, &mut image.writer, &mut capture.writer)
    }
}

impl<'a> Wanted<'a> {
    /// The files for the image and for the capture.
    pub fn of(image: Option<&'a str>, capture: Option<&'a str>) -> Wanted<'a> {
        Wanted { image, capture }
    }

    /// The file of an output that couldn't be written.
    pub fn missed(self, unwritten: Option<Unwritten>) -> Option<Missed<'a>> {
        match (unwritten, self.image, self.capture) {
            (Some(Unwritten::Image(kind)), Some(path), _) => Some(Missed { path, kind }),
            (Some(Unwritten::Capture(kind)), _, Some(path)) => Some(Missed { path, kind }),
            _ => None,
        }
    }
}
