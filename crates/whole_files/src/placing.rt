//! The end of a command: its outputs are put in their places, or nothing is left of them.

ghost use Rattle.std.specs.Prelude.{◌≡◌, ◌⊎◌, IfErr, IfOk, false, true};
ghost use Rattle.whole_files.specs.declared.placing.Unwritten.{Unwritten};
ghost use Rattle.whole_files.specs.Ends as spec;

use crate::part::Part;
use crate::whole_file::{Sink, WholeFile};
use at_base::Error;
use std::io;
use std::io::ErrorKind;

/// An output of a command that couldn't be written, and why.
#[derive(Clone, Copy)]
pub enum Unwritten {
    Image(ErrorKind),
    Capture(ErrorKind),
}

/// A step of putting outputs in their places: it is taken with both before the next one.
#[derive(Clone, Copy)]
enum Step {
    /// All bytes of a part are on the disk.
    Finish,
    /// A file that no part can replace is written in place. This comes before any rename, since such
    /// a file can get back what it had.
    Overwrite,
    /// A part takes the place of its target.
    Rename,
}

/// How a command ended.
#[derive(Clone, Copy)]
pub struct Ended {
    /// The command's answer; an error where an output couldn't be written.
    pub answer: Result<bool, Error>,
    /// The output that couldn't be written, if that is why.
    pub unwritten: Option<Unwritten>,
}

/// Puts parts in the places of their targets.
#[derive(Clone, Copy)]
pub struct Placing {
    /// Whether a rename was asked for.
    pub asked: bool,
}

/// The error of an output that couldn't be written for this reason.
fn error_of(kind: ErrorKind) -> Error
    ensures { result ≡ spec.error_of kind }
{
    match kind {
        ErrorKind::OutOfMemory => Error::Memory,
        _ => Error::WriteFault,
    }
}

/// The output that failed during the command, if one did: the image only where the capture didn't.
fn lost(image: Option<ErrorKind>, capture: Option<ErrorKind>) -> Option<Unwritten>
    ensures { result ≡ spec.lost image capture }
{
    match (capture, image) {
        (Some(kind), _) => Some(Unwritten::Capture(kind)),
        (None, Some(kind)) => Some(Unwritten::Image(kind)),
        (None, None) => None,
    }
}

/// The end of a command that was refused, or couldn't write what it made.
fn refused(error: Error, lost: Option<Unwritten>) -> Ended
    ensures { result ≡ spec.refused error lost }
{
    match (error, lost) {
        (Error::WriteFault, Some(unwritten)) => missed(unwritten),
        _ => Ended {
            answer: Err(error),
            unwritten: None,
        },
    }
}

/// The end of a command one of whose outputs couldn't be written.
fn missed(unwritten: Unwritten) -> Ended
    ensures { result ≡ spec.missed unwritten }
{
    let (Unwritten::Image(kind) | Unwritten::Capture(kind)) = unwritten;
    Ended {
        answer: Err(error_of(kind)),
        unwritten: Some(unwritten),
    }
}

impl Placing {
    /// Nothing was renamed yet.
    pub fn new() -> Placing
        ensures { result.asked ≡ false }
    {
        Placing { asked: false }
    }

    /// Ends a command with this answer. If that is a verdict, its outputs are put in their places, or
    /// neither is; after an error nothing is left of them.
    pub fn end(
        &mut self,
        answer: Result<bool, Error>,
        image: &mut WholeFile,
        capture: &mut WholeFile,
    ) -> Ended
        // After an error no rename was asked for, and the end is that error; where a write failed,
        // with the output that it was of.
        ensures none { IfErr answer (λ _. self.new.asked ≡ self.old.asked) }
        ensures error { IfErr answer (λ e. result
            ≡ spec.refused e (spec.lost image.old.fault capture.old.fault)) }
        // After a verdict the end is that verdict, or names the output that couldn't be written.
        ensures verdict { IfOk answer (λ yes. (result ≡ spec.kept yes)
            ⊎ ((unwritten : Unwritten) × (result ≡ spec.missed unwritten))) }
    {
        let ended = match answer {
            Ok(yes) => self.keep(yes, image, capture),
            Err(error) => refused(error, lost(image.fault, capture.fault)),
        };
        if ended.answer.is_err() {
            image.undo();
            capture.undo();
        }
        ended
    }

    /// The end of a command with this verdict, both of whose outputs are put in their places.
    fn keep(&mut self, yes: bool, image: &mut WholeFile, capture: &mut WholeFile) -> Ended
        ensures { (result ≡ spec.kept yes)
            ⊎ ((unwritten : Unwritten) × (result ≡ spec.missed unwritten)) }
    {
        match self.place(image, capture) {
            Ok(()) => Ended {
                answer: Ok(yes),
                unwritten: None,
            },
            Err(unwritten) => missed(unwritten),
        }
    }

    /// Puts both outputs in their places.
    fn place(&mut self, image: &mut WholeFile, capture: &mut WholeFile) -> Result<(), Unwritten> {
        match self.both(Step::Finish, image, capture) {
            Ok(()) => {}
            unfinished => return unfinished,
        }
        match self.both(Step::Overwrite, image, capture) {
            Ok(()) => {}
            unwritten => return unwritten,
        }
        self.both(Step::Rename, image, capture)
    }

    /// Takes a step with both outputs.
    fn both(
        &mut self,
        step: Step,
        image: &mut WholeFile,
        capture: &mut WholeFile,
    ) -> Result<(), Unwritten> {
        if let Err(error) = self.take(step, image) {
            return Err(Unwritten::Image(error.kind()));
        }
        match self.take(step, capture) {
            Ok(()) => Ok(()),
            Err(error) => Err(Unwritten::Capture(error.kind())),
        }
    }

    /// Takes a step with an output.
    fn take(&mut self, step: Step, file: &mut WholeFile) -> io::Result<()> {
        match &mut file.sink {
            Sink::Part(part) => match step {
                Step::Finish => part.finish(&file.rt),
                Step::Overwrite => Ok(()),
                Step::Rename => self.ask(&file.rt, part),
            },
            Sink::Over(over) => match step {
                Step::Overwrite => over.write(),
                _ => Ok(()),
            },
            _ => Ok(()),
        }
    }

    /// Asks the system to put a part in the place of its target.
    fn ask(&mut self, rt: &HostRuntime, part: &Part) -> io::Result<()>
        ensures { self.new.asked ≡ true }
    {
        self.asked = true;
        part.rename(rt)
    }
}
