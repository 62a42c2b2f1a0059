//! The outputs of a command.

ghost use Rattle.std.specs.Io.{WritesAtMost};

use crate::over::{Over, open_for_writing};
use crate::part::Part;
use crate::place::Target;
use std::fs::File;
use std::io;
use std::io::{ErrorKind, Write};
use std::path::PathBuf;

/// Where the bytes of an output go until the command ends.
#[derive(Drop)]
pub(crate) enum Sink {
    /// Nowhere: the output isn't wanted.
    Nowhere,
    /// To a pipe or a device, as they come.
    Stream(File),
    /// Into memory, since the file is written in place.
    Over(Over),
    /// To a part beside the file.
    Part(Part),
}

/// An output of a command: a file that is written whole or stays as it was, a pipe or a device, or
/// nothing.
#[derive(Drop)]
pub struct WholeFile {
    pub(crate) rt: HostRuntime,
    pub(crate) sink: Sink,
    /// Why a write failed, if one did.
    pub fault: Option<ErrorKind>,
}

/// The sink of a file that isn't there yet.
fn new(rt: &HostRuntime, target: PathBuf) -> io::Result<Sink> {
    let mut part = Part::new(rt, target);
    match part.try_out(rt) {
        Ok(_) => Ok(Sink::Part(part)),
        Err(error) => Err(error),
    }
}

/// The sink of an existing file: it is opened for writing, so that one which can't be written is
/// refused now.
fn existing(rt: &HostRuntime, path: &str, resolved: Option<PathBuf>) -> io::Result<Sink> {
    match Over::open(rt, path) {
        Ok(over) => match resolved {
            Some(target) => replaced(rt, over, target),
            None => Ok(Sink::Over(over)),
        },
        Err(error) => Err(error),
    }
}

/// The sink of an existing file that is open for writing: a part, where one can replace the target.
fn replaced(rt: &HostRuntime, over: Over, target: PathBuf) -> io::Result<Sink> {
    let mut part = Part::new(rt, target);
    match part.can_replace(rt, &over.file) {
        Ok(true) => Ok(Sink::Part(part)),
        Ok(false) => Ok(Sink::Over(over)),
        Err(error) => Err(error),
    }
}

impl WholeFile {
    /// An output that isn't wanted.
    pub fn nowhere(rt: &HostRuntime) -> WholeFile {
        WholeFile {
            rt: *rt,
            sink: Sink::Nowhere,
            fault: None,
        }
    }

    /// The output to the target of a path. Nothing is written yet. Errors: that the target can't be
    /// written, and `OutOfMemory`.
    pub fn open(rt: &HostRuntime, path: &str, target: Target) -> io::Result<WholeFile> {
        let sink = match target {
            Target::Stream => match open_for_writing(rt, path, false) {
                Ok(file) => Ok(Sink::Stream(file)),
                Err(error) => Err(error),
            },
            Target::Existing(_, resolved) => existing(rt, path, resolved),
            Target::New(path) => new(rt, path),
        };
        match sink {
            Ok(sink) => Ok(WholeFile {
                rt: *rt,
                sink,
                fault: None,
            }),
            Err(error) => Err(error),
        }
    }

    /// Writes some of the bytes to where they wait, and returns how many.
    fn write_some(&mut self, bytes: &[u8]) -> io::Result<usize>
        ensures { WritesAtMost result bytes.now }
    {
        match &mut self.sink {
            Sink::Nowhere => Ok(bytes.len()),
            Sink::Stream(file) => file.write(bytes),
            Sink::Over(over) => over.keep(bytes),
            Sink::Part(part) => part.write(&self.rt, bytes),
        }
    }

    /// Nothing is left of the output, unless it is a pipe or a device: a part is removed, and a file
    /// that was written in place gets back what it had.
    pub(crate) fn undo(&mut self) {
        match &mut self.sink {
            Sink::Over(over) => over.undo(),
            Sink::Part(part) => {
                let _ = part.remove(&self.rt);
            }
            _ => {}
        }
    }
}

impl Write for WholeFile {
    fn write(&mut self, bytes: &[u8]) -> io::Result<usize> {
        let done = self.write_some(bytes);
        if let Err(error) = &done {
            match error.kind() {
                // A write that was interrupted is tried again.
                ErrorKind::Interrupted => {}
                kind => self.fault = Some(kind),
            }
        }
        done
    }

    fn flush(&mut self) -> io::Result<()> {
        Ok(())
    }
}
