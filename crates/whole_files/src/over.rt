//! Files that are written in place, since no part can replace them.

ghost use Rattle.std.specs.Io.{WritesAtMost};

use crate::part::settle;
use std::fs::{File, OpenOptions};
use std::io;
use std::io::{Read, Seek, SeekFrom, Write};
use std::rt::Files;

/// A file that is open for writing, and the bytes that will take the place of its own.
#[derive(Drop)]
pub(crate) struct Over {
    pub(crate) file: File,
    /// Whether it is open for reading, too.
    is_read: bool,
    bytes: Vec<u8>,
    /// What the file had before it was written in place, if `knows_old`.
    old: Vec<u8>,
    knows_old: bool,
}

/// Opens the file at a path for writing, as it is, and for reading, too, if that is asked for.
pub(crate) fn open_for_writing(rt: &HostRuntime, path: &str, read: bool) -> io::Result<File> {
    let mut options = OpenOptions::new();
    options.write(true).read(read);
    rt.open_file(&options, path)
}

/// Makes these bytes the whole of a file.
fn fill(file: &mut File, bytes: &[u8]) -> io::Result<()> {
    if let Err(error) = file.seek(SeekFrom::Start(0)) {
        return Err(error);
    }
    if let Err(error) = file.write_all(bytes) {
        return Err(error);
    }
    match file.set_len(bytes.len() as u64) {
        Ok(()) => settle(file),
        Err(error) => Err(error),
    }
}

impl Over {
    /// The file at a path, which is opened for writing without being cut, and for reading, too, if it
    /// may be read.
    pub(crate) fn open(rt: &HostRuntime, path: &str) -> io::Result<Over> {
        match open_for_writing(rt, path, true) {
            Ok(file) => Ok(Over::new(rt, file, true)),
            Err(_) => match open_for_writing(rt, path, false) {
                Ok(file) => Ok(Over::new(rt, file, false)),
                Err(error) => Err(error),
            },
        }
    }

    /// The open file, to which nothing is written yet.
    fn new(rt: &HostRuntime, file: File, is_read: bool) -> Over {
        Over {
            file,
            is_read,
            bytes: Vec::new(rt.alloc()),
            old: Vec::new(rt.alloc()),
            knows_old: false,
        }
    }

    /// Keeps bytes until the file is written. Error: `OutOfMemory`.
    pub(crate) fn keep(&mut self, bytes: &[u8]) -> io::Result<usize>
        ensures { WritesAtMost result bytes.now }
    {
        match self.bytes.extend_from_slice(bytes) {
            Ok(()) => Ok(bytes.len()),
            Err(error) => Err(io::Error::from(error)),
        }
    }

    /// Writes the file in place, after its old bytes were read, if they may be.
    pub(crate) fn write(&mut self) -> io::Result<()> {
        if self.is_read {
            if let Err(error) = self.file.read_to_end(&mut self.old) {
                return Err(error);
            }
            self.knows_old = true;
        }
        fill(&mut self.file, self.bytes.as_slice())
    }

    /// Gives the file the bytes that it had, if it was written in place and they are known.
    pub(crate) fn undo(&mut self) {
        if self.knows_old {
            let _ = fill(&mut self.file, self.old.as_slice());
        }
    }
}
