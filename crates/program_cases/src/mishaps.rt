//! Readers and writers to which something happens at one of their calls.

use std::alloc::{AllocError, Global};
use std::io;
use std::io::{ErrorKind, Read, Write};

/// What happens at a call.
#[derive(Clone, Copy)]
pub(crate) enum Mishap {
    /// It fails.
    Fails,
    /// Only one byte is read or written.
    IsShort,
    /// It is interrupted.
    IsInterrupted,
}

/// A mishap at the call with this number, from 1; at none, if the number is 0.
#[derive(Clone, Copy)]
pub(crate) struct Turn {
    pub(crate) at: u32,
    pub(crate) mishap: Mishap,
}

impl Turn {
    /// No mishap at any call.
    pub(crate) const NEVER: Turn = Turn {
        at: 0,
        mishap: Mishap::Fails,
    };

    /// The number of bytes that the call with this number may handle of so many.
    fn count(self, call: u32, of: usize) -> io::Result<usize> {
        if call != self.at {
            return Ok(of);
        }
        match self.mishap {
            Mishap::Fails => Err(io::Error::from(ErrorKind::Other)),
            Mishap::IsShort => Ok(of.min(1)),
            Mishap::IsInterrupted => Err(io::Error::from(ErrorKind::Interrupted)),
        }
    }
}

/// A reader that gives its bytes in pieces of at most so many.
#[derive(Clone, Copy)]
pub(crate) struct Pieces<'a> {
    pub(crate) left: &'a [u8],
    pub(crate) piece: usize,
    pub(crate) turn: Turn,
    /// How often it was called.
    pub(crate) calls: u32,
}

impl Read for Pieces<'_> {
    fn read(&mut self, buffer: &mut [u8]) -> io::Result<usize> {
        self.calls = self.calls.saturating_add(1);
        let left = self.left;
        let most = self.piece.min(left.len()).min(buffer.len());
        let count = self.turn.count(self.calls, most)?.min(most);
        buffer[..count].copy_from_slice(&left[..count]);
        self.left = &left[count..];
        Ok(count)
    }
}

/// A writer that keeps its bytes, as many as it has room for.
#[derive(Drop)]
pub(crate) struct Kept {
    pub(crate) bytes: Vec<u8>,
    pub(crate) turn: Turn,
    /// How often it was called to write or to flush.
    pub(crate) calls: u32,
}

impl Kept {
    pub(crate) fn new(alloc: Global, room: usize, turn: Turn) -> Result<Kept, AllocError> {
        Ok(Kept {
            bytes: Vec::with_capacity(alloc, room)?,
            turn,
            calls: 0,
        })
    }
}

impl Write for Kept {
    fn write(&mut self, buffer: &[u8]) -> io::Result<usize> {
        self.calls = self.calls.saturating_add(1);
        let count = self.turn.count(self.calls, buffer.len())?.min(buffer.len());
        match self.bytes.extend_from_slice(&buffer[..count]) {
            Ok(()) => Ok(count),
            Err(_) => Err(io::Error::from(ErrorKind::OutOfMemory)),
        }
    }

    fn flush(&mut self) -> io::Result<()> {
        self.calls = self.calls.saturating_add(1);
        self.turn.count(self.calls, 1)?;
        Ok(())
    }
}
