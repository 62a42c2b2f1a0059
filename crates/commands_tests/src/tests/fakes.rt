//! Readers and writers that fail, stop, are slow or buffer bytes.

use std::io;
use std::io::{ErrorKind, Read, Write};

/// A call at which no reader or writer here fails.
pub const NEVER: u32 = 99;

/// Which reads of a reader don't succeed.
#[derive(Clone, Copy)]
pub enum Trouble {
    /// None of them.
    Nowhere,
    /// This one fails, with an error of this kind.
    FailsAt(u32, ErrorKind),
    /// This one is interrupted.
    InterruptedAt(u32),
    /// Each is interrupted.
    Restless,
}

/// A reader that returns its bytes in pieces.
#[derive(Clone, Copy)]
pub struct Pieces<'a> {
    pub left: &'a [u8],
    piece: usize,
    pub reads: u32,
    trouble: Trouble,
}

impl<'a> Pieces<'a> {
    pub fn new(bytes: &'a [u8], piece: usize, trouble: Trouble) -> Pieces<'a> {
        Pieces {
            left: bytes,
            piece,
            reads: 0,
            trouble,
        }
    }
}

impl Read for Pieces<'_> {
    fn read(&mut self, buffer: &mut [u8]) -> io::Result<usize> {
        self.reads = self.reads.saturating_add(1);
        match self.trouble {
            Trouble::FailsAt(read, kind) if read == self.reads => {
                return Err(io::Error::from(kind));
            }
            Trouble::InterruptedAt(read) if read == self.reads => {
                return Err(io::Error::from(ErrorKind::Interrupted));
            }
            Trouble::Restless => return Err(io::Error::from(ErrorKind::Interrupted)),
            _ => {}
        }
        let left = self.left;
        let count = self.piece.min(left.len()).min(buffer.len());
        buffer[..count].copy_from_slice(&left[..count]);
        self.left = &left[count..];
        Ok(count)
    }
}

/// A reader that returns as many bytes as fit: the printable characters of ASCII in turn, from index
/// `next` up to `end`.
#[derive(Clone, Copy)]
pub struct Places {
    pub next: u32,
    pub end: u32,
    pub reads: u32,
}

impl Read for Places {
    fn read(&mut self, buffer: &mut [u8]) -> io::Result<usize> {
        self.reads = self.reads.saturating_add(1);
        for i in 0..buffer.len() {
            if self.next >= self.end {
                return Ok(i);
            }
            buffer[i] = (32 + self.next % 95) as u8;
            self.next += 1;
        }
        Ok(buffer.len())
    }
}

/// A reader that gives these bytes and then a name of three bytes, again and again, without end.
#[derive(Clone, Copy)]
pub struct Endless<'a> {
    pub first: &'a [u8],
    pub reads: u32,
}

impl Read for Endless<'_> {
    fn read(&mut self, buffer: &mut [u8]) -> io::Result<usize> {
        self.reads = self.reads.saturating_add(1);
        let names = b"Red".as_slice();
        for i in 0..buffer.len() {
            buffer[i] = match self.first.get(i) {
                Some(byte) => *byte,
                None => names[(i.wrapping_sub(self.first.len())) % 3],
            };
        }
        self.first = b"".as_slice();
        Ok(buffer.len())
    }
}

/// A writer that has room for some bytes and buffers them until it is flushed; one of its calls may
/// fail. It keeps the first bytes, and counts the others.
#[derive(Clone, Copy)]
pub struct Frail {
    pub calls: u32,
    fails_at: u32,
    room: usize,
    kept: [u8; 400],
    len: usize,
    pub flushed: usize,
}

impl Frail {
    /// A writer with room for all bytes, whose call of this number fails.
    pub fn new(fails_at: u32) -> Frail {
        Frail::with_room(usize::MAX, fails_at)
    }

    /// A writer with room for so many bytes, whose call of this number fails.
    pub fn with_room(room: usize, fails_at: u32) -> Frail {
        Frail {
            calls: 0,
            fails_at,
            room,
            kept: [0; 400],
            len: 0,
            flushed: 0,
        }
    }

    /// Whether this text was written and flushed, and nothing else was written.
    pub fn has(&self, text: &[u8]) -> bool {
        self.len == self.flushed && self.kept.as_slice().get(..self.len) == Some(text)
    }

    fn call(&mut self) -> io::Result<()> {
        self.calls = self.calls.saturating_add(1);
        if self.calls == self.fails_at {
            return Err(io::Error::from(ErrorKind::StorageFull));
        }
        Ok(())
    }
}

impl Write for Frail {
    fn write(&mut self, buffer: &[u8]) -> io::Result<usize> {
        self.call()?;
        let count = buffer.len().min(self.room.saturating_sub(self.len));
        for byte in &buffer[..count] {
            if let Some(place) = self.kept.as_mut_slice().get_mut(self.len) {
                *place = *byte;
            }
            self.len = self.len.saturating_add(1);
        }
        Ok(count)
    }

    fn flush(&mut self) -> io::Result<()> {
        self.call()?;
        self.flushed = self.len;
        Ok(())
    }
}
