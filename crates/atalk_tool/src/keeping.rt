//! Readers whose text is kept for explanations.

use std::alloc::Global;
use std::io;
use std::io::Read;

/// The longest text that is kept. What is longer is read, and its lines aren't told.
const MOST: usize = 16_777_216;

/// A reader, and what was read of it, if that is kept.
#[derive(Drop)]
pub struct Keeping<S> {
    reader: S,
    text: Option<Vec<u8>>,
}

impl<S: Read + Drop> Keeping<S> {
    /// A reader whose text is kept if it is to be explained.
    pub fn new(alloc: Global, reader: S, kept: bool) -> Keeping<S> {
        Keeping {
            reader,
            text: if kept { Some(Vec::new(alloc)) } else { None },
        }
    }

    /// What was read, if it was kept.
    pub fn into_text(self) -> Option<Vec<u8>> {
        self.text
    }

    /// Keeps a piece. Where it can't, no text is kept any more.
    fn keep(&mut self, piece: &[u8]) {
        let stays = match &mut self.text {
            Some(text) => text.len() < MOST && text.extend_from_slice(piece).is_ok(),
            None => true,
        };
        if !stays {
            self.text = None;
        }
    }
}

impl<S: Read + Drop> Read for Keeping<S> {
    fn read(&mut self, buffer: &mut [u8]) -> io::Result<usize> {
        let count = self.reader.read(buffer)?;
        self.keep(&buffer[..count]);
        Ok(count)
    }
}

/// The bytes of a text, if there is one.
pub fn bytes_of(text: &Option<Vec<u8>>) -> Option<&[u8]> {
    match text {
        Some(text) => Some(text.as_slice()),
        None => None,
    }
}
