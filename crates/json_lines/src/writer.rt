//! A writer of JSON objects, for the lines of a command.

use crate::objects::object_of;
use std::alloc::{AllocError, Global};
use std::io;
use std::io::Write;

/// Takes the lines of a command, and writes one JSON object and a line feed for each.
#[derive(Drop)]
pub struct JsonLines<'a, W> {
    alloc: Global,
    writer: W,
    /// The name of the input, if each object has it.
    file: Option<&'a str>,
    line: Vec<u8>,
}

/// The text of the object of a line of a command: none for any other line.
fn text_for(alloc: Global, line: &[u8], file: Option<&str>) -> Result<String, AllocError> {
    let Ok(line) = str::from_utf8(line) else {
        return Ok(String::new(alloc));
    };
    let Some(mut object) = object_of(alloc, line)? else {
        return Ok(String::new(alloc));
    };
    object.named(file)?;
    object.into_line()
}

impl<'a, W: Write> JsonLines<'a, W> {
    /// A writer that has taken nothing. Where an input is named, each object has its name. Allocates
    /// nothing.
    pub fn new(alloc: Global, writer: W, file: Option<&'a str>) -> JsonLines<'a, W> {
        JsonLines {
            alloc,
            writer,
            file,
            line: Vec::new(alloc),
        }
    }

    /// Writes the object of the line that ends here.
    fn end_line(&mut self) -> io::Result<()> {
        let text = text_for(self.alloc, self.line.as_slice(), self.file)?;
        self.line.clear();
        self.writer.write_all(text.as_bytes())
    }
}

impl<W: Write> Write for JsonLines<'_, W> {
    fn write(&mut self, bytes: &[u8]) -> io::Result<usize> {
        for byte in bytes {
            if *byte == b'\n' {
                self.end_line()?;
            } else {
                self.line.push(*byte)?;
            }
        }
        Ok(bytes.len())
    }

    fn flush(&mut self) -> io::Result<()> {
        self.writer.flush()
    }
}
