//! The bench of a case, with which its commands are carried out.

use crate::answers::{self, image_of};
use case_words::{Answer, Bench, Stop, Words};
use std::alloc::Global;
use table_image::Image;
use text::put_decimal;

/// The text of a tables file, and the bytes of an image.
#[derive(Drop)]
pub(crate) struct Tables {
    alloc: Global,
    text: Vec<u8>,
    bytes: Vec<u8>,
}

/// The line for each number from `first` to `last`, with the number in place of each `#`.
fn numbered(alloc: Global, line: &[u8], first: u32, last: u32) -> Result<Vec<u8>, Stop> {
    let mut lines = Vec::new(alloc);
    for number in first..last.saturating_add(1) {
        for byte in line {
            match *byte {
                b'#' => put_decimal(&mut lines, number)?,
                byte => lines.push(byte)?,
            }
        }
        lines.push(b'\n')?;
    }
    Ok(lines)
}

impl Tables {
    /// Appends a line to the text, the whole line or, if an allocation fails, nothing.
    fn add_line(&mut self, mut words: Words<'_>) -> Answer {
        let line = words.rest().as_bytes();
        self.text.reserve(line.len().saturating_add(1))?;
        self.text.extend_from_slice(line)?;
        self.text.push(b'\n')?;
        Ok(())
    }

    /// Appends numbered lines to the text, as those of `each 1 3 {cable = #},`.
    fn add_each(&mut self, mut words: Words<'_>) -> Answer {
        let first = words.number()?;
        let last = words.number()?;
        let lines = numbered(self.alloc, words.rest().as_bytes(), first, last)?;
        self.text.extend_from_slice(lines.as_slice())?;
        Ok(())
    }

    /// Appends bytes to the text.
    fn add_text(&mut self, mut words: Words<'_>) -> Answer {
        let more = words.text(self.alloc)?;
        self.text.extend_from_slice(more.as_slice())?;
        Ok(())
    }

    /// Appends bytes to the image.
    fn add_bytes(&mut self, mut words: Words<'_>) -> Answer {
        let more = words.bytes(self.alloc)?;
        self.bytes.extend_from_slice(more.as_slice())?;
        Ok(())
    }

    /// The image of the case: that of its bytes if it has any, otherwise that of its text, with the
    /// text in the words after it.
    fn image(&self, words: Words<'_>) -> Result<Image, Stop> {
        let image = if self.bytes.is_empty() {
            image_of(self.alloc, self.longer(words)?.as_slice())?
        } else {
            image_feed::read(self.alloc, self.bytes.as_slice())?
        };
        Ok(image)
    }

    /// The text with the text in the words after it.
    fn longer(&self, mut words: Words<'_>) -> Result<Vec<u8>, Stop> {
        let mut whole = self.text.clone()?;
        if !words.is_empty() {
            whole.extend_from_slice(words.text(self.alloc)?.as_slice())?;
        }
        Ok(whole)
    }

    /// Appends the drawing of the image, with the ways to the network in the words, if one is there.
    fn draw(&self, mut words: Words<'_>, text: &mut String) -> Answer {
        let to = if words.is_empty() {
            None
        } else {
            Some(words.number()?)
        };
        answers::draw(self.alloc, &self.image(words)?, to, text)
    }
}

impl Bench for Tables {
    fn new(alloc: Global) -> Tables {
        Tables {
            alloc,
            text: Vec::new(alloc),
            bytes: Vec::new(alloc),
        }
    }

    fn act(&mut self, mut words: Words<'_>, text: &mut String) -> Answer {
        let first = words.word();
        match first {
            "|" => self.add_line(words),
            "each" => self.add_each(words),
            "text" => self.add_text(words),
            "bytes" => self.add_bytes(words),
            "draw" => self.draw(words, text),
            "make" | "image" | "show" | "settled" | "again" => {
                answers::answer(self.alloc, &self.image(words)?, first, text)
            }
            _ => Err(Stop::Unclear),
        }
    }
}
