//! The members of an object.

use serde_json::{Map, Value, put};
use std::alloc::{AllocError, Global};
use text::number::number;

/// An object that is put together member by member.
#[derive(Drop)]
pub(crate) struct Members {
    alloc: Global,
    all: Map<String, Value>,
}

/// The number that a word is, with or without a comma behind it.
fn counted(word: &str) -> Value {
    match number(u32::MAX, word.trim_end_matches(',').as_bytes()) {
        Some(count) => Value::from(count),
        None => Value::Null,
    }
}

impl Members {
    /// No members. Allocates nothing.
    pub(crate) fn new(alloc: Global) -> Members {
        Members {
            alloc,
            all: Map::new(alloc),
        }
    }

    /// A text.
    pub(crate) fn text(&mut self, key: &str, text: &str) -> Result<(), AllocError> {
        let value = Value::try_from_str(self.alloc, text)?;
        put(&mut self.all, self.alloc, key, value)
    }

    /// The name of the input, if it is given.
    pub(crate) fn named(&mut self, file: Option<&str>) -> Result<(), AllocError> {
        match file {
            Some(file) => self.text("file", file),
            None => Ok(()),
        }
    }

    /// A number.
    pub(crate) fn number(&mut self, key: &str, number: u32) -> Result<(), AllocError> {
        put(&mut self.all, self.alloc, key, Value::from(number))
    }

    /// The number that a word is.
    pub(crate) fn count(&mut self, key: &str, word: &str) -> Result<(), AllocError> {
        put(&mut self.all, self.alloc, key, counted(word))
    }

    /// What a word is by its key: a number where the key ends with `#`, hexadecimal digits where it
    /// ends with `.`, nothing where it is `-`, and else a text. No digits are written as a dash.
    pub(crate) fn word(&mut self, key: &str, word: &str) -> Result<(), AllocError> {
        if key == "-" {
            return Ok(());
        }
        if let Some(key) = key.strip_suffix('#') {
            return self.count(key, word);
        }
        match key.strip_suffix('.') {
            Some(key) => self.text(key, if word == "-" { "" } else { word }),
            None => self.text(key, word),
        }
    }

    /// The text of the object, with a line feed.
    pub(crate) fn into_line(self) -> Result<String, AllocError> {
        let Members { alloc, all } = self;
        let mut line = Value::Object(all).to_string(alloc)?;
        line.push('\n')?;
        Ok(line)
    }
}
