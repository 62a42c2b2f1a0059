//! The objects of a refusal and of a note.

use crate::members::Members;
use at_base::Error;
use std::alloc::{AllocError, Global};

/// The line of the object of a refusal: the number of its error, and the part, the entry, the line
/// or the byte of the input that is at fault, and the name of the input, if it is given. Error:
/// `AllocError`.
pub fn refusal(alloc: Global, error: &Error, file: Option<&str>) -> Result<String, AllocError> {
    let mut members = Members::new(alloc);
    members.text("kind", "refusal")?;
    members.number("error", u32::from(error.number()))?;
    match error {
        Error::BadImage(byte, cause) => {
            members.number("byte", *byte)?;
            members.text("cause", format!(in alloc; "{cause:?}")?.as_str())?;
        }
        Error::BadFile(part, entry) => {
            members.text("part", format!(in alloc; "{part:?}")?.as_str())?;
            members.number("entry", *entry)?;
        }
        Error::BadScript(line) => members.number("line", *line)?,
        Error::BadCapture(block) => members.number("block", *block)?,
        _ => {}
    }
    members.named(file)?;
    members.into_line()
}

/// The line of the object of a note, which is a sentence, with the name of the input, if it is given.
/// Error: `AllocError`.
pub fn note(alloc: Global, text: &str, file: Option<&str>) -> Result<String, AllocError> {
    let mut members = Members::new(alloc);
    members.text("kind", "note")?;
    members.text("text", text)?;
    members.named(file)?;
    members.into_line()
}
