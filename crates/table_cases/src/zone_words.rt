//! Zone names and ranges as text.

use at_base::{Name, Range};
use case_words::{Stop, Words, put_text};
use std::alloc::{AllocError, Global};

/// The number of repetitions of an item: 1, or as `times 65` before the item says.
pub(crate) fn times(words: &mut Words<'_>) -> Result<u32, Stop> {
    if words.passes("times") {
        return words.number();
    }
    Ok(1)
}

/// Names separated by semicolons, as `Red ; times 16 "Light Blue"`.
pub(crate) fn names(alloc: Global, words: &mut Words<'_>) -> Result<Vec<Name>, Stop> {
    let mut names = Vec::new(alloc);
    for _ in 0..u64::MAX {
        if words.is_empty() {
            break;
        }
        let count = times(words)?;
        let name = words.name(alloc)?;
        for _ in 0..count {
            names.push(name)?;
        }
        let _ = words.passes(";");
    }
    Ok(names)
}

/// Ranges separated by semicolons, as `10-19 ; 20-29`.
pub(crate) fn ranges(alloc: Global, mut words: Words<'_>) -> Result<Vec<Range>, Stop> {
    words.list(alloc, Words::range)
}

/// Appends a space and each of the names in quotation marks.
pub(crate) fn put_names(text: &mut String, names: &[Name]) -> Result<(), AllocError> {
    for name in names {
        text.push(' ')?;
        put_text(text, name.as_slice())?;
    }
    Ok(())
}

/// Appends a line for each of the names.
pub(crate) fn put_each(text: &mut String, names: &[Name]) -> Result<(), AllocError> {
    if names.is_empty() {
        return writeln!(text, "none");
    }
    for name in names {
        put_text(text, name.as_slice())?;
        writeln!(text)?;
    }
    Ok(())
}

/// Appends the ranges on one line.
pub(crate) fn put_ranges(text: &mut String, ranges: &[Range]) -> Result<(), AllocError> {
    if ranges.is_empty() {
        write!(text, "none")?;
    }
    for (index, range) in ranges.iter().enumerate() {
        let range = *range;
        if index > 0 {
            text.push(' ')?;
        }
        write!(text, "{range}")?;
    }
    writeln!(text)
}
