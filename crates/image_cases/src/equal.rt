//! The equal parts of an image.

use crate::making::all;
use case_words::{Answer, Stop, Words};
use std::alloc::{AllocError, Global};

/// Appends the pairs of different positions whose values are equal, and the positions whose value
/// doesn't equal itself. Positions count from 1.
pub(crate) fn put_equal<T: PartialEq>(text: &mut String, values: &[T]) -> Result<(), AllocError> {
    for (index, value) in values.iter().enumerate() {
        for (other_index, other) in values.iter().enumerate() {
            if (value == other) != (index == other_index) {
                let (one, two) = (index.saturating_add(1), other_index.saturating_add(1));
                writeln!(text, "{one} and {two}")?;
            }
        }
    }
    Ok(())
}

/// Compares the cables, routers or nodes of the case with each other.
pub(crate) fn answer(
    alloc: Global,
    parts: &str,
    mut words: Words<'_>,
    text: &mut String,
) -> Answer {
    let (_, cables, routers, nodes) = all(alloc, parts)?;
    match words.word() {
        "cables" => put_equal(text, cables.as_slice())?,
        "routers" => put_equal(text, routers.as_slice())?,
        "nodes" => put_equal(text, nodes.as_slice())?,
        _ => return Err(Stop::Unclear),
    }
    Ok(())
}
