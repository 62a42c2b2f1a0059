//! The equal values of a list.

use crate::rows::state;
use case_words::{Answer, Stop, Words};
use rtmp::{Change, Row, Tuple};
use std::alloc::{AllocError, Global};

fn change(words: &mut Words<'_>) -> Result<Change, Stop> {
    Ok(match words.word() {
        "ignored" => Change::Ignored,
        "changed" => Change::Changed,
        "added" => Change::Added,
        _ => return Err(Stop::Unclear),
    })
}

fn tuple(words: &mut Words<'_>) -> Result<Tuple, Stop> {
    Ok(Tuple {
        range: words.range()?,
        distance: words.named("distance")?,
    })
}

/// Appends each index, with the indexes of the equal values.
fn put_equal<T: PartialEq>(text: &mut String, values: &[T]) -> Result<(), AllocError> {
    for (index, value) in values.iter().enumerate() {
        write!(text, "{index}:")?;
        for (other_index, other) in values.iter().enumerate() {
            if value == other {
                write!(text, " {other_index}")?;
            }
        }
        writeln!(text)?;
    }
    Ok(())
}

/// Appends which values are equal, by their indexes: of these rows, or of a list of tuples, states
/// or changes.
pub(crate) fn compare(
    alloc: Global,
    rows: &[Row],
    mut words: Words<'_>,
    text: &mut String,
) -> Answer {
    match words.word() {
        "rows" => put_equal(text, rows)?,
        "tuples" => put_equal(text, words.list(alloc, tuple)?.as_slice())?,
        "states" => put_equal(text, words.list(alloc, state)?.as_slice())?,
        "changes" => put_equal(text, words.list(alloc, change)?.as_slice())?,
        _ => return Err(Stop::Unclear),
    }
    Ok(())
}
