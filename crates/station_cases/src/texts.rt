//! Rows and names as text.

use at_base::{Addr, Text32};
use case_words::{Stop, Words, put_text};
use rtmp::{Row, State};
use std::alloc::{AllocError, Global};

fn state(words: &mut Words<'_>) -> Result<State, Stop> {
    Ok(match words.word() {
        "good" => State::Good,
        "suspect" => State::Suspect,
        "bad" => State::Bad,
        "last" => State::Last,
        _ => return Err(Stop::Unclear),
    })
}

fn state_word(state: State) -> &'static str {
    match state {
        State::Good => "good",
        State::Suspect => "suspect",
        State::Bad => "bad",
        State::Last => "last",
    }
}

/// A row, as `10-19 distance 0 port 0 next 0.0 good`.
pub(crate) fn row(words: &mut Words<'_>) -> Result<Row, Stop> {
    Ok(Row {
        range: words.range()?,
        distance: words.named("distance")?,
        port: words.named("port")?,
        next: next(words)?,
        state: state(words)?,
    })
}

fn next(words: &mut Words<'_>) -> Result<Addr, Stop> {
    words.expect("next")?;
    words.addr()
}

/// Appends the line of a row.
pub(crate) fn put_row(text: &mut String, row: &Row) -> Result<(), AllocError> {
    let (range, distance, port, next) = (row.range, row.distance, row.port, row.next);
    let state = state_word(row.state);
    writeln!(
        text,
        "{range} distance {distance} port {port} next {next} {state}"
    )
}

/// The object and the type of a name.
#[derive(Clone, Copy)]
pub(crate) struct Entity {
    pub(crate) object: Text32,
    pub(crate) kind: Text32,
}

/// Skips a character between two texts.
fn pass_over<'a>(words: &mut Words<'a>, mark: char) -> Result<(), Stop> {
    match words.rest().strip_prefix(mark) {
        Some(rest) => {
            *words = Words::new(rest);
            Ok(())
        }
        None => Err(Stop::Unclear),
    }
}

/// An object and a type, as `"lab":"LaserWriter"`.
pub(crate) fn entity_of(alloc: Global, words: &mut Words<'_>) -> Result<Entity, Stop> {
    let object = words.text32(alloc)?;
    pass_over(words, ':')?;
    let kind = words.text32(alloc)?;
    Ok(Entity { object, kind })
}

/// The zone of a lookup, as `@"Blue"`.
pub(crate) fn zone(alloc: Global, words: &mut Words<'_>) -> Result<Text32, Stop> {
    pass_over(words, '@')?;
    words.text32(alloc)
}

/// Appends an object and a type.
pub(crate) fn put_entity(
    text: &mut String,
    object: &Text32,
    kind: &Text32,
) -> Result<(), AllocError> {
    put_text(text, object.as_slice())?;
    write!(text, ":")?;
    put_text(text, kind.as_slice())
}
