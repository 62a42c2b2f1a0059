//! Fields at the front of packets.

use crate::errors::field;
use crate::hex_lines::put_bytes;
use at_base::Field;
use at_base::packet::{
    address_at, byte_at, byte_only, byte_within, hardware_at, run_at, text_at, u16_at, u16_only,
    u16_within,
};
use case_words::{Answer, Stop, Words, put_hex, put_hw};
use std::alloc::{AllocError, Global};
use std::str::FromStr;

/// The values that a number may have.
#[derive(Clone, Copy)]
enum Bounds<T> {
    Any,
    Only(T, Field),
    Within(T, T, Field),
}

/// The bounds of a number, as `only 6 Count of`, `5 to 7 Count of`, or only `of`.
fn bounds_of<T: FromStr + Drop>(words: &mut Words<'_>) -> Result<Bounds<T>, Stop>
where
    T::Err: Drop,
{
    if words.passes("of") {
        return Ok(Bounds::Any);
    }
    if words.passes("only") {
        let value = words.number()?;
        let what = field(words)?;
        words.expect("of")?;
        return Ok(Bounds::Only(value, what));
    }
    let least = words.number()?;
    let most = words.named("to")?;
    let what = field(words)?;
    words.expect("of")?;
    Ok(Bounds::Within(least, most, what))
}

/// Appends the bytes after a field.
fn put_rest(text: &mut String, rest: &[u8]) -> Result<(), AllocError> {
    write!(text, " then ")?;
    put_bytes(text, rest)
}

fn byte(alloc: Global, mut words: Words<'_>, text: &mut String) -> Answer {
    let bounds = bounds_of(&mut words)?;
    let bytes = words.bytes(alloc)?;
    let (value, rest) = match bounds {
        Bounds::Any => byte_at(bytes.as_slice())?,
        Bounds::Only(value, what) => byte_only(bytes.as_slice(), value, what)?,
        Bounds::Within(least, most, what) => byte_within(bytes.as_slice(), least, most, what)?,
    };
    write!(text, "{value}")?;
    put_rest(text, rest)?;
    Ok(())
}

fn number(alloc: Global, mut words: Words<'_>, text: &mut String) -> Answer {
    let bounds = bounds_of(&mut words)?;
    let bytes = words.bytes(alloc)?;
    let (value, rest) = match bounds {
        Bounds::Any => u16_at(bytes.as_slice())?,
        Bounds::Only(value, what) => u16_only(bytes.as_slice(), value, what)?,
        Bounds::Within(least, most, what) => u16_within(bytes.as_slice(), least, most, what)?,
    };
    write!(text, "{value}")?;
    put_rest(text, rest)?;
    Ok(())
}

fn address(bytes: &[u8], text: &mut String) -> Answer {
    let (addr, rest) = address_at(bytes)?;
    write!(text, "{addr}")?;
    put_rest(text, rest)?;
    Ok(())
}

fn hardware(bytes: &[u8], text: &mut String) -> Answer {
    let (hw, rest) = hardware_at(bytes)?;
    put_hw(text, hw)?;
    put_rest(text, rest)?;
    Ok(())
}

/// A number of bytes; or a length-prefixed text, whose length is at least that number.
fn run(alloc: Global, counted: bool, mut words: Words<'_>, text: &mut String) -> Answer {
    let len: u8 = words.number()?;
    words.expect("of")?;
    let bytes = words.bytes(alloc)?;
    let (run, rest) = if counted {
        text_at(bytes.as_slice(), len)?
    } else {
        run_at(bytes.as_slice(), usize::from(len))?
    };
    put_hex(text, run)?;
    put_rest(text, rest)?;
    Ok(())
}

/// Appends a field and the bytes after it.
pub(crate) fn act(alloc: Global, mut words: Words<'_>, text: &mut String) -> Answer {
    match words.word() {
        "byte" => byte(alloc, words, text),
        "number" => number(alloc, words, text),
        "run" => run(alloc, false, words, text),
        "text" => run(alloc, true, words, text),
        "address" => {
            words.expect("of")?;
            address(words.bytes(alloc)?.as_slice(), text)
        }
        "hardware" => {
            words.expect("of")?;
            hardware(words.bytes(alloc)?.as_slice(), text)
        }
        _ => Err(Stop::Unclear),
    }
}
