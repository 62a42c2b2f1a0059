//! What the arguments ask for.

use crate::cuts::Cuts;
use std::rt::Env;
use std::{env, io};

/// What standard input is.
#[derive(Clone, Copy)]
pub(crate) enum Input {
    /// A capture, which is fed in such pieces.
    Capture(Cuts),
    /// Captures as lines of hexadecimal digits.
    Lines,
}

/// What the arguments ask for.
pub(crate) fn asked_input<R: Env + AllocGlobal>(rt: &R) -> Result<Input, io::Error> {
    let mut piece = None;
    let mut chance = None;
    for (place, argument) in env::args(rt)?.enumerate() {
        let word = argument.as_str();
        let number = word.parse::<u32>().ok();
        match place {
            1 if word == "hex" => return Ok(Input::Lines),
            1 => piece = Some(number.unwrap_or(1)),
            2 => chance = number,
            _ => {}
        }
    }
    Ok(Input::Capture(Cuts::new(piece, chance)))
}
