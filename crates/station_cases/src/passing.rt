//! The calls of any station: frames and ticks.

use crate::frames::Frame;
use crate::outputs::put_outputs;
use at_base::Error;
use case_words::{Answer, Stop};
use station::{Outputs, Station};
use std::alloc::Global;

/// Lets a station receive a frame, and appends its outputs.
pub(crate) fn hear<S: Station>(
    alloc: Global,
    station: &mut S,
    frame: &Frame,
    text: &mut String,
) -> Answer {
    let heard = frame.heard();
    if heard.port >= station.ports() {
        return Err(Stop::Unclear);
    }
    let mut outputs = Outputs::new(alloc)?;
    station.receive(&heard, &mut outputs)?;
    put_outputs(text, None, &outputs)?;
    Ok(())
}

/// Advances a station by a tick, with another attempt if an allocation failed.
fn tick<S: Station>(station: &mut S, outputs: &mut Outputs) -> Result<(), Error> {
    match station.tick(outputs) {
        Err(Error::Memory) => station.tick(outputs),
        answer => answer,
    }
}

/// Advances a station by a tick, and appends its outputs. Returns their number.
pub(crate) fn let_pass<S: Station>(
    alloc: Global,
    station: &mut S,
    number: Option<u32>,
    text: &mut String,
) -> Result<usize, Stop> {
    let mut outputs = Outputs::new(alloc)?;
    tick(station, &mut outputs)?;
    put_outputs(text, number, &outputs)?;
    Ok(outputs.len())
}
