//! The log of a survey.

use crate::heard::datagram_in;
use crate::line::put_silence;
use crate::words::put_wanted;
use at_base::{Addr, Error};
use std::alloc::AllocError;
use survey::{Stage, Told, Wanted};
use text::put_address;

/// The log of a survey: how far the station had come.
#[derive(Drop)]
pub struct Log {
    /// Whether lines are wanted.
    wanted: bool,
    stage: Stage,
}

/// Appends that an address answered.
fn put_answer(lines: &mut Vec<u8>, from: Addr, wanted: &Wanted) -> Result<(), AllocError> {
    put_address(lines, from)?;
    lines.extend_from_slice(b" answered: ")?;
    put_wanted(lines, wanted)?;
    lines.extend_from_slice(b"\n")
}

/// Appends how far the station has come.
fn put_stage(lines: &mut Vec<u8>, stage: Stage) -> Result<(), AllocError> {
    match stage {
        Stage::Listens => Ok(()),
        Stage::Chooses => lines.extend_from_slice(b"a router was heard: choosing an address\n"),
        Stage::Settled(own) => {
            lines.extend_from_slice(b"this station is ")?;
            put_address(lines, own)?;
            lines.extend_from_slice(b"\n")
        }
    }
}

impl Log {
    /// A log of a station that listens, in which lines are wanted or not. Allocates nothing.
    pub fn new(wanted: bool) -> Log {
        Log {
            wanted,
            stage: Stage::Listens,
        }
    }

    /// Appends how far the station has come, if that is new.
    fn move_on(&mut self, stage: Stage, lines: &mut Vec<u8>) -> Result<(), Error> {
        if self.wanted && stage != self.stage {
            put_stage(lines, stage)?;
            self.stage = stage;
        }
        Ok(())
    }

    /// Appends how far the station has come after a tick, if that is new, and a line for each question
    /// that no answer came to. Error: `Memory`.
    pub fn tick(&mut self, stage: Stage, told: &[Told], lines: &mut Vec<u8>) -> Result<(), Error> {
        self.move_on(stage, lines)?;
        for it in told {
            match it {
                Told::Silent(item) if self.wanted => put_silence(lines, &item.question)?,
                Told::Silent(_) | Told::Asked(_) | Told::Answered(_) => {}
            }
        }
        Ok(())
    }

    /// Appends a line for each question that a frame answers. Error: `Memory`.
    pub fn hear(&self, told: &[Told], bytes: &[u8], lines: &mut Vec<u8>) -> Result<(), Error> {
        if !self.wanted || told.is_empty() {
            return Ok(());
        }
        let Some(view) = datagram_in(bytes) else {
            return Ok(());
        };
        for it in told {
            match it {
                Told::Answered(item) => put_answer(lines, view.source(), &item.question.wanted)?,
                Told::Asked(_) | Told::Silent(_) => {}
            }
        }
        Ok(())
    }
}
