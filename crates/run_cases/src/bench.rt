//! The bench of a case, with which its commands are carried out.

use crate::{cables, entries, runs, scripts, seats, taking};
use cable_model::Cables;
use case_words::{Answer, Bench, Stop, Words};
use frozen::Frozen;
use rtmp::RouteTable;
use std::alloc::Global;

/// The bytes of an image, entries to print, and cables and a run after a command that begins them.
#[derive(Drop)]
pub(crate) struct Runs<T: RouteTable> {
    alloc: Global,
    bytes: Vec<u8>,
    entries: String,
    cables: Option<Cables>,
    run: Option<Frozen<T>>,
}

impl<T: RouteTable> Runs<T> {
    /// Appends bytes of the image.
    fn add_bytes(&mut self, mut words: Words<'_>) -> Answer {
        let more = words.bytes(self.alloc)?;
        self.bytes.extend_from_slice(more.as_slice())?;
        Ok(())
    }

    /// Replaces bytes.
    fn replace(&mut self, mut words: Words<'_>) -> Answer {
        let place: usize = words.number()?;
        let new = words.bytes(self.alloc)?;
        for (index, byte) in new.iter().enumerate() {
            match self.bytes.get_mut(place.saturating_add(index)) {
                Some(old) => *old = *byte,
                None => return Err(Stop::Unclear),
            }
        }
        Ok(())
    }

    /// Appends the line of an entry, the whole line or, if an allocation fails, nothing.
    fn add_entry(&mut self, mut line: Words<'_>) -> Answer {
        let line = line.rest();
        self.entries.reserve(line.len().saturating_add(1))?;
        self.entries.push_str(line)?;
        self.entries.push('\n')?;
        Ok(())
    }

    /// Begins cables, or carries out a command with them.
    fn on_cables(&mut self, mut words: Words<'_>, text: &mut String) -> Answer {
        if words.passes("begin") {
            self.cables = Some(cables::begun(self.alloc, words)?);
            return Ok(());
        }
        match &mut self.cables {
            Some(cables) => cables::act(self.alloc, cables, words, text),
            None => Err(Stop::Unclear),
        }
    }

    /// Carries out a command with the run.
    fn on_run(&mut self, words: Words<'_>, text: &mut String) -> Answer {
        match &mut self.run {
            Some(run) => runs::act(self.alloc, run, words, text),
            None => Err(Stop::Unclear),
        }
    }

    fn start(&mut self, words: Words<'_>) -> Answer {
        self.run = Some(runs::started(self.alloc, self.bytes.as_slice(), words)?);
        Ok(())
    }
}

impl<T: RouteTable> Bench for Runs<T> {
    fn new(alloc: Global) -> Runs<T> {
        Runs {
            alloc,
            bytes: Vec::new(alloc),
            entries: String::new(alloc),
            cables: None,
            run: None,
        }
    }

    fn act(&mut self, words: Words<'_>, text: &mut String) -> Answer {
        let mut rest = words;
        match rest.word() {
            "bytes" => self.add_bytes(rest),
            "with" => self.replace(rest),
            "entry" => self.add_entry(rest),
            "printed" => entries::print(
                self.alloc,
                self.bytes.as_slice(),
                self.entries.as_str(),
                text,
            ),
            "decimal" => entries::decimal(self.alloc, rest, text),
            "seats" => seats::answer(self.alloc, rest, text),
            "sends" => cables::answer(self.alloc, rest, text),
            "takes" => taking::answer(self.alloc, rest, text),
            "takes-both" => taking::answer_both(self.alloc, rest, text),
            "takes-lost" => taking::answer_lost(self.alloc, rest, text),
            "cables" => self.on_cables(rest, text),
            "script" => scripts::answer(self.alloc, rest, text),
            "start" => self.start(rest),
            _ => self.on_run(words, text),
        }
    }
}
