//! How many calls there were, and how many differed.

use crate::call::Answer;
use at_base::Error;
use rtmp::Change;
use std::io;

/// The numbers of calls by their answers, and of calls after which the tables differed.
#[derive(Clone, Copy, Debug)]
pub(crate) struct Tally {
    done: u64,
    ignored: u64,
    changed: u64,
    added: u64,
    found: u64,
    not_found: u64,
    refused: u64,
    differ: u64,
}

fn count(number: &mut u64) {
    *number = number.saturating_add(1);
}

impl Tally {
    pub(crate) fn new() -> Tally {
        Tally {
            done: 0,
            ignored: 0,
            changed: 0,
            added: 0,
            found: 0,
            not_found: 0,
            refused: 0,
            differ: 0,
        }
    }

    /// Counts a call by its answer, and whether the tables differed then.
    pub(crate) fn add(&mut self, answer: &Result<Answer, Error>, alike: bool) {
        match answer {
            Ok(Answer::Done) => count(&mut self.done),
            Ok(Answer::Changed(Change::Ignored)) => count(&mut self.ignored),
            Ok(Answer::Changed(Change::Changed)) => count(&mut self.changed),
            Ok(Answer::Changed(Change::Added)) => count(&mut self.added),
            Ok(Answer::Found(Some(_))) => count(&mut self.found),
            Ok(Answer::Found(None)) => count(&mut self.not_found),
            Err(_) => count(&mut self.refused),
        }
        if !alike {
            count(&mut self.differ);
        }
    }

    /// Prints the numbers; `whole` is whether all lists were carried out.
    pub(crate) fn print<R: Print>(&self, rt: &R, lists: u64, whole: bool) -> Result<(), io::Error> {
        let end = if whole {
            ""
        } else {
            ", then memory was refused"
        };
        println!(rt; "{lists} lists{end}")?;
        let (ignored, changed, added) = (self.ignored, self.changed, self.added);
        println!(rt; "heard: {ignored} ignored, {changed} changed, {added} added")?;
        let (found, not_found, done) = (self.found, self.not_found, self.done);
        println!(rt; "rows: {found} found, {not_found} not found; other calls: {done}")?;
        let (refused, differ) = (self.refused, self.differ);
        println!(rt; "{refused} refused, {differ} differ")
    }
}
