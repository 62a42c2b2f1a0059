//! Every image that differs from one in a byte.

use at_base::{Cause, Error};
use audit::Verdict;
use case_words::{Answer, Stop};
use image_verdict::audit_bytes;
use std::alloc::Global;

const CAUSES: [Cause; 9] = [
    Cause::Cut,
    Cause::Magic,
    Cause::Version,
    Cause::Count,
    Cause::Index,
    Cause::Value,
    Cause::Name,
    Cause::Order,
    Cause::Trailing,
];

/// How many bytes had which answer.
#[derive(Drop)]
struct Outcomes {
    yes: u32,
    /// By the number of the rule.
    no: [u32; 10],
    /// In the order of `CAUSES`.
    refused: [u32; 9],
}

/// Adds 1 to the counter with this index.
fn add_one(counters: &mut [u32], index: usize) -> Answer {
    match counters.get_mut(index) {
        Some(counter) => {
            *counter = counter.saturating_add(1);
            Ok(())
        }
        None => Err(Stop::Unclear),
    }
}

/// The index of a cause in `CAUSES`, or their number.
fn index_of(cause: Cause) -> usize {
    let mut index = 0usize;
    for known in &CAUSES {
        if *known == cause {
            break;
        }
        index = index.saturating_add(1);
    }
    index
}

impl Outcomes {
    fn count(&mut self, answer: Result<Verdict, Error>) -> Answer {
        match answer {
            Ok(Verdict::Yes(_)) => {
                self.yes = self.yes.saturating_add(1);
                Ok(())
            }
            Ok(Verdict::No(fault)) => add_one(&mut self.no, fault.rule as usize),
            Err(Error::BadImage(_, cause)) => add_one(&mut self.refused, index_of(cause)),
            Err(error) => Err(Stop::Refused(error)),
        }
    }

    fn put(&self, text: &mut String) -> Answer {
        let yes = self.yes;
        writeln!(text, "yes {yes}")?;
        for (rule, count) in self.no.iter().enumerate() {
            if *count > 0 {
                writeln!(text, "no C{rule} {count}")?;
            }
        }
        for (cause, count) in CAUSES.iter().zip(&self.refused) {
            if *count > 0 {
                writeln!(text, "bad image {cause:?} {count}")?;
            }
        }
        Ok(())
    }
}

/// Counts the answers to the bytes with the one at a place changed to each other value.
fn change_each(alloc: Global, bytes: &mut Vec<u8>, place: usize, all: &mut Outcomes) -> Answer {
    let Some(old) = bytes.get(place).copied() else {
        return Err(Stop::Unclear);
    };
    for new in 0..=255 {
        if new != old {
            bytes[place] = new;
            all.count(audit_bytes(alloc, bytes.as_slice()))?;
        }
    }
    bytes[place] = old;
    Ok(())
}

/// Appends how many of the bytes with one of them changed have a yes, a no by each rule, or a fault
/// of each cause: every byte is changed to every other value.
pub(crate) fn changed(alloc: Global, bytes: &Vec<u8>, text: &mut String) -> Answer {
    let mut copy = bytes.clone()?;
    let mut all = Outcomes {
        yes: 0,
        no: [0; 10],
        refused: [0; 9],
    };
    for place in 0..bytes.len() {
        change_each(alloc, &mut copy, place, &mut all)?;
    }
    all.put(text)
}
