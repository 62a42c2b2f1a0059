//! The steps of a script that were refused.

use at_base::Error;
use std::alloc::Global;

/// The greatest number of refused steps that are kept.
const MAX_REFUSALS: usize = 100;

/// The steps of a script that were refused, in their order: each with its number, from 1, and its
/// error. They are for explanations, and no contract speaks of them.
#[derive(Debug, Drop)]
pub struct Refusals {
    first: Vec<(u32, Error)>,
    untold: u32,
    step: u32,
}

impl Refusals {
    /// No refused steps. Allocates nothing.
    pub fn new(alloc: Global) -> Refusals {
        Refusals {
            first: Vec::new(alloc),
            untold: 0,
            step: 0,
        }
    }

    /// The first ones, at most 100.
    pub fn first(&self) -> &[(u32, Error)] {
        self.first.as_slice()
    }

    /// The number of the others, at most `u32::MAX`. A step for which there was no memory is one of
    /// them.
    pub fn untold(&self) -> u32 {
        self.untold
    }

    /// The next step begins.
    pub(crate) fn begin(&mut self) {
        self.step = self.step.saturating_add(1);
    }

    /// Notes that the step is refused.
    pub(crate) fn note(&mut self, error: Error) {
        if self.first.len() >= MAX_REFUSALS || self.first.push((self.step, error)).is_err() {
            self.untold = self.untold.saturating_add(1);
        }
    }
}
