//! The faults of a file.

ghost use Rattle.std.specs.Prelude.{◌≡◌, None, false, is_some, option_map};
ghost use Rattle.std.specs.Result.{result_ok};
ghost use Rattle.file_entries.specs.Faults.{noted, spot};

use crate::place::Place;
use crate::why::Why;
use at_base::Error;
use std::alloc::Global;
use std::marker::Model;

/// The greatest number of faults that are kept.
pub const MAX_FAULTS: usize = 100;

/// A value that is wrong.
#[derive(Clone, Copy, Debug, PartialEq, Eq)]
pub struct Fault {
    /// Where it is.
    pub place: Place,
    /// Why it is wrong.
    pub why: Why,
}

/// The faults of a file, in the order in which they were found. Contracts see the entry of the
/// first one.
#[derive(Debug, Drop)]
pub struct Faults {
    first: Option<Fault>,
    others: Vec<Fault>,
    untold: usize,
}

impl Model for Faults {
    ghost use Rattle.std.specs.Prelude.{ℕ, Option, option_map};
    ghost use Rattle.at_base.specs.declared.error.Part.{Part};
    ghost use Rattle.file_entries.specs.Faults.{spot};

    ghost Value = { Option (Part × ℕ) };

    ghost view = { λ f. option_map (λ x. spot x.place) f.first };
}

impl Faults {
    /// No faults. Allocates nothing.
    pub fn new(alloc: Global) -> Faults
        ensures { result ≡ None }
    {
        Faults {
            first: None,
            others: Vec::new(alloc),
            untold: 0,
        }
    }

    /// The first fault.
    pub fn first(&self) -> Option<Fault>
        ensures { option_map (λ x. spot x.place) result ≡ self.now }
    {
        self.first
    }

    /// The faults after the first, at most 99 of them.
    pub fn others(&self) -> &[Fault] {
        self.others.as_slice()
    }

    /// The number of further faults, which weren't kept.
    pub fn untold(&self) -> usize {
        self.untold
    }

    /// Keeps a fault that isn't the first, if there is room, and else counts it.
    fn put(&mut self, fault: &Fault)
        ensures { self.new ≡ self.old }
    {
        let is_full = self.others.len() >= MAX_FAULTS - 1;
        if is_full || self.others.push(*fault).is_err() {
            self.untold = self.untold.saturating_add(1);
        }
    }

    /// Notes a fault.
    pub fn note(&mut self, place: &Place, why: Why)
        ensures { self.new ≡ noted (spot place.now) false self.old }
    {
        let fault = Fault { place: *place, why };
        if self.first.is_some() {
            self.put(&fault);
        } else {
            self.first = Some(fault);
        }
    }

    /// Notes a fault where there is none yet.
    pub fn note_first(&mut self, place: &Place, why: Why)
        ensures { self.new ≡ noted (spot place.now) false self.old }
    {
        if self.first.is_none() {
            self.note(place, why);
        }
    }

    /// The value that was found here. Notes a fault if there is none.
    pub fn take_here<T>(&mut self, place: &Place, found: Result<T, Why>) -> Option<T>
        ensures value { result ≡ result_ok found }
        ensures told { self.new ≡ noted (spot place.now) (is_some result) self.old }
    {
        match found {
            Ok(value) => Some(value),
            Err(why) => {
                self.note(place, why);
                None
            }
        }
    }

    /// The value that was found at the key. Notes a fault if there is none.
    pub fn take<T>(&mut self, place: &Place, key: &str, found: Result<T, Why>) -> Option<T>
        ensures value { result ≡ result_ok found }
        ensures told { self.new ≡ noted (spot place.now) (is_some result) self.old }
    {
        self.take_here(&place.at(key), found)
    }
}

/// Why a text isn't a file.
#[derive(Debug, Drop)]
pub struct Refused {
    /// The error of the first fault.
    pub error: Error,
    /// The faults that were found.
    pub faults: Faults,
}
