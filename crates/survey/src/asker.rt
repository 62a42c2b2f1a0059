//! Stations that ask.

ghost use Rattle.std.specs.Prelude.{◌≡◌, IfOk, IsOkUnless};
ghost use Rattle.survey.specs.Asking as spec;

use crate::agenda::{Agenda, Aim};
use crate::seat::Seat;
use crate::slots::Told;
use at_base::{Addr, Error, Hw};
use port::Port;
use std::alloc::Global;
use std::marker::Model;

/// For how many ticks a station listens for a range at most.
const MOST_LISTENED: u16 = 60;

/// In how many ticks it chooses an address at most.
const MOST_CHOOSING: u16 = 600;

/// For how many ticks a survey hears what routers broadcast at least.
const LEAST_HEARD: u16 = 100;

/// A station that takes an address and asks questions, on a cable that it doesn't own.
///
/// Inside AppleTalk, the chapters on AARP, DDP and RTMP; when it asks is this project's own.
#[derive(Drop)]
pub struct Asker {
    pub(crate) port: Port,
    pub(crate) hw: Hw,
    pub(crate) seat: Option<Seat>,
    pub(crate) passed: u16,
    pub(crate) agenda: Agenda,
}

impl Model for Asker {
    ghost use Rattle.survey.specs.Asking.{Asking};

    ghost Value = { Asking };

    ghost view = { λ a. record {
      port = a.port;
      hw = a.hw;
      seat = a.seat;
      passed = a.passed;
      agenda = a.agenda;
    } };
}

/// How far a station that asks has come.
///
/// This project's own.
#[derive(Clone, Copy, Debug, PartialEq, Eq)]
pub enum Stage {
    /// It listens for the range of its cable.
    Listens,
    /// It chooses an address.
    Chooses,
    /// It has this address.
    Settled(Addr),
}

impl Asker {
    /// A station with this hardware address that has heard nothing yet, and what it is to ask. Error:
    /// `Memory`.
    pub fn new(alloc: Global, hw: Hw, aim: &Aim) -> Result<Asker, Error>
        ensures ok { IfOk result (λ a. a ≡ spec.asking_begun hw aim.now) }
        ensures refused { IsOkUnless result Error.Memory }
    {
        Ok(Asker {
            port: Port::new(alloc, hw)?,
            hw,
            seat: None,
            passed: 0,
            agenda: Agenda::new(alloc, aim)?,
        })
    }

    /// How far it has come. Allocates nothing.
    pub fn stage(&self) -> Stage
        ensures { result ≡ spec.stage_of self.now.seat }
    {
        match &self.seat {
            Some(seat) => match seat.choice.settled() {
                Some(own) => Stage::Settled(own),
                None => Stage::Chooses,
            },
            None => Stage::Listens,
        }
    }

    /// What happened to its questions in the last step. Allocates nothing.
    pub fn told(&self) -> &[Told]
        ensures { result.now ≡ self.now.agenda.told }
    {
        self.agenda.told.as_slice()
    }

    /// Whether a survey heard what routers broadcast for long enough; other questions needn't.
    fn has_heard(&self) -> bool
        ensures { result ≡ spec.has_heard self.now }
    {
        !self.agenda.aim.spreads || self.passed >= LEAST_HEARD
    }

    /// Whether all is asked that it is to ask, or it gave up. Allocates nothing.
    pub fn is_through(&self) -> bool
        ensures { result ≡ spec.is_done self.now }
    {
        match &self.seat {
            Some(seat) => match seat.choice.settled() {
                Some(_) => self.agenda.is_quiet(seat.router) && self.has_heard(),
                None => self.passed >= MOST_CHOOSING,
            },
            None => self.passed >= MOST_LISTENED,
        }
    }

    /// Counts a tick.
    pub(crate) fn count(&mut self)
        ensures { self.new ≡ record self.old { passed = spec.one_more self.old.passed } }
    {
        self.passed = self.passed.saturating_add(1);
    }

    /// Forgets what happened to its questions.
    pub(crate) fn forget(&mut self)
        ensures { self.new ≡ spec.untold self.old }
    {
        self.agenda.told.clear();
    }
}
