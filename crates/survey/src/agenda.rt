//! What a station has to ask, and what came of it.

ghost use Rattle.std.specs.Prelude.{◌≡◌, ◌∷◌, [], IfOk, IsOkUnless, None, Some, slice_set};
ghost use Rattle.std.specs.Option.{unwrap_or};
ghost use Rattle.survey.specs.Agendas as spec;

use crate::few::Few;
use crate::known::{
    Ranged, Routered, Zoned, beyond, range_next, router_next, wanted_of, zone_next,
};
use crate::question::{Question, Sought, Wanted};
use crate::slots::{
    Open, SLOTS, Told, all_free, asked, due, first_open, free, pass_all, tell_all_silent,
};
use at_base::{Addr, Error, Text32};
use rtmp::Horizon;
use std::alloc::Global;
use std::marker::Model;

/// A question to a station, or, where no address is given, to the router from which routing data came
/// last.
#[derive(Clone, Copy, Debug, PartialEq, Eq)]
pub struct First {
    pub to: Option<Addr>,
    pub wanted: Wanted,
    /// How often it is asked anew.
    pub times: u16,
}

/// For which names of services zones are searched.
#[derive(Clone, Copy, Debug, PartialEq, Eq)]
pub struct Pattern {
    pub object: Text32,
    pub kind: Text32,
}

/// What a station is to ask.
///
/// This project's own.
#[derive(Clone, Copy, Debug, PartialEq, Eq)]
pub struct Aim {
    /// A first question, if there is one.
    pub first: Option<First>,
    /// Whether routers and ranges are learnt, and each router is asked for all that it holds.
    pub spreads: bool,
    /// For which names each zone that is known is searched, if it is.
    pub pattern: Option<Pattern>,
}

/// From where the next question is.
#[derive(Clone, Copy, Debug, PartialEq, Eq)]
pub enum Place {
    /// It is the first one.
    First,
    /// It is to a router, which is the one with this index.
    Router(usize, Routered),
    /// It is to the routers of a range, which is the one with this index.
    Range(usize, Ranged),
    /// It is about a zone, which is the one with this index.
    Zone(usize, Zoned),
    /// It is asked once more, and is in the slot with this index.
    Again(usize),
}

/// The next question, with its ID.
#[derive(Clone, Copy, Debug, PartialEq, Eq)]
pub struct Turn {
    pub place: Place,
    pub item: Open,
}

/// What a station still has to ask, what it waits for, and what happened last.
#[derive(Drop)]
pub struct Agenda {
    pub(crate) aim: Aim,
    pub(crate) routers: Few<Routered>,
    pub(crate) ranges: Few<Ranged>,
    pub(crate) zones: Few<Zoned>,
    pub(crate) slots: Vec<Option<Open>>,
    pub(crate) id: u16,
    pub(crate) told: Few<Told>,
}

impl Model for Agenda {
    ghost use Rattle.std.specs.Prelude.{◌≡◌, length};
    ghost use Rattle.survey.specs.Agendas.{Planned, max_slots};

    ghost Value = { Planned };

    ghost view = { λ a. record {
      aim = a.aim;
      routers = a.routers;
      ranges = a.ranges;
      zones = a.zones;
      slots = a.slots.items;
      id = a.id;
      told = a.told;
    } };

    ghost invariant = { λ a. length a.slots.items ≡ max_slots };
}

/// The question to a router.
fn to_router(ranges: &[Ranged], router: &Routered) -> Question
    ensures { result ≡ spec.to_router ranges.now router.now }
{
    Question {
        to: router.at,
        wanted: wanted_of(ranges, router.asked).unwrap_or(Wanted::Echo),
    }
}

/// The question to the routers of a range.
fn to_range(ranged: &Ranged) -> Question
    ensures { result ≡ spec.to_range ranged.now }
{
    Question {
        to: beyond(ranged),
        wanted: Wanted::Routes(Horizon::Whole),
    }
}

/// The question for names in a zone, to a router.
fn about_zone(pattern: &Pattern, zone: &Zoned, router: Addr) -> Question
    ensures { result ≡ spec.about_zone pattern.now zone.now router }
{
    Question {
        to: router,
        wanted: Wanted::Names(Sought {
            object: pattern.object,
            kind: pattern.kind,
            zone: zone_text(zone),
        }),
    }
}

/// The name of a zone as a text.
fn zone_text(zone: &Zoned) -> Text32
    ensures { result ≡ zone.now.name }
{
    Text32::new(zone.name.as_slice()).unwrap()
}

/// The first question.
fn at_first(first: &First, router: Addr) -> Question
    ensures { result ≡ spec.at_first first.now router }
{
    Question {
        to: first.to.unwrap_or(router),
        wanted: first.wanted,
    }
}

impl Agenda {
    /// Nothing was asked yet. Error: `Memory`.
    pub fn new(alloc: Global, aim: &Aim) -> Result<Agenda, Error>
        ensures ok { IfOk result (λ a. a ≡ spec.planned aim.now) }
        ensures refused { IsOkUnless result Error.Memory }
    {
        let mut slots = Vec::with_capacity(alloc, SLOTS)?;
        slots.resize(SLOTS, None)?;
        Ok(Agenda {
            aim: *aim,
            routers: Few::new(alloc)?,
            ranges: Few::new(alloc)?,
            zones: Few::new(alloc)?,
            slots,
            id: 1,
            told: Few::new(alloc)?,
        })
    }

    /// The allocator that it was given.
    pub(crate) fn allocator(&self) -> Global {
        *self.slots.allocator()
    }

    /// A question that wasn't asked yet, from a place.
    fn fresh(&self, place: Place, question: &Question) -> Turn
        ensures { result ≡ spec.fresh self.now.id place question.now }
    {
        Turn {
            place,
            item: first_open(question, self.id),
        }
    }

    /// The next zone in which names have to be looked for, if there is one.
    fn next_zone(&self, router: Addr) -> Option<Turn>
        ensures { result ≡ spec.next_zone self.now router }
    {
        let pattern = &self.aim.pattern;
        match pattern {
            Some(pattern) => {
                let (index, zone) = zone_next(0, self.zones.as_slice())?;
                let question = about_zone(pattern, &zone, router);
                Some(self.fresh(Place::Zone(index, zone), &question))
            }
            None => None,
        }
    }

    /// The next range whose routers have to be asked, or the next zone.
    fn next_range(&self, router: Addr) -> Option<Turn>
        ensures { result ≡ spec.next_range self.now router }
    {
        match range_next(0, self.ranges.as_slice()) {
            Some((index, ranged)) => {
                let question = to_range(&ranged);
                Some(self.fresh(Place::Range(index, ranged), &question))
            }
            None => self.next_zone(router),
        }
    }

    /// The next router that has to be asked, or the next range or zone.
    fn next_router(&self, router: Addr) -> Option<Turn>
        ensures { result ≡ spec.next_router self.now router }
    {
        let ranges = self.ranges.as_slice();
        match router_next(ranges, 0, self.routers.as_slice()) {
            Some((index, next)) => {
                let question = to_router(ranges, &next);
                Some(self.fresh(Place::Router(index, next), &question))
            }
            None => self.next_range(router),
        }
    }

    /// The next question that wasn't asked yet, if there is one.
    fn next_new(&self, router: Addr) -> Option<Turn>
        ensures { result ≡ spec.next_new self.now router }
    {
        let first = &self.aim.first;
        match first {
            Some(first) => Some(self.fresh(Place::First, &at_first(first, router))),
            None => self.next_router(router),
        }
    }

    /// The question that is asked now, if there is one: one that has to be asked once more, or else,
    /// where a slot is free, one that wasn't asked yet. Allocates nothing.
    pub(crate) fn turn(&self, router: Addr) -> Option<Turn>
        ensures { result ≡ spec.turn self.now router }
    {
        match due(0, self.slots.as_slice()) {
            Some((index, item)) => Some(Turn {
                place: Place::Again(index),
                item,
            }),
            None => match free(0, self.slots.as_slice()) {
                Some(_) => self.next_new(router),
                None => None,
            },
        }
    }
}

/// The ID after this one.
pub(crate) fn next_id(id: u16) -> u16
    ensures { result ≡ spec.next_id id }
{
    id.wrapping_add(1)
}

/// The first question after it was asked once more.
fn first_after(first: &Option<First>) -> Option<First>
    ensures { result ≡ spec.first_after first.now }
{
    match first {
        Some(first) if first.times > 1 => Some(First {
            times: first.times - 1,
            ..*first
        }),
        _ => None,
    }
}

impl Agenda {
    /// Marks what was asked from a place.
    fn mark(&mut self, place: &Place)
        ensures { self.new ≡ spec.marked place.now self.old }
    {
        match place {
            Place::First => self.aim.first = first_after(&self.aim.first),
            Place::Router(index, router) => self.routers.set(
                *index,
                Routered {
                    asked: router.asked.saturating_add(1),
                    ..*router
                },
            ),
            Place::Range(index, ranged) => self.ranges.set(
                *index,
                Ranged {
                    asked: ranged.asked.saturating_add(1),
                    ..*ranged
                },
            ),
            Place::Zone(index, zone) => self.zones.set(
                *index,
                Zoned {
                    asked: true,
                    ..*zone
                },
            ),
            Place::Again(_) => {}
        }
    }

    /// The slot of a question from a place.
    fn slot_of(&self, place: &Place) -> usize
        ensures { result ≡ spec.slot_of self.now place.now }
    {
        match place {
            Place::Again(index) => *index,
            Place::First | Place::Router(_, _) | Place::Range(_, _) | Place::Zone(_, _) => {
                free(0, self.slots.as_slice()).unwrap_or(0)
            }
        }
    }

    /// The next ID after a question from a place was asked.
    fn id_after(&self, place: &Place) -> u16
        ensures { result ≡ spec.id_after self.now.id place.now }
    {
        match place {
            Place::Again(_) => self.id,
            Place::First | Place::Router(_, _) | Place::Range(_, _) | Place::Zone(_, _) => {
                next_id(self.id)
            }
        }
    }

    /// A question is asked, if there is one. Allocates nothing.
    fn ask(&mut self, turn: &Option<Turn>)
        ensures { self.new ≡ spec.after_turn self.old turn.now }
    {
        self.told.clear();
        if let Some(turn) = turn {
            let item = asked(&turn.item);
            let slot = self.slot_of(&turn.place);
            let id = self.id_after(&turn.place);
            self.mark(&turn.place);
            self.fill(slot, &item);
            self.id = id;
            self.told.push(Told::Asked(item));
        }
    }

    /// A question is in this slot, if there is such a slot.
    fn fill(&mut self, slot: usize, item: &Open)
        ensures { self.new ≡ record self.old { slots = slice_set self.old.slots slot (Some item.now) } }
    {
        if slot < self.slots.len() {
            self.slots[slot] = Some(*item);
        }
    }

    /// A tick passes in which this question is asked, if there is one. Allocates nothing.
    pub(crate) fn pass(&mut self, turn: &Option<Turn>)
        ensures { self.new ≡ spec.ticked self.old turn.now }
    {
        self.ask(turn);
        tell_all_silent(&mut self.told, self.slots.as_slice());
        pass_all(self.slots.as_mut_slice());
    }

    /// Whether nothing waits for an answer, and there is nothing to ask. Allocates nothing.
    pub(crate) fn is_quiet(&self, router: Addr) -> bool
        ensures { result ≡ spec.is_quiet self.now router }
    {
        match self.next_new(router) {
            Some(_) => false,
            None => all_free(self.slots.as_slice()),
        }
    }
}
