//! The questions that wait for answers.

ghost use Rattle.std.specs.Prelude.{◌≡◌, ◌≤◌, ◌<◌, ◌+◌, Option, List, ℕ, fold, length, map, replicate, None, IfSome};
ghost use Rattle.std.specs.List.{list_all, list_any};
ghost use Rattle.atp.specs.InPlace.{packet_value, transaction_in};
ghost use Rattle.survey.specs.Slots as spec;

use crate::answering::count_listed;
use crate::few::Few;
use crate::question::{Question, Wanted};
use ddp::View;
use zip_zones::ZoneFunction;

/// The greatest number of questions that wait for answers at once.
pub(crate) const SLOTS: usize = 64;

/// For how many ticks an answer is waited for before a question is asked once more or given up, and
/// the tick in which it is asked.
const PAUSE: u8 = 11;

/// How often a question is asked at most.
const MAX_TIMES: u8 = 3;

/// The greatest index of a zone in a list that is asked for.
const MAX_LISTED: u16 = 1_024;

/// A question that was asked.
///
/// This project's own.
#[derive(Clone, Copy, Debug, PartialEq, Eq)]
pub struct Open {
    pub question: Question,
    /// The number by which its answer is known.
    pub id: u16,
    /// How often it was asked.
    pub times: u8,
    /// For how many ticks an answer is waited for.
    pub wait: u8,
    /// Whether it was answered.
    pub is_answered: bool,
}

/// What happened to a question.
///
/// This project's own.
#[derive(Clone, Copy, Debug, PartialEq, Eq)]
pub enum Told {
    /// It was asked.
    Asked(Open),
    /// It was answered, by the datagram that was heard.
    Answered(Open),
    /// No answer came, or none that can be read.
    Silent(Open),
}

/// A question that wasn't asked yet.
pub(crate) fn first_open(question: &Question, id: u16) -> Open
    ensures { result ≡ spec.first_open question.now id }
{
    Open {
        question: *question,
        id,
        times: 0,
        wait: 0,
        is_answered: false,
    }
}

/// The question after it was asked once more.
pub(crate) fn asked(item: &Open) -> Open
    ensures { result ≡ spec.asked item.now }
{
    Open {
        times: item.times.saturating_add(1),
        wait: PAUSE,
        ..*item
    }
}

/// The question a tick later.
fn aged(item: &Open) -> Open
    ensures { result ≡ spec.aged item.now }
{
    Open {
        wait: item.wait.saturating_sub(1),
        ..*item
    }
}

/// Whether nothing more is done with a question.
fn is_over(item: &Open) -> bool
    ensures { result ≡ spec.is_over item.now }
{
    item.wait == 0 && (item.times >= MAX_TIMES || item.is_answered && !item.question.is_plural())
}

/// A slot a tick later.
fn passed(slot: &Option<Open>) -> Option<Open>
    ensures { result ≡ spec.passed slot.now }
{
    match slot {
        Some(item) => {
            let item = aged(item);
            if is_over(&item) { None } else { Some(item) }
        }
        None => None,
    }
}

/// All slots a tick later.
pub(crate) fn pass_all(slots: &mut [Option<Open>])
    ensures { slots.new ≡ map spec.passed slots.old }
{
    for slot in slots.iter_mut() {
        *slot = passed(slot);
    }
}

/// Adds that no answer came, if a tick later the question in a slot is given up without one.
fn tell_silent(told: &mut Few<Told>, slot: &Option<Open>)
    ensures { told.new ≡ spec.silent_told told.old slot.now }
{
    if let Some(item) = slot {
        let item = aged(item);
        if is_over(&item) && !item.is_answered {
            told.push(Told::Silent(item));
        }
    }
}

/// Adds which questions are given up a tick later.
pub(crate) fn tell_all_silent(told: &mut Few<Told>, slots: &[Option<Open>])
    ensures { told.new ≡ fold spec.silent_told told.old slots.now }
{
    if let [slot, rest @ ..] = slots {
        tell_silent(told, slot);
        tell_all_silent(told, rest);
    }
}

/// The first of these slots, which are numbered from `from`, whose question has to be asked once more.
pub(crate) fn due(from: usize, slots: &[Option<Open>]) -> Option<(usize, Open)>
    requires { from + length slots.now ≤ 65535 }
    ensures { result ≡ spec.due from slots.now }
{
    match slots {
        [] => None,
        [slot, rest @ ..] => match slot {
            Some(item) if item.wait == 0 => Some((from, *item)),
            _ => due(from + 1, rest),
        },
    }
}

/// The first of these slots, which are numbered from `from`, that is free.
pub(crate) fn free(from: usize, slots: &[Option<Open>]) -> Option<usize>
    requires { from + length slots.now ≤ 65535 }
    ensures { result ≡ spec.free from slots.now }
{
    match slots {
        [] => None,
        [slot, rest @ ..] => match slot {
            Some(_) => free(from + 1, rest),
            None => Some(from),
        },
    }
}

/// Whether a slot is free.
fn is_free(slot: &Option<Open>) -> bool
    ensures { result ≡ spec.is_free slot.now }
{
    match slot {
        Some(_) => false,
        None => true,
    }
}

/// Whether all slots are free.
pub(crate) fn all_free(slots: &[Option<Open>]) -> bool
    ensures { result ≡ list_all spec.is_free slots.now }
{
    slots.iter().all(|slot| is_free(slot))
}

/// Whether the datagram answers the question in a slot.
fn is_answered(slot: &Option<Open>, view: &View<'_>) -> bool
    ensures { result ≡ spec.is_answered view.now slot.now }
{
    match slot {
        Some(item) => item.question.is_answered(item.id, view),
        None => false,
    }
}

/// Whether the datagram answers a question.
pub(crate) fn any_answered(slots: &[Option<Open>], view: &View<'_>) -> bool
    ensures { result ≡ list_any (spec.is_answered view.now) slots.now }
{
    slots.iter().any(|slot| is_answered(slot, view))
}

/// The index of the next page of a list of which this is one, from `start` on, if another page has to
/// be asked for.
fn next_page(start: u16, packet: &atp::Packet<'_>) -> Option<u16>
    ensures { result ≡ spec.next_page start (packet_value packet.now) }
{
    let count = count_listed(packet);
    if packet.user[0] != 0 || count == 0 || start > MAX_LISTED || count > MAX_LISTED - start {
        return None;
    }
    Some(start + count)
}

/// The index from which on a list is asked for once more after an answer, if it is.
fn next_start(function: ZoneFunction, start: u16, payload: &[u8]) -> Option<u16>
    ensures { result ≡ spec.next_start function start (transaction_in payload.now) }
{
    match (function, atp::Packet::at(payload)) {
        (ZoneFunction::GetMyZone, _) => None,
        (ZoneFunction::GetZoneList | ZoneFunction::GetLocalZones, Some(packet)) => {
            next_page(start, &packet)
        }
        (ZoneFunction::GetZoneList | ZoneFunction::GetLocalZones, None) => None,
    }
}

/// The question for the next page of a list, if there is one.
fn next_question(question: &Question, payload: &[u8]) -> Option<Question>
    ensures { result ≡ spec.next_question question.now payload.now }
{
    match question.wanted {
        Wanted::List(function, start) => {
            let next = next_start(function, start, payload)?;
            Some(Question {
                to: question.to,
                wanted: Wanted::List(function, next),
            })
        }
        Wanted::Echo | Wanted::Routes(_) | Wanted::Zones(_) | Wanted::Names(_) => None,
    }
}

/// A question after its answer: the next page of a list takes its place, with this ID.
fn answered(item: &Open, view: &View<'_>, id: u16) -> Open
    ensures { result ≡ spec.answered view.now id item.now }
{
    match next_question(&item.question, view.payload()) {
        Some(question) => first_open(&question, id),
        None => Open {
            is_answered: true,
            ..*item
        },
    }
}

/// A slot after a datagram.
fn heard(slot: &Option<Open>, view: &View<'_>, id: u16) -> Option<Open>
    ensures { result ≡ spec.heard view.now id slot.now }
{
    match slot {
        Some(item) => {
            if item.question.is_answered(item.id, view) {
                Some(answered(item, view, id))
            } else {
                Some(*item)
            }
        }
        None => None,
    }
}

/// All slots after a datagram; the next page of a list has this ID.
pub(crate) fn hear_all(slots: &mut [Option<Open>], view: &View<'_>, id: u16)
    ensures { slots.new ≡ map (spec.heard view.now id) slots.old }
{
    for slot in slots.iter_mut() {
        *slot = heard(slot, view, id);
    }
}

/// Adds that a question was answered, if the datagram does.
fn tell_answered(told: &mut Few<Told>, slot: &Option<Open>, view: &View<'_>)
    ensures { told.new ≡ spec.answered_told view.now told.old slot.now }
{
    if let Some(item) = slot {
        if item.question.is_answered(item.id, view) {
            told.push(Told::Answered(*item));
        }
    }
}

/// Adds which questions the datagram answers.
pub(crate) fn tell_all_answered(told: &mut Few<Told>, slots: &[Option<Open>], view: &View<'_>)
    ensures { told.new ≡ fold (spec.answered_told view.now) told.old slots.now }
{
    if let [slot, rest @ ..] = slots {
        tell_answered(told, slot, view);
        tell_all_answered(told, rest, view);
    }
}
