//! The answers to a question, each told once.

use crate::heard::datagram_in;
use crate::line::{Named, put_echo, put_more, put_named, put_route, put_silence, put_zone};
use crate::objects;
use crate::seen::Seen;
use at_base::{Addr, Error, Name};
use ddp::View;
use rtmp::{DataPacket, Nonextended, Tuple};
use std::alloc::Global;
use survey::{Open, Question, Sought, Told, Wanted, zones_in};

/// How answers are told.
#[derive(Clone, Copy, Debug, PartialEq, Eq)]
pub enum Style {
    /// Each by a line.
    Text,
    /// Each by a JSON object.
    Json,
    Nothing,
}

/// The answers to a question, of which each is told once.
#[derive(Drop)]
pub struct Answers {
    style: Style,
    /// Whether zones are told: they aren't where they are only asked for to look for names in them.
    zones: bool,
    seen: Seen,
    silent: u64,
}

/// The zone of a name that was found: the one that was searched, where the answer has none.
fn zone_of<'a>(told: &'a [u8], sought: &'a Sought) -> &'a [u8] {
    if told.is_empty() || told == b"*".as_slice() {
        sought.zone.as_slice()
    } else {
        told
    }
}

/// The time from one to another, in microseconds, as far as it can be told.
fn passed(from: u64, to: u64) -> u32 {
    to.saturating_sub(from).min(4_294_967_295) as u32
}

impl Answers {
    /// No answers yet. Where zones are only asked for to look for names in them, they aren't told.
    /// Allocates nothing.
    pub fn new(alloc: Global, style: Style, zones: bool) -> Answers {
        Answers {
            style,
            zones,
            seen: Seen::new(alloc),
            silent: 0,
        }
    }

    /// How many questions had no answer.
    pub fn silent(&self) -> u64 {
        self.silent
    }

    /// Tells of an echo.
    fn tell_echo(
        &mut self,
        id: u16,
        from: Addr,
        time: u64,
        lines: &mut Vec<u8>,
    ) -> Result<(), Error> {
        let Some(sent) = self.seen.take(id) else {
            return Ok(());
        };
        let microseconds = passed(sent, time);
        match self.style {
            Style::Text => put_echo(lines, from, microseconds)?,
            Style::Json => objects::put_echo(lines, from, microseconds)?,
            Style::Nothing => {}
        }
        Ok(())
    }

    /// Tells of a name.
    fn tell_name(&self, it: &Named<'_>, lines: &mut Vec<u8>) -> Result<(), Error> {
        match self.style {
            Style::Text => put_named(lines, it)?,
            Style::Json => objects::put_named(lines, it)?,
            Style::Nothing => {}
        }
        Ok(())
    }

    /// Tells of the names in data.
    fn tell_names(
        &mut self,
        sought: &Sought,
        payload: &[u8],
        lines: &mut Vec<u8>,
    ) -> Result<(), Error> {
        let Some(packet) = nbp::Packet::at(payload) else {
            return Ok(());
        };
        for tuple in packet.tuples() {
            if self.seen.is_new_name(&tuple)? {
                let it = Named {
                    object: tuple.object(),
                    kind: tuple.kind(),
                    zone: zone_of(tuple.zone(), sought),
                    at: tuple.at(),
                    socket: tuple.socket(),
                };
                self.tell_name(&it, lines)?;
            }
        }
        Ok(())
    }

    /// Tells of a zone, if it is new.
    fn tell_zone(&mut self, name: &Name, lines: &mut Vec<u8>) -> Result<(), Error> {
        if !self.zones || !self.seen.is_new_zone(name)? {
            return Ok(());
        }
        match self.style {
            Style::Text => put_zone(lines, name.as_slice())?,
            Style::Json => objects::put_zone(lines, name.as_slice())?,
            Style::Nothing => {}
        }
        Ok(())
    }

    /// Tells of the zones that data list.
    fn tell_listed(&mut self, payload: &[u8], lines: &mut Vec<u8>) -> Result<(), Error> {
        let Some(packet) = atp::Packet::at(payload) else {
            return Ok(());
        };
        let Some(names) = zones_in(packet.payload) else {
            return Ok(());
        };
        for name in names {
            self.tell_zone(&name, lines)?;
        }
        Ok(())
    }

    /// Tells of the zones of a network in data.
    fn tell_zones(&mut self, net: u16, payload: &[u8], lines: &mut Vec<u8>) -> Result<(), Error> {
        let entries = match zip_zones::Packet::at(payload) {
            Some(zip_zones::Packet::Reply(_, entries)) => entries,
            Some(zip_zones::Packet::ExtendedReply(_, entries)) => entries,
            _ => return Ok(()),
        };
        for entry in entries {
            if entry.net == net {
                self.tell_zone(&entry.name, lines)?;
            }
        }
        Ok(())
    }

    /// Tells of a range.
    fn tell_route(&self, tuple: &Tuple, from: Addr, lines: &mut Vec<u8>) -> Result<(), Error> {
        match self.style {
            Style::Text => put_route(lines, tuple, from)?,
            Style::Json => objects::put_route(lines, tuple, from)?,
            Style::Nothing => {}
        }
        Ok(())
    }

    /// Tells of the ranges in data from an address.
    fn tell_routes(
        &mut self,
        from: Addr,
        payload: &[u8],
        lines: &mut Vec<u8>,
    ) -> Result<(), Error> {
        let Some(packet) = DataPacket::at(payload) else {
            return Ok(());
        };
        for tuple in packet.heard(Nonextended::AsRanges) {
            if self.seen.is_new_range(&tuple, from)? {
                self.tell_route(&tuple, from, lines)?;
            }
        }
        Ok(())
    }

    /// Tells of the answer to a question that a datagram is.
    fn tell_answer(
        &mut self,
        item: &Open,
        view: &View<'_>,
        time: u64,
        lines: &mut Vec<u8>,
    ) -> Result<(), Error> {
        let payload = view.payload();
        match &item.question.wanted {
            Wanted::Echo => self.tell_echo(item.id, view.source(), time, lines),
            Wanted::Routes(_) => self.tell_routes(view.source(), payload, lines),
            Wanted::Zones(net) => self.tell_zones(*net, payload, lines),
            Wanted::List(_, _) => self.tell_listed(payload, lines),
            Wanted::Names(sought) => self.tell_names(sought, payload, lines),
        }
    }

    /// Tells that no answer to a question came.
    fn tell_silence(&mut self, question: &Question, lines: &mut Vec<u8>) -> Result<(), Error> {
        self.silent = self.silent.saturating_add(1);
        match self.style {
            Style::Text => put_silence(lines, question)?,
            Style::Json => objects::put_silence(lines, question)?,
            Style::Nothing => {}
        }
        Ok(())
    }

    /// Appends what happened in a tick at a time, in microseconds: a line for each question that no
    /// answer came to. Error: `Memory`.
    pub fn tick(&mut self, told: &[Told], time: u64, lines: &mut Vec<u8>) -> Result<(), Error> {
        for it in told {
            match it {
                Told::Asked(item) if item.question.wanted == Wanted::Echo => {
                    self.seen.send(item.id, time)?;
                }
                Told::Silent(item) => self.tell_silence(&item.question, lines)?,
                Told::Asked(_) | Told::Answered(_) => {}
            }
        }
        Ok(())
    }

    /// Appends a line for each answer that is new in a frame, which was heard at a time in
    /// microseconds. Error: `Memory`.
    pub fn hear(
        &mut self,
        told: &[Told],
        time: u64,
        bytes: &[u8],
        lines: &mut Vec<u8>,
    ) -> Result<(), Error> {
        if told.is_empty() {
            return Ok(());
        }
        let Some(view) = datagram_in(bytes) else {
            return Ok(());
        };
        for it in told {
            match it {
                Told::Answered(item) => self.tell_answer(item, &view, time, lines)?,
                Told::Asked(_) | Told::Silent(_) => {}
            }
        }
        Ok(())
    }

    /// Appends how many answers weren't told, if there are such. Error: `Memory`.
    pub fn end(&self, lines: &mut Vec<u8>) -> Result<(), Error> {
        let more = self.seen.more();
        if more == 0 {
            return Ok(());
        }
        match self.style {
            Style::Text => put_more(lines, more)?,
            Style::Json => objects::put_more(lines, more)?,
            Style::Nothing => {}
        }
        Ok(())
    }
}
