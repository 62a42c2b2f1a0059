//! The choice of a port's address.

use crate::aarp_packets::{packet, put_packet};
use crate::spelling::put_or_none;
use aarp::{Care, Chooser, Packet, are_on};
use at_base::{Addr, Hw, Range};
use case_words::{Answer, Stop, Words, put_hw, put_line, yes_or_no};
use std::alloc::{AllocError, Global};

/// A choice, and another that may be a copy of it.
#[derive(Drop)]
pub(crate) struct Choosing {
    chooser: Chooser,
    other: Chooser,
}

/// A choice that tries these addresses first, and minds the other stations with this care.
fn trying(
    alloc: Global,
    range: Range,
    tries: &[Addr],
    hw: Hw,
    care: Care,
) -> Result<Chooser, Stop> {
    if !are_on(range, tries) {
        return Err(Stop::Unclear);
    }
    if care.listens || care.one_goes_on {
        return Ok(Chooser::careful(alloc, range, tries, hw, care)?);
    }
    Ok(Chooser::new(alloc, range, tries, hw)?)
}

/// What a choice minds, as `listening one-goes-on` or one of the two; nothing at the end of the
/// line.
fn care(mut words: Words<'_>) -> Result<Care, Stop> {
    let listens = words.passes("listening");
    let one_goes_on = words.passes("one-goes-on");
    if words.is_empty() {
        Ok(Care {
            listens,
            one_goes_on,
        })
    } else {
        Err(Stop::Unclear)
    }
}

/// A choice that is settled.
fn decided(alloc: Global, range: Range, addr: Addr, hw: Hw) -> Result<Chooser, Stop> {
    if !are_on(range, &[addr]) {
        return Err(Stop::Unclear);
    }
    Ok(Chooser::decided(alloc, range, addr, hw))
}

/// The choice of a station with a hardware address on a cable: after the word `has` its settled
/// address, or after `tries` the addresses that it tries first, and behind a `/` what it minds.
fn chooser(alloc: Global, mut words: Words<'_>) -> Result<Chooser, Stop> {
    let range = words.range()?;
    let hw = words.hw()?;
    if words.passes("has") {
        return decided(alloc, range, words.addr()?, hw);
    }
    words.expect("tries")?;
    let tries = words.list(alloc, Words::addr)?;
    trying(alloc, range, tries.as_slice(), hw, care(words)?)
}

/// Appends the bytes of a packet.
fn put_bytes(text: &mut String, packet: Option<Packet>) -> Result<(), AllocError> {
    match packet {
        Some(packet) => put_line(text, &packet.write()),
        None => writeln!(text, "none"),
    }
}

/// The number of ticks until the choice is settled, at most 30.
fn ticks_to_settle(chooser: &mut Chooser) -> u32 {
    for ticks in 0..30 {
        if chooser.settled().is_some() {
            return ticks;
        }
        let _ = chooser.tick();
    }
    30
}

fn put_ticks(text: &mut String, chooser: &mut Chooser) -> Result<(), AllocError> {
    let ticks = ticks_to_settle(chooser);
    writeln!(text, "after {ticks} ticks")
}

/// The number of probes that the choice sends in so many ticks.
fn probes_in(chooser: &mut Chooser, ticks: u32) -> u32 {
    let mut probes: u32 = 0;
    for _ in 0..ticks {
        if chooser.tick().is_some() {
            probes = probes.saturating_add(1);
        }
    }
    probes
}

fn put_probes(text: &mut String, chooser: &mut Chooser, ticks: u32) -> Result<(), AllocError> {
    let probes = probes_in(chooser, ticks);
    writeln!(text, "probes {probes}")
}

/// Appends whether the choice heard that its cable has another range.
fn put_elsewhere(text: &mut String, chooser: &Chooser) -> Result<(), AllocError> {
    let elsewhere = yes_or_no(chooser.is_elsewhere());
    writeln!(text, "{elsewhere}")
}

/// Appends whether a station of the cable may have the address.
fn put_may(text: &mut String, chooser: &Chooser, addr: Addr) -> Result<(), AllocError> {
    let may = yes_or_no(are_on(chooser.range(), &[addr]));
    writeln!(text, "{may}")
}

/// Appends the range of the cable, and the hardware address.
fn put_port(text: &mut String, chooser: &Chooser) -> Result<(), AllocError> {
    let range = chooser.range();
    write!(text, "{range} ")?;
    put_hw(text, chooser.hw())?;
    writeln!(text)
}

impl Choosing {
    /// A choice, as `10-19 020000000005 tries 10.7 ; 10.9`, `10-19 020000000005 has 10.7` or
    /// `10-19 020000000005 tries 10.7 / listening one-goes-on`.
    pub(crate) fn new(alloc: Global, words: Words<'_>) -> Result<Choosing, Stop> {
        Ok(Choosing {
            chooser: chooser(alloc, words)?,
            other: chooser(alloc, words)?,
        })
    }

    /// Carries out a command.
    pub(crate) fn act(&mut self, mut words: Words<'_>, text: &mut String) -> Answer {
        match words.word() {
            "tick" => put_packet(text, self.chooser.tick())?,
            "bytes" => put_bytes(text, self.chooser.tick())?,
            "ticks" => put_probes(text, &mut self.chooser, words.number()?)?,
            "settles" => put_ticks(text, &mut self.chooser)?,
            "settled" => put_or_none(text, self.chooser.settled())?,
            "hear" => self.chooser.heard(&packet(&mut words)?),
            "range" => self.chooser.hear_range(words.range()?),
            "elsewhere" => put_elsewhere(text, &self.chooser)?,
            "answer" => put_packet(text, self.chooser.answer(&packet(&mut words)?))?,
            "may" => put_may(text, &self.chooser, words.addr()?)?,
            "port" => put_port(text, &self.chooser)?,
            "copy" => self.other = self.chooser.copy()?,
            "swap" => std::mem::swap(&mut self.chooser, &mut self.other),
            _ => return Err(Stop::Unclear),
        }
        Ok(())
    }
}
