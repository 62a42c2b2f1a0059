//! Sections: reading blocks, one after the other.

ghost use Rattle.std.specs.Prelude.{◌≡◌, ◌≤◌, [], OnErr, length};
ghost use Rattle.at_base.specs.Reading.{Gives};
ghost use Rattle.pcapng.specs.Heads as heads_spec;
ghost use Rattle.pcapng.specs.Packets as packets_spec;
ghost use Rattle.pcapng.specs.Reads as reads_spec;
ghost use Rattle.pcapng.specs.Reads.{packed, told};
ghost use Rattle.pcapng.specs.Sections as spec;

use crate::block::{Block, Seen};
use crate::classic::{header, record};
use crate::fault::Fault;
use crate::form::{Began, Forms};
use crate::head::{Head, MAX_BLOCK, SECTION};
use crate::interface::{Interface, Interfaces, MAX_INTERFACES};
use crate::item::{Fraction, Item};
use crate::options::{Described, says_lost, with_options};
use crate::order::{Order, run_of};
use std::marker::Model;

/// The types of the other blocks that are read.
const INTERFACE: u32 = 1;

const STATISTICS: u32 = 5;

const PACKET: u32 = 6;

/// What the blocks of a capture are read by: what it began as, and the interfaces of its section.
#[derive(Debug, Drop)]
pub struct Section {
    began: Began,
    interfaces: Interfaces,
}

impl Model for Section {
    ghost use Rattle.std.specs.Prelude.{◌≤◌, length};
    ghost use Rattle.pcapng.specs.Sections.{Section as SectionValue, max_interfaces};

    ghost Value = { SectionValue };

    ghost view = { λ s. record { began = s.began; interfaces = s.interfaces } };

    ghost invariant = { λ s. length s.interfaces ≤ max_interfaces };
}

fn interface_at(interfaces: &[Interface], index: u32) -> Result<Interface, Fault>
    ensures { Gives (λ i. i) result (packets_spec.interface_at interfaces.now index) }
{
    match interfaces.get(index as usize) {
        Some(interface) => Ok(*interface),
        None => Err(Fault::Interface),
    }
}

fn time_on(interface: Interface, high: u32, low: u32) -> u64
    ensures { result ≡ packets_spec.time_on interface (spec.two_words high low) }
{
    interface.time((u64::from(high) << 32) + u64::from(low))
}

/// Whether a section header's version can be read.
fn check_section(order: Order, body: &[u8]) -> Result<(), Fault>
    ensures { Gives (λ x. (spec.begins, spec.pcapng order [])) result
        (spec.section_body order body.now) }
{
    let (_, rest) = run_of(body, 4)?;
    let (major, rest) = order.two(rest)?;
    let (_, _) = run_of(rest, 10)?;
    if major == 1 {
        Ok(())
    } else {
        Err(Fault::Version)
    }
}

fn described(order: Order, body: &[u8]) -> Result<Described<'_>, Fault>
    ensures { Gives reads_spec.described result (spec.described_in order body.now) }
{
    let (link, rest) = order.two(body)?;
    let (_, rest) = run_of(rest, 6)?;
    Ok(with_options(order, link == 1, rest))
}

fn packet<'a>(interfaces: &[Interface], order: Order, body: &'a [u8]) -> Result<Seen<'a>, Fault>
    ensures { Gives packed result (spec.packet_in interfaces.now order body.now) }
{
    let (index, rest) = order.four(body)?;
    let (high, rest) = order.four(rest)?;
    let (low, rest) = order.four(rest)?;
    let (captured, rest) = order.four(rest)?;
    let (len, rest) = order.four(rest)?;
    let interface = interface_at(interfaces, index)?;
    let (bytes, rest) = run_of(rest, captured as usize)?;
    Ok(Seen {
        interface: index,
        time: time_on(interface, high, low),
        ethernet: interface.ethernet,
        whole: captured >= len,
        lost: says_lost(order, captured, rest),
        bytes,
    })
}

fn heartbeat(interfaces: &[Interface], order: Order, body: &[u8]) -> Result<(u32, u64), Fault>
    ensures { Gives (λ x. x) result (spec.statistics_in interfaces.now order body.now) }
{
    let (index, rest) = order.four(body)?;
    let (high, rest) = order.four(rest)?;
    let (low, _) = order.four(rest)?;
    let interface = interface_at(interfaces, index)?;
    Ok((index, time_on(interface, high, low)))
}

/// What is between the two lengths of a block, from all its bytes, or from the first ones of a long
/// one. Error: `Length` where the two lengths differ.
fn between(head: Head, bytes: &[u8]) -> Result<&[u8], Fault>
    requires there { length bytes.now ≡ heads_spec.front head }
    requires least { 12 ≤ head.len }
    ensures { Gives (λ b. b.now) result (spec.between head bytes.now) }
{
    if head.len as usize > MAX_BLOCK {
        return Ok(&bytes[8..]);
    }
    let (front, last) = bytes.split_at(head.len as usize - 4);
    if head.order.four_in(last) != head.len {
        return Err(Fault::Length);
    }
    Ok(&front[8..])
}

impl Section {
    /// A capture of which nothing was read: it has to begin in one of these forms.
    pub fn new(forms: Forms) -> Section
        ensures { result ≡ spec.unread forms }
    {
        Section {
            began: Began::Nothing(forms),
            interfaces: Interfaces::new(),
        }
    }

    /// What the capture began as.
    pub fn began(&self) -> Began
        ensures { result ≡ self.now.began }
    {
        self.began
    }

    /// The interfaces that were described, by number; of a classic capture its one interface.
    pub fn interfaces(&self) -> &[Interface]
        ensures { result.now ≡ self.now.interfaces }
    {
        self.interfaces.as_slice()
    }

    fn begin(&mut self, began: Began)
        ensures { self.new ≡ record { began = began; interfaces = [] } }
    {
        self.began = began;
        self.interfaces.clear();
    }

    /// A section begins. Errors: `Cut`, `Version`.
    fn begin_by(&mut self, order: Order, body: &[u8]) -> Result<(), Fault>
        ensures gives { Gives (λ x. (spec.begins, self.new)) result
            (spec.section_body order body.now) }
        ensures stays { OnErr result (self.new ≡ self.old) }
    {
        check_section(order, body)?;
        self.begin(Began::Pcapng(order));
        Ok(())
    }

    /// One interface more. Error: `Interface`, if there are 256.
    fn describe(&mut self, described: &Described) -> Result<(), Fault>
        ensures gives { Gives (λ x. (spec.describes (reads_spec.described described.now), self.new))
            result (spec.with_interface self.old (reads_spec.described described.now)) }
        ensures stays { OnErr result (self.new ≡ self.old) }
    {
        if self.interfaces.as_slice().len() >= MAX_INTERFACES {
            return Err(Fault::Interface);
        }
        self.interfaces.push(described.interface);
        Ok(())
    }

    /// An interface is described. Errors: `Cut`, `Interface`.
    fn describe_by<'a>(&mut self, order: Order, body: &'a [u8]) -> Result<Described<'a>, Fault>
        ensures gives { Gives (λ d. (spec.describes (reads_spec.described d), self.new)) result
            (spec.described_by self.old order body.now) }
        ensures stays { OnErr result (self.new ≡ self.old) }
    {
        let described = described(order, body)?;
        self.describe(&described)?;
        Ok(described)
    }

    /// A classic capture begins, with its one interface. Errors: `Cut`, `Version`.
    fn open(&mut self, order: Order, fraction: Fraction, bytes: &[u8]) -> Result<Interface, Fault>
        ensures gives { Gives (λ i. (spec.opens i, self.new)) result
            (spec.opened order fraction bytes.now) }
        ensures stays { OnErr result (self.new ≡ self.old) }
    {
        let interface = header(order, fraction, bytes)?;
        self.begin(Began::Classic(order));
        self.interfaces.push(interface);
        Ok(interface)
    }

    /// What a record of a classic capture says.
    fn record<'a>(&self, head: Head, bytes: &'a [u8]) -> Result<Block<'a>, Fault>
        ensures { Gives told result (spec.recorded self.now.interfaces head bytes.now) }
    {
        if head.len as usize > MAX_BLOCK {
            return Ok(Block::TooLong);
        }
        let interface = interface_at(self.interfaces.as_slice(), 0)?;
        let seen = record(interface, head.order, bytes)?;
        Ok(Block::Packet(seen))
    }

    /// What a block says that changes nothing of the section.
    fn other<'a>(&self, head: Head, kind: u32, body: &'a [u8]) -> Result<Block<'a>, Fault>
        ensures { Gives told result (spec.other_in self.now.interfaces head kind body.now) }
    {
        let is_short = head.len as usize <= MAX_BLOCK;
        if kind == PACKET && is_short {
            let seen = packet(self.interfaces.as_slice(), head.order, body)?;
            return Ok(Block::Packet(seen));
        }
        if kind == PACKET {
            return Ok(Block::TooLong);
        }
        if kind == STATISTICS && is_short {
            let (index, time) = heartbeat(self.interfaces.as_slice(), head.order, body)?;
            return Ok(Block::Heartbeat(index, time));
        }
        Ok(Block::Other)
    }

    /// What a block of pcapng says, from the bytes between its two lengths.
    fn body<'a>(&mut self, head: Head, kind: u32, body: &'a [u8]) -> Result<Block<'a>, Fault>
        ensures gives { Gives (λ b. (told b, self.new)) result
            (spec.body_of self.old head kind body.now) }
        ensures stays { OnErr result (self.new ≡ self.old) }
    {
        if kind == SECTION {
            self.begin_by(head.order, body)?;
            return Ok(Block::Section);
        }
        if kind == INTERFACE {
            let described = self.describe_by(head.order, body)?;
            return Ok(Block::Interface(described));
        }
        self.other(head, kind, body)
    }

    /// What the block with this head says: the bytes are all of it, or of a longer one as many of its
    /// first bytes as are looked at.
    ///
    /// Errors: `Length` where its two lengths differ; `Cut` where it is too short for its fields;
    /// `Version` and `Interface`. After an error the section is as before.
    #[inline(always)]
    pub fn block<'a>(&mut self, head: Head, bytes: &'a [u8]) -> Result<Block<'a>, Fault>
        requires there { length bytes.now ≡ heads_spec.front head }
        requires least { 12 ≤ head.len }
        ensures gives { Gives (λ b. (told b, self.new)) result
            (spec.block_of self.old head bytes.now) }
        ensures stays { OnErr result (self.new ≡ self.old) }
    {
        match head.item {
            Item::Block(kind) => {
                let body = between(head, bytes)?;
                self.body(head, kind, body)
            }
            Item::Header(fraction) => {
                let interface = self.open(head.order, fraction, bytes)?;
                Ok(Block::Classic(interface))
            }
            Item::Record => self.record(head, bytes),
        }
    }
}
