//! Worlds, tick by tick.

use crate::plans::plan_of;
use at_base::{Addr, Error};
use cable_model::{Entry, Kind};
use case_words::{Answer, Stop, Words, put_hw, put_line, put_text};
use dump_lines::number_of;
use end_node::{Datagram, EndNode};
use rtmp::RouteTable;
use std::alloc::{AllocError, Global};
use table_image::{Version, write};
use world::World;

/// A world and the file that it was begun from. A tick that ran out of memory can't be repeated, since the world counts
/// it; the world is begun again then, and the earlier ticks are repeated.
#[derive(Drop)]
pub(crate) struct Begun<T: RouteTable> {
    file: Vec<u8>,
    world: World<T>,
    passed: u32,
    spoilt: bool,
}

fn of_file<T: RouteTable>(alloc: Global, bytes: &[u8]) -> Result<World<T>, Stop> {
    Ok(World::new(alloc, plan_of(alloc, bytes)?)?)
}

impl<T: RouteTable> Begun<T> {
    pub(crate) fn new(alloc: Global, file: Vec<u8>) -> Result<Begun<T>, Stop> {
        let world = of_file(alloc, file.as_slice())?;
        Ok(Begun {
            file,
            world,
            passed: 0,
            spoilt: false,
        })
    }

    /// Begins the world again, and repeats its ticks.
    fn mend(&mut self, alloc: Global) -> Answer {
        let mut world = of_file(alloc, self.file.as_slice())?;
        for _ in 0..self.passed {
            if world.tick() == Err(Error::Memory) {
                return Err(Error::Memory.into());
            }
        }
        self.world = world;
        self.spoilt = false;
        Ok(())
    }

    /// Advances the world by `count` ticks, or up to the first one with an error.
    fn tick(&mut self, count: u32) -> Answer {
        let mut passed = 0u32;
        let mut answer = Ok(());
        for _ in 0..count {
            if answer.is_ok() {
                answer = self.world.tick();
                passed = passed.saturating_add(1);
            }
        }
        if answer == Err(Error::Memory) {
            self.spoilt = true;
        } else {
            self.passed = self.passed.saturating_add(passed);
        }
        Ok(answer?)
    }

    /// Carries out a command.
    pub(crate) fn act(&mut self, alloc: Global, mut words: Words<'_>, text: &mut String) -> Answer {
        if self.spoilt {
            self.mend(alloc)?;
        }
        match words.word() {
            "tick" => self.tick(1),
            "ticks" => self.tick(words.number()?),
            question => answer(alloc, &self.world, question, words, text),
        }
    }
}

fn kind_word(kind: Kind) -> &'static str {
    match kind {
        Kind::Ddp => "ddp",
        Kind::Aarp => "aarp",
    }
}

/// Appends the words of an entry, without its bytes. Cables and stations count from 0.
fn put_words(text: &mut String, entry: &Entry) -> Result<(), AllocError> {
    match *entry {
        Entry::Sent { station, .. } => write!(text, "sent station {station}"),
        Entry::Put {
            stamp,
            cable,
            sender,
            to,
            kind,
            ..
        } => {
            write!(text, "put {stamp} cable {cable} station {sender} to ")?;
            put_hw(text, to)?;
            let kind = kind_word(kind);
            write!(text, " {kind}")
        }
        Entry::Took { stamp, station } => write!(text, "took {stamp} station {station}"),
        Entry::Reached {
            cable,
            station,
            how,
            ..
        } => write!(text, "reached cable {cable} station {station} {how:?}"),
        Entry::Dropped { router, cause, .. } => write!(text, "dropped station {router} {cause:?}"),
        Entry::Lost { stamp } => write!(text, "lost {stamp}"),
        Entry::Hold {
            stamp,
            cable,
            station,
            next,
            ..
        } => write!(
            text,
            "hold {stamp} cable {cable} station {station} next {next}"
        ),
    }
}

/// Appends an entry as text, with its bytes.
fn put_entry<T: RouteTable>(
    text: &mut String,
    world: &World<T>,
    entry: &Entry,
) -> Result<(), AllocError> {
    put_words(text, entry)?;
    match number_of(entry) {
        Some(number) => {
            text.push(' ')?;
            put_line(text, world.bytes(number))
        }
        None => text.push('\n'),
    }
}

/// Appends the entries from an index on.
fn put_entries<T: RouteTable>(text: &mut String, world: &World<T>, from: usize) -> Answer {
    for entry in world.transcript().iter().skip(from) {
        put_entry(text, world, entry)?;
    }
    Ok(())
}

/// Appends the number of entries, and the numbers of takes and losses among them.
fn put_counts<T: RouteTable>(text: &mut String, world: &World<T>) -> Answer {
    let (mut taken, mut lost) = (0u32, 0u32);
    for entry in world.transcript() {
        match entry {
            Entry::Took { .. } => taken = taken.saturating_add(1),
            Entry::Lost { .. } => lost = lost.saturating_add(1),
            _ => {}
        }
    }
    let entries = world.transcript().len();
    writeln!(text, "{entries} entries, {taken} taken, {lost} lost")?;
    Ok(())
}

fn put_address(text: &mut String, name: &str, addr: Option<Addr>) -> Result<(), AllocError> {
    match addr {
        Some(addr) => write!(text, "{name} {addr}"),
        None => write!(text, "{name} none"),
    }
}

/// Appends the state of a node.
fn put_node(text: &mut String, node: Option<&EndNode>) -> Answer {
    match node {
        Some(node) => {
            put_address(text, "address", node.own())?;
            put_address(text, ", router", node.router())?;
            write!(text, ", zone ")?;
            put_text(text, node.zone().as_slice())?;
            let names = node.names().entries().len();
            writeln!(text, ", {names} names")?;
        }
        None => writeln!(text, "no such node")?,
    }
    Ok(())
}

/// Appends the datagrams that a node received.
fn put_received(text: &mut String, node: Option<&EndNode>) -> Answer {
    match node {
        Some(node) => put_datagrams(text, node.received()?.as_slice()),
        None => Ok(()),
    }
}

fn put_datagrams(text: &mut String, received: &[Datagram]) -> Answer {
    for datagram in received {
        let (source, from) = (datagram.source, datagram.source_socket);
        let (socket, kind) = (datagram.target_socket, datagram.kind);
        write!(text, "{source} {from} to {socket} type {kind} ")?;
        put_line(text, datagram.payload.as_slice())?;
    }
    Ok(())
}

fn put_refused<T: RouteTable>(text: &mut String, world: &World<T>) -> Answer {
    for (action, number) in world.refused() {
        writeln!(text, "action {action} refused {number}")?;
    }
    Ok(())
}

/// Appends the image of a world's tables, in the version whose number follows, if one does.
fn put_frozen<T: RouteTable>(
    alloc: Global,
    world: &World<T>,
    mut words: Words<'_>,
    text: &mut String,
) -> Answer {
    let image = if words.is_empty() {
        world.freeze()?
    } else {
        world.freeze_as(Version::of(words.number()?))?
    };
    put_line(text, write(alloc, &image)?.as_slice())?;
    Ok(())
}

/// Answers a question about a world.
fn answer<T: RouteTable>(
    alloc: Global,
    world: &World<T>,
    question: &str,
    mut words: Words<'_>,
    text: &mut String,
) -> Answer {
    match question {
        "entries" => put_entries(text, world, words.number()?),
        "counts" => put_counts(text, world),
        "node" => put_node(text, world.node(words.number()?)),
        "received" => put_received(text, world.node(words.number()?)),
        "refused" => put_refused(text, world),
        "frozen" => put_frozen(alloc, world, words, text),
        _ => Err(Stop::Unclear),
    }
}
