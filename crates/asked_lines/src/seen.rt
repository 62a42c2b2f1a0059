//! What was told before, so that it is told once.

use at_base::{Addr, Error, Name, Range};
use nbp::TupleView;
use rtmp::Tuple;
use std::alloc::Global;

/// The greatest number of names, of zones and of ranges that are kept.
const MAX_KEPT: usize = 4_096;

/// Who has a name: no two names of a node have the same socket and enumerator.
#[derive(Clone, Copy, PartialEq, Eq)]
struct Owner {
    at: Addr,
    socket: u8,
    enumerator: u8,
}

/// A range that a router told of.
#[derive(Clone, Copy, PartialEq, Eq)]
struct Told {
    range: Range,
    distance: u8,
    from: Addr,
}

/// An echo that was asked for, and when.
#[derive(Clone, Copy)]
struct Sent {
    id: u16,
    time: u64,
}

/// What was told before, and when echoes were asked for.
#[derive(Drop)]
pub(crate) struct Seen {
    owners: Vec<Owner>,
    zones: Vec<Name>,
    ranges: Vec<Told>,
    sent: Vec<Sent>,
    more: u32,
}

impl Seen {
    /// Nothing was told. Allocates nothing.
    pub(crate) fn new(alloc: Global) -> Seen {
        Seen {
            owners: Vec::new(alloc),
            zones: Vec::new(alloc),
            ranges: Vec::new(alloc),
            sent: Vec::new(alloc),
            more: 0,
        }
    }

    /// How many answers had no room, and so weren't told.
    pub(crate) fn more(&self) -> u32 {
        self.more
    }

    /// Whether a name is told for the first time; it is kept, unless there is no room.
    pub(crate) fn is_new_name(&mut self, tuple: &TupleView<'_>) -> Result<bool, Error> {
        let owner = Owner {
            at: tuple.at(),
            socket: tuple.socket(),
            enumerator: tuple.enumerator(),
        };
        if self.owners.as_slice().contains(&owner) {
            return Ok(false);
        }
        if self.owners.len() >= MAX_KEPT {
            self.more = self.more.saturating_add(1);
            return Ok(false);
        }
        self.owners.push(owner)?;
        Ok(true)
    }

    /// Whether a zone is told for the first time; it is kept, unless there is no room.
    pub(crate) fn is_new_zone(&mut self, name: &Name) -> Result<bool, Error> {
        for zone in self.zones.as_slice() {
            if zone.same(name) {
                return Ok(false);
            }
        }
        if self.zones.len() >= MAX_KEPT {
            self.more = self.more.saturating_add(1);
            return Ok(false);
        }
        self.zones.push(*name)?;
        Ok(true)
    }

    /// Whether a router tells for the first time of a range at this distance; it is kept, unless there is
    /// no room.
    pub(crate) fn is_new_range(&mut self, tuple: &Tuple, from: Addr) -> Result<bool, Error> {
        let told = Told {
            range: tuple.range,
            distance: tuple.distance,
            from,
        };
        if self.ranges.as_slice().contains(&told) {
            return Ok(false);
        }
        if self.ranges.len() >= MAX_KEPT {
            self.more = self.more.saturating_add(1);
            return Ok(false);
        }
        self.ranges.push(told)?;
        Ok(true)
    }

    /// The index of the echo with an ID.
    fn index_of(&self, id: u16) -> Option<usize> {
        for index in 0..self.sent.len() {
            if self.sent[index].id == id {
                return Some(index);
            }
        }
        None
    }

    /// When the echo with an ID was asked for last; it isn't known any more from then on, so that an
    /// echo that comes twice is told once.
    pub(crate) fn take(&mut self, id: u16) -> Option<u64> {
        let index = self.index_of(id)?;
        if index < self.sent.len() {
            Some(self.sent.remove(index).time)
        } else {
            None
        }
    }

    /// An echo with this ID is asked for at a time.
    pub(crate) fn send(&mut self, id: u16, time: u64) -> Result<(), Error> {
        let _before = self.take(id);
        self.sent.push(Sent { id, time })?;
        Ok(())
    }
}
