//! Rows of routing tables.

ghost use Rattle.std.specs.Prelude.{◌≡◌, ◌+◌};
ghost use Rattle.table_image.specs.Spelling.{row_spelling, state_of, state_number};

use crate::checking::CheckItem;
use crate::context::Context;
use crate::flaw::{Fault, Flaw};
use crate::input::{address_at, byte_within, index_at, rising_at, u16_at};
use crate::item::{FlatItem, Item, WriteItem};
use crate::limits::MAX_DISTANCE;
use crate::output::{put_address, put_byte, put_u16};
use crate::sizes::{BYTE_SIZE, RANGE_SIZE, ROW_SIZE};
use crate::version::Version;
use at_base::{Addr, Cause};
use rtmp::State;
use std::alloc::AllocError;

/// A row of a routing table: the route to the networks from `start` to `end`.
///
/// Inside AppleTalk, the chapter on RTMP.
#[derive(Clone, Copy, Debug, PartialEq, Eq)]
pub struct Row {
    /// The first network number of the range. The rows of a router rise strictly by it.
    pub start: u16,
    /// The last network number of the range.
    pub end: u16,
    /// The number of routers on the route, 0 to 31; 0 if a port is on the cable.
    pub distance: u8,
    /// The 0-based index, in the router's ports, of the port on which datagrams leave.
    pub port: u8,
    /// The address of the next router on that port's cable; 0.0 if there is none.
    pub next: Addr,
    /// How recently the row was confirmed.
    pub state: State,
}

impl Row {
    ghost use Rattle.table_image.specs.Rows as spec;

    /// Whether the row is direct: its range is that of the port's own cable.
    pub fn is_direct(&self) -> bool
        ensures { result ≡ spec.is_direct self.now }
    {
        self.next.is_none()
    }
}

fn made_state(number: u8) -> State
    ensures { result ≡ state_of number }
{
    match number {
        0 => State::Good,
        1 => State::Suspect,
        2 => State::Bad,
        _ => State::Last,
    }
}

fn number_of(state: State) -> u8
    ensures { result ≡ state_number state }
{
    match state {
        State::Good => 0,
        State::Suspect => 1,
        State::Bad => 2,
        State::Last => 3,
    }
}

impl Item for Row {
    ghost spelling = { λ context low. row_spelling context.ports low };

    ghost next = { λ r. r.start + 1 };

    fn next_low(&self) -> u32 {
        u32::from(self.start) + 1
    }

    #[tactic(auto, unfolding(crate::specs::Spelling::row_spelling))]
    fn written_alike() {}
}

impl FlatItem for Row {
    #[inline(always)]
    #[tactic(auto, unfolding(crate::specs::Spelling::row_spelling))]
    fn flat_at(context: Context, low: u32, bytes: &[u8]) -> Result<(Row, &[u8]), Fault> {
        let (start, rest) = rising_at(bytes, low)?;
        let (end, rest) = u16_at(rest)?;
        let (distance, rest) = byte_within(rest, 0, MAX_DISTANCE, Cause::Value)?;
        let (port, rest) = index_at(rest, context.ports)?;
        let (next, rest) = address_at(rest)?;
        let (number, rest) = byte_within(rest, 0, 3, Cause::Value)?;
        Ok((
            Row {
                start,
                end,
                distance,
                port,
                next,
                state: made_state(number),
            },
            rest,
        ))
    }
}

impl WriteItem for Row {
    #[tactic(auto, unfolding(crate::specs::Spelling::row_spelling))]
    fn write_one(&self, _version: Version, out: &mut Vec<u8>) -> Result<(), AllocError> {
        put_u16(out, self.start)?;
        put_u16(out, self.end)?;
        put_byte(out, self.distance)?;
        put_byte(out, self.port)?;
        put_address(out, self.next)?;
        put_byte(out, number_of(self.state))
    }
}

// The offsets of a row's distance and port from its first byte.
const DISTANCE_AT: usize = RANGE_SIZE;

const PORT_AT: usize = DISTANCE_AT + BYTE_SIZE;

impl CheckItem for Row {
    ghost use Rattle.std.specs.Prelude.{true};
    ghost use Rattle.table_image.specs.Sizes.{row_size};

    ghost short = { λ version row. true };

    ghost max_size = { row_size };

    fn check_one(&self, context: Context, low: u32, at: usize) -> Result<usize, Flaw> {
        // Read only for the prover: a field that is read is known to fit its type.
        let (_end, _net, _node) = (self.end, self.next.net, self.next.node);
        if u32::from(self.start) < low {
            return Err(Flaw {
                place: at,
                cause: Cause::Order,
            });
        }
        if self.distance > MAX_DISTANCE {
            return Err(Flaw {
                place: at + DISTANCE_AT,
                cause: Cause::Value,
            });
        }
        if self.port as usize >= context.ports {
            return Err(Flaw {
                place: at + PORT_AT,
                cause: Cause::Index,
            });
        }
        Ok(at + ROW_SIZE)
    }
}
