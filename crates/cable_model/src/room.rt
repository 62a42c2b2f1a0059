//! The room that calls need, and its allocation before anything changes.

ghost use Rattle.std.specs.Prelude.{◌≡◌, ◌≤◌, ◌<◌, ◌+◌, ◌*◌, ◌^◌, ◌↔◌, ◌⊎◌, List, length, vec_capacity, vec_len, [], IfErr, IsOkUnless, OnOk};
ghost use Rattle.cable_model.specs.declared.seat.Seat.{Seat as SeatValue};
ghost use Rattle.cable_model.specs.Books.{HasRoom, IsKept, IsSame};
ghost use Rattle.cable_model.specs.Rooms.{take_lines};

use crate::log::Log;
use at_base::Error;
use station::Outputs;

/// The most outputs that a station makes itself in one call.
const MADE: usize = 256;

/// The entries of a datagram that a station sends.
const SENT: usize = 3;

/// The entries of a datagram that a router passes on.
const PASSED: usize = 2;

/// The further entries of a datagram that may be held.
const HELD: usize = 2;

/// The room that one call needs at most.
#[derive(Clone, Copy, Debug, PartialEq, Eq)]
pub struct Room {
    /// Entries of the transcript.
    pub lines: usize,
    /// Bytes that entries name.
    pub bytes: usize,
    /// Pending pairs of a frame and a station, for each seat.
    pub pairs: usize,
}

impl Room {
    /// The room of a put.
    pub const PUT: Room = Room {
        lines: 1,
        bytes: 1,
        pairs: 1,
    };

    /// The room of a loss.
    pub const LOSS: Room = Room {
        lines: 1,
        bytes: 0,
        pairs: 0,
    };
}

/// The room of a take and of a send.
#[derive(Clone, Copy, Debug, PartialEq, Eq)]
pub struct Rooms {
    /// The room of a take.
    pub take: Room,
    /// The room of a send.
    pub send: Room,
}

impl Rooms {
    /// The rooms where the hardware address of every station is known: 771 entries a take, and 3 a
    /// send.
    pub const KNOWN: Rooms = Rooms {
        take: Room {
            lines: 1 + MADE * SENT + PASSED,
            bytes: MADE + 1,
            pairs: MADE + 1,
        },
        send: Room {
            lines: SENT,
            bytes: 1,
            pairs: 1,
        },
    };

    /// The rooms where datagrams may be held until a hardware address is known: 1,285 entries a
    /// take, and 5 a send.
    pub const HELD: Rooms = Rooms {
        take: Room {
            lines: 1 + MADE * (SENT + HELD) + PASSED + HELD,
            bytes: (MADE + 1) * 2,
            pairs: MADE + 1,
        },
        send: Room {
            lines: SENT + HELD,
            bytes: 2,
            pairs: 1,
        },
    };
}

/// Makes room in a log for cables with so many seats. The contents of the log don't change. Errors:
/// `Full` where the entries would exceed the limit; `Memory`.
pub fn make_room(log: &mut Log, limit: u32, room: Room, seats: usize) -> Result<(), Error>
    requires kept { (seats : List SeatValue) × IsKept seats limit log.old }
    requires fewer { room.bytes ≤ room.lines }
    requires few { room.lines ≤ take_lines 2 }
    ensures room { OnOk result
        (HasRoom log.new room.lines room.bytes room.bytes (room.pairs * seats)) }
    ensures holdings { OnOk result
        (length log.new.holdings.dues + room.pairs ≤ log.new.holdings.room) }
    ensures full { (result ≡ Err Error.Full) ↔ (limit < length log.old.lines.items + room.lines) }
    ensures refused { IfErr result (λ e. (e ≡ Error.Full) ⊎ (e ≡ Error.Memory)) }
    ensures within { OnOk result (vec_len log.new.lines + room.lines ≤ limit) }
    ensures same { IsSame log.old log.new }
{
    if (limit as usize) < log.lines.len() + room.lines {
        return Err(Error::Full);
    }
    log.lines.reserve(room.lines)?;
    log.kept.reserve(room.bytes)?;
    log.waiting.reserve(room.bytes)?;
    log.due.reserve(pairs_of(room.pairs, seats))?;
    log.holdings.reserve(room.pairs)?;
    Ok(())
}

/// Makes room for further entries, each of which may put a frame on cables with so many seats. The
/// contents of the log don't change. Errors: `Full` where the entries would exceed the limit;
/// `Memory`.
pub fn make_spare(log: &mut Log, limit: u32, more: u32, seats: usize) -> Result<(), Error>
    requires kept { (seats : List SeatValue) × IsKept seats limit log.old }
    ensures shelf { length log.new.kept.items ≤ log.new.kept.room }
    ensures lines { OnOk result (vec_len log.new.lines + more ≤ vec_capacity log.new.lines) }
    ensures due { OnOk result (length log.new.due.dues + more * seats ≤ log.new.due.room) }
    ensures within { OnOk result (vec_len log.new.lines + more ≤ limit) }
    ensures full { (result ≡ Err Error.Full) ↔ (limit < length log.old.lines.items + more) }
    ensures refused { IfErr result (λ e. (e ≡ Error.Full) ⊎ (e ≡ Error.Memory)) }
    ensures same { IsSame log.old log.new }
{
    // The number of bytes tells the prover that there is room for them.
    let _kept = log.kept.len();
    if (limit as usize) < log.lines.len() + more as usize {
        return Err(Error::Full);
    }
    log.lines.reserve(more as usize)?;
    log.due.reserve(pairs_of(more as usize, seats))?;
    Ok(())
}

/// The number of pairs of so many frames and seats, or `usize::MAX`, for which no allocation
/// succeeds.
fn pairs_of(frames: usize, seats: usize) -> usize
    ensures few { frames * seats < 2 ^ 63 → result ≡ frames * seats }
    ensures many { result < 2 ^ 63 → result ≡ frames * seats }
{
    match frames.checked_mul(seats) {
        None => usize::MAX,
        Some(pairs) => pairs,
    }
}

/// Removes all outputs.
fn empty(outputs: &mut Outputs)
    ensures { outputs.new.items ≡ [] }
{
    if let Some(_output) = outputs.pop() {
        empty(outputs);
    }
}

/// Empties the queue, and makes room for all outputs of one call of a station. Error: `Memory`.
pub fn make_ready(outputs: &mut Outputs) -> Result<(), Error>
    ensures ok { OnOk result (outputs.new.items ≡ []) }
    ensures refused { IsOkUnless result Error.Memory }
{
    empty(outputs);
    outputs.room(257)?;
    Ok(())
}
