//! The transcript of cables as it is stored.

ghost use Rattle.std.specs.Prelude.{◌≡◌, ◌<◌, [], ◌∷◌, ◌++◌, List, ℕ, ◌+◌, length, vec_len};
ghost use Rattle.cable_model.specs.declared.seat.Seat.{Seat as SeatValue};
ghost use Rattle.cable_model.specs.Books.{Grows, HasOneSeat, HasRoom, IsBook, IsKept, IsQuiet, Names, Uses};
ghost use Rattle.cable_model.specs.Logs.{bytes_at, entry_at};
ghost use Rattle.cable_model.specs.Outcomes.{held_at};

use crate::entry::Entry;
use crate::kept::Kept;
use crate::pendings::Pendings;
use crate::waiting::Waiting;
use at_base::Bytes;
use std::alloc::Global;

/// The entries, the bytes that they name, and what is pending or held.
#[derive(Drop)]
pub struct Log {
    /// The entries, in order.
    pub lines: Vec<Entry>,
    /// The bytes that entries and waiting datagrams name, by their numbers.
    pub kept: Kept,
    /// The pending pairs of a frame and a seat.
    pub due: Pendings,
    /// The held datagrams, by the indices of their entries.
    pub holdings: Pendings,
    /// The stamp of the next frame or held datagram.
    pub next_stamp: u32,
    /// The datagram of the output that goes out which is to be held, if there is one.
    pub waiting: Vec<Waiting>,
}

/// An empty log.
pub fn empty(alloc: Global) -> Log
    ensures empty { (result.lines.items ≡ []) × (result.kept.items ≡ []) × (result.waiting.items ≡ []) }
    ensures kept { (seats : List SeatValue) (limit : ℕ) → HasOneSeat seats
        → IsKept seats limit result }
{
    Log {
        lines: Vec::new(alloc),
        kept: Kept::new(alloc),
        due: Pendings::new(alloc),
        holdings: Pendings::new(alloc),
        next_stamp: 0,
        waiting: Vec::new(alloc),
    }
}

/// Stores bytes, and returns their number.
pub fn keep(log: &mut Log, bytes: Bytes) -> u32
    requires room { HasRoom log.old 0 1 0 0 }
    ensures grows { (seats : List SeatValue) → IsBook seats log.old → Grows log.old log.new [] [] }
    ensures book { (seats : List SeatValue) → IsBook seats log.old → IsBook seats log.new }
    ensures within { result < length log.new.kept.items }
    ensures bytes { bytes_at log.new.kept.items result ≡ bytes }
    ensures stored { log.new.kept.items ≡ log.old.kept.items ++ bytes ∷ [] }
    ensures next_stamp { log.new.next_stamp ≡ log.old.next_stamp }
    ensures waiting { log.new.waiting ≡ log.old.waiting }
    ensures lines { log.new.lines ≡ log.old.lines }
    ensures one { length log.new.kept.items ≡ length log.old.kept.items + 1 }
    ensures uses { Uses log.old log.new 0 1 0 0 }
{
    let number = log.kept.len() as u32;
    log.kept.push(bytes);
    number
}

/// Adds an entry that neither puts a frame nor ends a pair, and holds nothing.
pub fn note(log: &mut Log, line: Entry)
    requires room { HasRoom log.old 1 0 0 0 }
    requires names { Names (length log.old.kept.items) line }
    requires quiet { IsQuiet line }
    ensures grows { Grows log.old log.new (entry_at log.old.kept.items line ∷ []) [] }
    ensures book { (seats : List SeatValue) → IsBook seats log.old → IsBook seats log.new }
    ensures kept { log.new.kept ≡ log.old.kept }
    ensures next_stamp { log.new.next_stamp ≡ log.old.next_stamp }
    ensures waiting { log.new.waiting ≡ log.old.waiting }
    ensures one { vec_len log.new.lines ≡ vec_len log.old.lines + 1 }
    ensures uses { Uses log.old log.new 1 0 0 0 }
{
    log.lines.push_reserved(line);
}

/// Adds a datagram that is to be held.
pub fn wait(log: &mut Log, waiting: Waiting)
    requires room { HasRoom log.old 0 0 1 0 }
    requires names { waiting.bytes < length log.old.kept.items }
    ensures grows { Grows log.old log.new [] (held_at log.old.kept.items waiting ∷ []) }
    ensures book { (seats : List SeatValue) → IsBook seats log.old → IsBook seats log.new }
    ensures kept { log.new.kept ≡ log.old.kept }
    ensures next_stamp { log.new.next_stamp ≡ log.old.next_stamp }
    ensures lines { log.new.lines ≡ log.old.lines }
    ensures uses { Uses log.old log.new 0 0 1 0 }
{
    log.waiting.push_reserved(waiting);
}
