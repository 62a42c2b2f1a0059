//! Frames that are lost because they were put on cables that lose frames.

ghost use Rattle.std.specs.Prelude.{◌≡◌, ◌⊎◌, ◌↔◌, ◌≤◌, ◌++◌, ◌∷◌, [], IfErr, IfNone, IfSome};
ghost use Rattle.std.specs.Prelude.{IsOk, IsTrue, List, OnErr, OnOk, drop, false, length, take, true};
ghost use Rattle.std.specs.List.{list_any};
ghost use Rattle.cable_model.specs.Outcomes.{has_stamp};
ghost use Rattle.cable_model.specs.declared.entry.Entry.{Entry as Line};
ghost use Rattle.live_cables.specs.Steps.{HasNoRoom, Loses, are_gone, line_losses, loses_by};
ghost use Rattle.live_cables.specs.Steps.{losses_since};
ghost use Rattle.cable_model.specs.Logs.{pending_on};

use at_base::Error;
use cable_model::{Cables, Entry};

/// Whether the cable loses the frames that are put on it.
fn loses(losing: &[bool], cable: u8) -> bool
    ensures { result ≡ loses_by losing.now cable }
{
    match losing.get(cable as usize) {
        Some(loses) => *loses,
        None => false,
    }
}

/// Whether any cable loses frames.
fn has_loss(losing: &[bool]) -> bool
    ensures { result ≡ list_any (λ loses. loses) losing.now }
{
    losing.iter().any(|loses| *loses)
}

/// The stamp of the frame that an entry put on a cable that loses frames. `None` for every other
/// entry.
fn lost_by(losing: &[bool], entry: &Entry) -> Option<u32>
    ensures some { IfSome result (λ stamp.
        line_losses (loses_by losing.now) (entry.now ∷ []) ≡ stamp ∷ []) }
    ensures none { IfNone result (line_losses (loses_by losing.now) (entry.now ∷ []) ≡ []) }
{
    if let Entry::Put { stamp, cable, .. } = entry {
        if loses(losing, *cable) {
            return Some(*stamp);
        }
    }
    None
}

/// The same of the entry at an index. `None` if there is no such entry.
fn lost_at(losing: &[bool], entries: &[Entry], index: usize) -> Option<u32>
    ensures some { IfSome result (λ stamp.
        line_losses (loses_by losing.now) (take 1 (drop index entries.now)) ≡ stamp ∷ []) }
    ensures none { IfNone result
        (line_losses (loses_by losing.now) (take 1 (drop index entries.now)) ≡ []) }
{
    match entries.get(index) {
        Some(entry) => lost_by(losing, entry),
        None => None,
    }
}

/// Loses a frame, unless it is pending for no station. Errors, in this order: `Full`, `Memory`.
fn lose(cables: &mut Cables, stamp: u32) -> Result<(), Error>
    ensures loses { Loses (stamp ∷ []) cables.old cables.new }
    ensures further { (more : List Line) × (cables.new.lines ≡ cables.old.lines ++ more) }
    ensures rooms { cables.new.rooms ≡ cables.old.rooms }
    ensures gone { OnOk result (IsTrue (are_gone (stamp ∷ []) cables.new)) }
    ensures due { OnErr result (are_gone (stamp ∷ []) cables.new ≡ false) }
    ensures full { (result ≡ Err Error.Full)
        ↔ ((list_any (has_stamp stamp) (pending_on cables.old) ≡ true)
        × HasNoRoom 1 cables.old) }
    ensures memory { result ≡ Err Error.Memory → HasNoRoom 1 cables.new → ⊥ }
    ensures kept { OnErr result (cables.new ≡ cables.old) }
    ensures refused { IfErr result (λ e. (e ≡ Error.Full) ⊎ (e ≡ Error.Memory)) }
{
    match cables.lose(stamp) {
        Ok(()) => Ok(()),
        Err(Error::NotPending) => Ok(()),
        Err(error) => Err(error),
    }
}

/// Loses the frame that the entry at an index put on a cable that loses frames, if it put one there
/// and the frame is pending. Errors, in this order: `Full`, `Memory`.
fn lose_at(cables: &mut Cables, losing: &[bool], index: usize) -> Result<(), Error>
    ensures loses { Loses (line_losses (loses_by losing.now) (take 1 (drop index cables.old.lines)))
        cables.old cables.new }
    ensures further { (more : List Line) × (cables.new.lines ≡ cables.old.lines ++ more) }
    ensures rooms { cables.new.rooms ≡ cables.old.rooms }
    ensures gone { OnOk result (IsTrue (are_gone
        (line_losses (loses_by losing.now) (take 1 (drop index cables.old.lines))) cables.new)) }
    ensures due { OnErr result (are_gone (line_losses (loses_by losing.now)
        (take 1 (drop index cables.old.lines))) cables.new ≡ false) }
    ensures full { (result ≡ Err Error.Full) → HasNoRoom 1 cables.new }
    ensures memory { result ≡ Err Error.Memory → HasNoRoom 1 cables.new → ⊥ }
    ensures refused { IfErr result (λ e. (e ≡ Error.Full) ⊎ (e ≡ Error.Memory)) }
{
    match lost_at(losing, cables.transcript(), index) {
        Some(stamp) => lose(cables, stamp),
        None => Ok(()),
    }
}

/// Loses those frames that the entries from index `from` up to `end` put on cables that lose frames
/// and that are pending. Errors, frame by frame: `Full`, `Memory`.
fn lose_between(cables: &mut Cables, losing: &[bool], from: usize, end: usize) -> Result<(), Error>
    requires { end ≤ length cables.old.lines }
    ensures loses { Loses (line_losses (loses_by losing.now) (drop from (take end cables.old.lines)))
        cables.old cables.new }
    ensures rooms { cables.new.rooms ≡ cables.old.rooms }
    ensures gone { OnOk result (IsTrue (are_gone
        (line_losses (loses_by losing.now) (drop from (take end cables.old.lines))) cables.new)) }
    ensures due { OnErr result (are_gone (line_losses (loses_by losing.now)
        (drop from (take end cables.old.lines))) cables.new ≡ false) }
    ensures full { (result ≡ Err Error.Full) → HasNoRoom 1 cables.new }
    ensures memory { result ≡ Err Error.Memory → HasNoRoom 1 cables.new → ⊥ }
    ensures refused { IfErr result (λ e. (e ≡ Error.Full) ⊎ (e ≡ Error.Memory)) }
{
    if from >= end {
        return Ok(());
    }
    match lose_at(cables, losing, from) {
        Ok(()) => {}
        Err(error) => return Err(error),
    }
    lose_between(cables, losing, from + 1, end)
}

/// Loses the frames that the entries from index `from` on put on cables that lose frames. Allocates
/// only room for the losses. Errors, frame by frame: `Full`, `Memory`.
pub fn lose_from(cables: &mut Cables, losing: &[bool], from: usize) -> Result<(), Error>
    ensures loses { Loses (losses_since losing.now from cables.old) cables.old cables.new }
    ensures rooms { cables.new.rooms ≡ cables.old.rooms }
    ensures still { list_any (λ loses. loses) losing.now ≡ false
        → IsOk result × (cables.new ≡ cables.old) }
    ensures gone { OnOk result
        (IsTrue (are_gone (losses_since losing.now from cables.old) cables.new)) }
    // After an error a frame that is to be lost is pending still.
    ensures due { OnErr result
        (are_gone (losses_since losing.now from cables.old) cables.new ≡ false) }
    ensures full { (result ≡ Err Error.Full) → HasNoRoom 1 cables.new }
    ensures memory { result ≡ Err Error.Memory → HasNoRoom 1 cables.new → ⊥ }
    ensures refused { IfErr result (λ e. (e ≡ Error.Full) ⊎ (e ≡ Error.Memory)) }
{
    if !has_loss(losing) {
        return Ok(());
    }
    let end = cables.transcript().len();
    lose_between(cables, losing, from, end)
}
