//! What becomes of held datagrams: their frames go out, or they are given up.

ghost use Rattle.std.specs.Prelude.{◌≡◌, ◌⊎◌, ◌↔◌, ◌<◌, ◌≤◌, ◌+◌, [], ◌∷◌};
ghost use Rattle.std.specs.Prelude.{false, length, Contains};
ghost use Rattle.std.specs.Prelude.{IfErr, IsOkUnless, OnErr, OnOk};
ghost use Rattle.cable_model.specs.Holdings.{is_open, released_frame, still_held};
ghost use Rattle.cable_model.specs.Logs as logs_spec;
ghost use Rattle.cable_model.specs.Logs.{Adds};
ghost use Rattle.cable_model.specs.Transcript.{Holding, Lost, Put};

use crate::cables::Cables;
use crate::room::make_spare;
use crate::{ending, holding, putting};
use at_base::{Error, Hw};

impl Cables {
    /// Whether a datagram is held with this stamp. Allocates nothing.
    pub fn is_held(&self, stamp: u32) -> bool
        ensures { result ≡ is_open (logs_spec.transcript self.now) stamp }
    {
        holding::is_held(&self.log, stamp)
    }

    /// Makes room for further entries, for as many calls of `put_held` and `shed` together.
    ///
    /// Errors, in this order: `Full` where fewer entries are left; `Memory`. A refusal changes
    /// nothing.
    pub fn room(&mut self, more: u32) -> Result<(), Error>
        ensures ok { OnOk result (self.new ≡ record self.old { spare = more }) }
        ensures full { (result ≡ Err Error.Full) ↔ (self.old.limit < length self.old.lines + more) }
        ensures refused { IfErr result (λ e. (e ≡ Error.Full) ⊎ (e ≡ Error.Memory)) }
        ensures kept { OnErr result (self.new ≡ self.old) }
    {
        match make_spare(&mut self.log, self.limit, more, self.seats.widest()) {
            Ok(()) => {}
            Err(stop) => return Err(stop),
        }
        self.spare = more as usize;
        Ok(())
    }

    /// Puts the frame of the held datagram with this stamp on its cable, to this hardware address.
    /// The caller ensures that there is room for an entry. Allocates nothing.
    ///
    /// Error: `NotPending` where no datagram is held with the stamp; nothing changes then.
    pub fn put_held(&mut self, stamp: u32, to: Hw) -> Result<(), Error>
        requires { 1 ≤ self.old.spare }
        ensures ok { OnOk result ((h : Holding) × Contains (still_held (logs_spec.transcript self.old)) h × (h.stamp ≡ stamp)
            × Adds self.old self.new (Put (released_frame h to) ∷ [])) }
        ensures stored { OnOk result (self.new.kept ≡ self.old.kept) }
        ensures spare { OnOk result (self.new.spare + 1 ≡ self.old.spare) }
        ensures not_pending { (result ≡ Err Error.NotPending)
            ↔ (is_open (logs_spec.transcript self.old) stamp ≡ false) }
        ensures refused { IsOkUnless result Error.NotPending }
        ensures kept { OnErr result (self.new ≡ self.old) }
    {
        let Some(held) = holding::held_line(&self.log, stamp) else {
            return Err(Error::NotPending);
        };
        self.spare -= 1;
        putting::put_held(&mut self.log, &self.seats, held, to);
        Ok(())
    }

    /// Gives up the held datagram with this stamp. The caller ensures that there is room for an
    /// entry. Allocates nothing.
    ///
    /// Error: `NotPending` where no datagram is held with the stamp; nothing changes then.
    pub fn shed(&mut self, stamp: u32) -> Result<(), Error>
        requires { 1 ≤ self.old.spare }
        ensures ok { OnOk result (Adds self.old self.new (Lost stamp ∷ [])) }
        ensures stored { OnOk result (self.new.kept ≡ self.old.kept) }
        ensures spare { OnOk result (self.new.spare + 1 ≡ self.old.spare) }
        ensures not_pending { (result ≡ Err Error.NotPending)
            ↔ (is_open (logs_spec.transcript self.old) stamp ≡ false) }
        ensures refused { IsOkUnless result Error.NotPending }
        ensures kept { OnErr result (self.new ≡ self.old) }
    {
        if !holding::is_held(&self.log, stamp) {
            return Err(Error::NotPending);
        }
        self.spare -= 1;
        ending::lost(&mut self.log, stamp);
        Ok(())
    }
}
