//! The trait of stations with ports on cables that they don't own.

ghost use Rattle.std.specs.Prelude.{◌≡◌, ◌++◌, IsOkUnless, OnErr, OnOk};
ghost use Rattle.cabled.specs.Acting.{Heard, Tick};
ghost use Rattle.ethertalk.specs.Frames.{framed};

use crate::puts::Puts;
use at_base::Error;
use ethertalk::Frame;
use port::Port;

/// A station with ports on cables that it doesn't own: what it does for each frame that it hears, and
/// in each tick.
///
/// This project's own.
pub trait Cabled: Drop {
    ghost use Rattle.cabled.specs.Acting.{Acting};

    // What it does.
    ghost acts: { Acting Self };

    /// Its ports, in order. Allocates nothing.
    fn own_ports(&self) -> &[Port]
        ensures { result.now ≡ acts.ports self.now };

    /// Whether it is done, so that nothing has to come any more. Allocates nothing.
    fn is_done(&self) -> bool
        ensures { result ≡ acts.is_done self.now };

    /// Hears a frame on the cable of the port with a number, and adds what it puts for that. Error:
    /// `Memory`; nothing changes then.
    fn receive(&mut self, port: u8, frame: &Frame<'_>, puts: &mut Puts) -> Result<(), Error>
        ensures put { OnOk result (puts.new.items
            ≡ puts.old.items ++ (acts.step self.old (Heard port (framed frame.now))).0) }
        ensures after { OnOk result (self.new ≡ (acts.step self.old (Heard port (framed frame.now))).1) }
        ensures refused { IsOkUnless result Error.Memory }
        ensures puts_stay { OnErr result (puts.new.items ≡ puts.old.items) }
        ensures station_stays { OnErr result (self.new ≡ self.old) };

    /// Advances it by one tick, a fifth of a second, and adds what it puts in it. Error: `Memory`;
    /// nothing changes then.
    fn advance(&mut self, puts: &mut Puts) -> Result<(), Error>
        ensures put { OnOk result (puts.new.items ≡ puts.old.items ++ (acts.step self.old Tick).0) }
        ensures after { OnOk result (self.new ≡ (acts.step self.old Tick).1) }
        ensures refused { IsOkUnless result Error.Memory }
        ensures puts_stay { OnErr result (puts.new.items ≡ puts.old.items) }
        ensures station_stays { OnErr result (self.new ≡ self.old) };
}
