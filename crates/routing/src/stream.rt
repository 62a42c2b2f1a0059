//! A run of a station: a capture is read to its end, and another one is written.

ghost use Rattle.std.specs.Prelude.{◌≡◌, ◌⊎◌, ◌++◌, [], ℕ, Err, List, None, Option, IfErr, OnOk};
ghost use Rattle.std.specs.Io.KnownBytes.{Appends};
ghost use Rattle.routing.specs.Streams.{head_bytes};
ghost use Rattle.routing.specs.Run.{HasRun, IsStopped, IsThrough, Routed, Stands};

use crate::cable::Cable;
use crate::printing::print_head;
use crate::routing::Routing;
use crate::watch::Watch;
use at_base::Error;
use cabled::Cabled;
use capture_feed::{Block, Feed, Forms, Listen};
use std::alloc::Global;
use std::io::{ErrorKind, Read, Write};
use text::Output;

/// The bytes of one read.
const PIECE: usize = 8_192;

/// Room for all that ever waits in the output: less than 65,536 bytes, and one block more, which has
/// at most 1,548.
const ROOM: usize = 68_000;

/// A station over a capture, where it writes, and who watches it.
#[derive(Drop)]
pub struct Stream<C, W, S> {
    /// The station over the capture.
    pub routing: Routing<C>,
    /// Where it writes what it puts.
    pub output: Output<W>,
    /// Who watches it.
    pub watch: S,
    /// Why nothing can be written any more.
    pub failed: Option<Error>,
}

/// Why nothing can be written any more, as an error of a run.
fn lost(error: Error) -> Error
    ensures { (result ≡ Error.Memory) ⊎ (result ≡ Error.WriteFault) }
{
    match error {
        Error::Memory => Error::Memory,
        _ => Error::WriteFault,
    }
}

impl<C: Cabled, W: Write, S: Watch<C>> Listen for Stream<C, W, S> {
    ghost use Rattle.std.specs.Prelude.{◌≡◌, None};
    ghost use Rattle.routing.specs.Run.{Hears};

    // Unless writing failed, the station heard the block.
    ghost heard = { λ before t after. after.failed ≡ None
        → Hears C.acts before.failed before.routing t after.routing
        (W.contents before.output.writer) before.output.text.items
        (W.contents after.output.writer) after.output.text.items };

    fn hear(&mut self, block: &Block) {
        if self.failed.is_none() {
            let Stream {
                routing,
                output,
                watch,
                failed,
            } = self;
            *failed = routing.hear(output, watch, block).err();
        }
    }
}

impl<C: Cabled, W: Write, S: Watch<C>> Stream<C, W, S> {
    /// A station over a capture that writes there.
    pub fn new(routing: Routing<C>, output: Output<W>, watch: S) -> Stream<C, W, S>
        ensures { result ≡ record {
          routing = routing;
          output = output;
          watch = watch;
          failed = None;
        } }
    {
        Stream {
            routing,
            output,
            watch,
            failed: None,
        }
    }

    /// Writes what stands before the first packet, and flushes: the section header, and these cables,
    /// one for each port. All the room that the output ever needs is made here. Errors: `Memory`;
    /// `WriteFault`.
    pub fn begin(&mut self, cables: &[Cable]) -> Result<(), Error>
        ensures written { OnOk result (Appends (W.contents self.old.output.writer)
            (W.contents self.new.output.writer)
            (self.old.output.text.items ++ head_bytes cables.now)) }
        ensures empty { OnOk result (self.new.output.text.items ≡ []) }
        ensures same { self.new.routing ≡ self.old.routing }
        ensures open { self.new.failed ≡ self.old.failed }
        ensures refused { IfErr result (λ e. (e ≡ Error.Memory) ⊎ (e ≡ Error.WriteFault)) }
    {
        self.output.text.reserve(ROOM)?;
        print_head(&mut self.output, cables)?;
        self.output.flush()
    }

    /// Takes in a piece of the capture: what is due for its whole blocks is written and flushed, and
    /// nothing waits in the output then.
    ///
    /// Errors: `BadCapture` of a block that is refused, after what is due; `WriteFault`; `Memory`.
    pub fn take(&mut self, feed: &mut Feed, piece: &[u8]) -> Result<(), Error>
        ensures took { OnOk result ((m : Routed C) (w : Option (List ℕ)) (all : List ℕ)
            → Stands C.acts m w all self.old.failed self.old.output.text.items self.old.routing
            (W.contents self.old.output.writer) feed.old
            → Stands C.acts m w (all ++ piece.now) self.new.failed self.new.output.text.items
            self.new.routing (W.contents self.new.output.writer) feed.new) }
        ensures refused { IfErr result (λ e. (e ≡ Error.Memory) ⊎ (e ≡ Error.WriteFault)
            ⊎ ((m : Routed C) (w : Option (List ℕ)) (all : List ℕ)
            → Stands C.acts m w all self.old.failed self.old.output.text.items self.old.routing
            (W.contents self.old.output.writer) feed.old
            → IsStopped C.acts m w (all ++ piece.now) self.new.routing
            (W.contents self.new.output.writer) e)) }
    {
        let fed = feed.feed(piece, self);
        match self.failed {
            Some(error) => return Err(lost(error)),
            None => {}
        }
        self.output.flush()?;
        fed
    }

    /// Reads the input to its end, or until the station is done, and takes in each piece.
    #[tactic(auto, using(crate::proofs::Running::run_ended))]
    fn read_all<R: Read>(&mut self, feed: &mut Feed, input: &mut R) -> Result<(), Error>
        requires { Stands C.acts self.old.routing (W.contents self.old.output.writer) []
            self.old.failed self.old.output.text.items self.old.routing
            (W.contents self.old.output.writer) feed.old }
        ensures end { OnOk result (IsThrough (C.acts.is_done self.new.routing.station) (R.remaining input.new)) }
        ensures ran { (result ≡ Err Error.Memory) ⊎ (result ≡ Err Error.WriteFault)
            ⊎ HasRun C.acts (R.remaining input.old) (R.remaining input.new) self.old.routing
            (W.contents self.old.output.writer) (W.contents self.new.output.writer)
            self.new.routing result }
    {
        let mut buffer = [0; PIECE];
        for _turn in 0..u64::MAX {
            match input.read(buffer.as_mut_slice()) {
                Ok(count) => {
                    if count == 0 {
                        return Ok(());
                    }
                    match self.take(feed, &buffer[..count]) {
                        Ok(()) => {}
                        Err(error) => return Err(error),
                    }
                    if self.routing.station().is_done() {
                        return Ok(());
                    }
                }
                Err(error) => {
                    if error.kind() != ErrorKind::Interrupted {
                        return Err(Error::ReadFault);
                    }
                }
            }
        }
        Err(Error::ReadFault)
    }

    /// Runs over the capture that the input has, to its end or until the station is done: each block is
    /// heard, and what is due is written; after each read of at most 8,192 bytes all that is due for its
    /// whole blocks is written and flushed. A read that was interrupted is made again. The caller ensures that nothing failed
    /// before, and that nothing waits in the output.
    ///
    /// Errors: `BadCapture` with the number of the block that is refused, and `ReadFault`, both after
    /// all that is due is written; `WriteFault`; `Memory`.
    #[tactic(auto, using(crate::proofs::Running::stands_first))]
    pub fn run<R: Read>(&mut self, alloc: Global, input: &mut R) -> Result<(), Error>
        requires sound { self.old.failed ≡ None }
        requires empty { self.old.output.text.items ≡ [] }
        ensures end { OnOk result (IsThrough (C.acts.is_done self.new.routing.station) (R.remaining input.new)) }
        ensures ran { (result ≡ Err Error.Memory) ⊎ (result ≡ Err Error.WriteFault)
            ⊎ HasRun C.acts (R.remaining input.old) (R.remaining input.new) self.old.routing
            (W.contents self.old.output.writer) (W.contents self.new.output.writer)
            self.new.routing result }
    {
        let mut feed = Feed::new(alloc, Forms::Pcapng)?;
        self.read_all(&mut feed, input)
    }
}
