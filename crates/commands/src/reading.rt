//! Reads an input to its end, in a bounded number of reads.

ghost use Rattle.std.specs.Prelude.{◌≡◌, ◌⊎◌, ◌++◌, ◌≤◌, [], List, ℕ, Option, length, IfErr, IsSome, OnOk};
ghost use Rattle.std.specs.Io.KnownBytes.{Consumes, IsAtEnd};
ghost use Rattle.at_base.specs.declared.error.Error.{Error as ErrorValue};
ghost use Rattle.std.specs.declared.io.ErrorKind.{ErrorKind as KindValue};

use at_base::Error;
use image_feed::MAX_PIECE;
use std::io::{ErrorKind, Read};

/// The greatest number of reads of one input. An input of short reads that never ends is given up
/// after them.
pub const READS: u32 = 16_777_216;

/// Takes in an input, piece by piece.
pub(crate) trait Takes {
    // It has taken in these bytes, and refused none.
    ghost took: { Self → List ℕ → Type 0 };

    // Nothing is wrong with the bytes, as far as they go.
    ghost sound: { List ℕ → Type 0 };

    // Bytes that begin so are refused with this error, which leaves it so.
    ghost refuses: { Self → List ℕ → ErrorValue → Type 0 };

    /// Takes in the next piece.
    fn take(&mut self, piece: &[u8]) -> Result<(), Error>
        ensures took { OnOk result ((all : List ℕ) → took self.old all
            → took self.new (all ++ piece.now)) }
        ensures sound { OnOk result ((all : List ℕ) → took self.old all
            → sound (all ++ piece.now)) }
        ensures refused { IfErr result (λ e. (all : List ℕ) → took self.old all
            → refuses self.new (all ++ piece.now) e) };
}

/// Why an input wasn't read to its end.
pub(crate) enum Stop {
    /// A read failed, for this reason; without one, the input didn't end. The number of reads.
    Unread(Option<ErrorKind>, u32),
    /// What was read is refused.
    Refused(Error),
}

/// Reads the input to its end, in at most so many reads, and lets each piece be taken in. A read
/// that was interrupted is made again.
pub(crate) fn read_into<R: Read, T: Takes>(
    input: &mut R,
    taker: &mut T,
    most: u32,
) -> Result<(), Stop>
    requires fresh { T.took taker.old [] }
    requires begun { T.sound [] }
    ensures end { OnOk result (IsAtEnd (R.remaining input.new)) }
    ensures took { OnOk result ((all : List ℕ) × T.took taker.new all × T.sound all
        × Consumes (R.remaining input.old) (R.remaining input.new) all) }
    ensures refused { IfErr result (λ stop. (e : ErrorValue) → stop ≡ Stop.Refused e
        → (all : List ℕ) × T.refuses taker.new all e
        × Consumes (R.remaining input.old) (R.remaining input.new) all) }
    ensures unread { IfErr result (λ stop. (why : Option KindValue) (reads : ℕ)
        → stop ≡ Stop.Unread why reads → (IsSome why ⊎ (reads ≡ most)) × (reads ≤ most)
        × ((all : List ℕ) × T.sound all
        × Consumes (R.remaining input.old) (R.remaining input.new) all)) }
    // Nothing is read after the piece that is refused.
    ensures no_more { (all piece : List ℕ) × T.sound all × (length piece ≤ MAX_PIECE)
        × Consumes (R.remaining input.old) (R.remaining input.new) (all ++ piece) }
{
    let mut buffer = [0; MAX_PIECE];
    for turn in 0..most {
        match input.read(buffer.as_mut_slice()) {
            Ok(count) => {
                if count == 0 {
                    return Ok(());
                }
                if let Err(error) = taker.take(&buffer[..count]) {
                    return Err(Stop::Refused(error));
                }
            }
            Err(e) => {
                if e.kind() != ErrorKind::Interrupted {
                    return Err(Stop::Unread(Some(e.kind()), turn + 1));
                }
            }
        }
    }
    Err(Stop::Unread(None, most))
}
