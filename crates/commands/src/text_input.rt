//! Texts of files in TOML, which are read as a whole.

ghost use Rattle.std.specs.Prelude.{◌≡◌, ◌⊎◌, ◌++◌, ⊤, false, IfErr, IfOk, OnErr, OnOk};
ghost use Rattle.std.specs.Io.KnownBytes.{Consumes, IsAtEnd};
ghost use Rattle.at_base.specs.declared.error.Error.TheVariants.{BadFile, Memory};
ghost use Rattle.at_base.specs.declared.error.Part.TheVariants as PartValue;
ghost use Rattle.commands.specs.Streams.{IsTextOf, IsUnread};
ghost use Rattle.file_entries.specs.Texts.{after_bytes, may_begin};
ghost use Rattle.file_entries.specs.declared.judge.Next.TheVariants.{Any};

use crate::reading::{Stop, Takes, read_into};
use crate::refused::Refused;
use at_base::{Error, Part};
use file_entries::{Faults, Judge, Refused as FileRefused, stays_false};
use std::alloc::{AllocError, Global};
use std::io::Read;

/// A text of which some pieces were read, and a judge of them.
#[derive(Drop)]
struct Text {
    bytes: Vec<u8>,
    judge: Judge,
}

impl Takes for Text {
    ghost took = { λ t all. (t.bytes.items ≡ all) × (t.judge.next ≡ after_bytes Any all) };

    ghost sound = { λ all. ⊤ };

    ghost refuses = { λ t all e. (e ≡ Memory) ⊎ ((e ≡ BadFile PartValue.Text 0)
        × (may_begin all ≡ false) × (t.bytes.items ≡ all)) };

    fn take(&mut self, piece: &[u8]) -> Result<(), Error> {
        append(&mut self.bytes, piece)?;
        if self.judge.take(piece) {
            Ok(())
        } else {
            Err(Error::BadFile(Part::Text, 0))
        }
    }
}

/// Appends the piece. The capacity grows by a quarter: a long input is then moved at most some 40
/// times and takes at most a quarter more memory than its length, while doubling would take up to
/// twice its length. Error: `AllocError`; the bytes then stay as they were.
pub fn append(bytes: &mut Vec<u8>, piece: &[u8]) -> Result<(), AllocError>
    ensures ok { OnOk result (bytes.new.items ≡ bytes.old.items ++ piece.now) }
    ensures stays { OnErr result (bytes.new.items ≡ bytes.old.items) }
{
    let len = bytes.len();
    if bytes.capacity() - len < piece.len() {
        bytes.reserve_exact(piece.len().max(len / 4))?;
    }
    bytes.extend_from_slice(piece)
}

/// Reads the rest of the input, in at most so many reads, as long as a text in TOML may begin with
/// it. Errors: `BadFile(Text, 0)`, `ReadFault`, `Memory`, piece by piece.
pub fn read_text<R: Read>(alloc: Global, input: &mut R, most: u32) -> Result<Vec<u8>, Refused>
    ensures text { IfOk result (λ v. IsTextOf (R.remaining input.old) v.items) }
    ensures read { IfOk result (λ v.
        Consumes (R.remaining input.old) (R.remaining input.new) v.items) }
    ensures end { OnOk result (IsAtEnd (R.remaining input.new)) }
    ensures refused { IfErr result
        (IsUnread most (R.remaining input.old) (R.remaining input.new)) }
{
    // Only the prover needs this call: what may not begin a text may not go on.
    stays_false();
    let mut text = Text {
        bytes: Vec::new(alloc),
        judge: Judge::new(),
    };
    match read_into(input, &mut text, most) {
        Ok(()) => Ok(text.bytes),
        Err(Stop::Unread(reason, reads)) => Err(Refused::unread(reason, reads)),
        Err(Stop::Refused(error)) => {
            let faults = Faults::new(alloc);
            Err(Refused::at_fault(FileRefused { error, faults }, text.bytes))
        }
    }
}
