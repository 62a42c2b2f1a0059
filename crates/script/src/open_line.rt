//! The line of a script that hasn't ended.

ghost use Rattle.std.specs.Prelude.{◌≡◌, ◌⊎◌, ℕ, List, [], ◌∷◌, ◌++◌, IfErr, IfOk, OnOk};
ghost use Rattle.script.specs.Feeds.{HasLines, IsOpen};
ghost use Rattle.script.specs.Stops.{StopsAt, Extends};

use crate::line::{is_comment, may_tell};
use crate::reader::Reader;
use at_base::Error;
use std::alloc::{AllocError, Global};

/// A line that hasn't ended.
#[derive(Debug, Drop)]
pub(crate) struct OpenLine {
    /// Its bytes. None of a comment is kept, whose end alone counts.
    kept: Vec<u8>,
    comment: bool,
}

impl OpenLine {
    /// A line of which nothing is known.
    pub(crate) fn new(alloc: Global) -> OpenLine
        ensures { IsOpen result [] }
    {
        OpenLine {
            kept: Vec::new(alloc),
            comment: false,
        }
    }

    /// Puts the bytes after the line, and says whether it isn't bad yet.
    pub(crate) fn extend(&mut self, bytes: &[u8]) -> Result<bool, AllocError>
        ensures { IfOk result (λ good. (line : List ℕ) → IsOpen self.old line
            → Extends good self.new (line ++ bytes.now)) }
    {
        if self.comment {
            return Ok(true);
        }
        if self.kept.is_empty() && is_comment(bytes) {
            self.comment = true;
            return Ok(true);
        }
        self.kept.extend_from_slice(bytes)?;
        Ok(may_tell(self.kept.as_slice()))
    }

    /// Reads the line, of which these bytes are the end, and begins another. Errors: those of
    /// `Reader::read_line`; `Memory`.
    pub(crate) fn end(&mut self, reader: &mut Reader, bytes: &[u8]) -> Result<(), Error>
        ensures read { OnOk result ((line : List ℕ) → IsOpen self.old line
            → (done : List (List ℕ)) → HasLines reader.old done
            → HasLines reader.new (done ++ (line ++ bytes.now) ∷ [])) }
        ensures anew { OnOk result ((line : List ℕ) → IsOpen self.old line → IsOpen self.new []) }
        ensures stops { IfErr result (λ e. (line : List ℕ) → IsOpen self.old line
            → (done : List (List ℕ)) → HasLines reader.old done
            → (e ≡ Error.Memory) ⊎ StopsAt done (line ++ bytes.now) e) }
    {
        if self.comment {
            self.comment = false;
            reader.skip_line();
            return Ok(());
        }
        if self.kept.is_empty() {
            return reader.read_line(bytes);
        }
        self.kept.extend_from_slice(bytes)?;
        reader.read_line(self.kept.as_slice())?;
        self.kept.clear();
        Ok(())
    }

    /// Reads the last line, which has ended. Errors: those of `Reader::read_line`.
    pub(crate) fn finish(self, reader: &mut Reader) -> Result<(), Error>
        ensures read { OnOk result ((line : List ℕ) → IsOpen self line
            → (done : List (List ℕ)) → HasLines reader.old done
            → HasLines reader.new (done ++ line ∷ [])) }
        ensures stops { IfErr result (λ e. (line : List ℕ) → IsOpen self line
            → (done : List (List ℕ)) → HasLines reader.old done → StopsAt done line e) }
    {
        if self.comment {
            reader.skip_line();
            return Ok(());
        }
        reader.read_line(self.kept.as_slice())
    }
}
