//! A script that comes in pieces.

ghost use Rattle.std.specs.Prelude.{◌≡◌, ◌⊎◌, ℕ, List, [], ◌++◌, None, Some};
ghost use Rattle.std.specs.Prelude.{IfErr, IfOk, IsErrAnd, OnOk};
ghost use Rattle.std.specs.Result.{result_err};
ghost use Rattle.script.specs.Feeds.{GoesOn, HasLines, HasRead, IsOpen, IsRefused, next_number};
ghost use Rattle.script.specs.Scripts.{IsBadAt, IsScript};
ghost use Rattle.script.specs.Stops.{IsHopeless};
ghost use Rattle.script.specs.declared.step.Step.{Step as StepValue};

use crate::open_line::OpenLine;
use crate::reader::Reader;
use crate::step::Step;
use at_base::Error;
use std::alloc::Global;
use std::marker::Model;
use text::cut::cut;

/// A script of which the first pieces were fed. Each line is read as soon as it has ended; beside
/// the steps, only the line that hasn't ended is kept, and of a comment nothing.
#[derive(Debug, Drop)]
pub struct ScriptFeed {
    reader: Reader,
    open_line: OpenLine,
    refused: Option<Error>,
}

impl Model for ScriptFeed {
    ghost use Rattle.script.specs.Feeds.{Fed};

    ghost Value = { Fed };

    ghost view = { λ f. record {
      reader = f.reader;
      open_line = f.open_line;
      refused = f.refused;
    } };
}

/// Puts the bytes after the open line. Errors: `BadScript` with its number, if it is bad whatever
/// follows; `Memory`.
fn go_on(reader: &Reader, open_line: &mut OpenLine, bytes: &[u8]) -> Result<(), Error>
    ensures read { OnOk result ((line : List ℕ) → IsOpen open_line.old line
        → IsOpen open_line.new (line ++ bytes.now)) }
    ensures refused { IfErr result (λ e. (line : List ℕ) → IsOpen open_line.old line
        → (e ≡ Error.Memory) ⊎ ((e ≡ Error.BadScript (next_number reader.now))
        × IsHopeless (line ++ bytes.now))) }
{
    if open_line.extend(bytes)? {
        Ok(())
    } else {
        Err(Error::BadScript(reader.next_number()))
    }
}

/// Reads the lines that end in the piece, and keeps the one that doesn't.
fn read_piece(reader: &mut Reader, open_line: &mut OpenLine, piece: &[u8]) -> Result<(), Error>
    ensures read { OnOk result ((all : List ℕ) → GoesOn reader.old open_line.old all
        → GoesOn reader.new open_line.new (all ++ piece.now)) }
    ensures refused { IfErr result (λ e. (all : List ℕ) → GoesOn reader.old open_line.old all
        → IsRefused e (all ++ piece.now)) }
{
    let (first, more) = cut(b'\n', piece);
    let Some(rest) = more else {
        return go_on(reader, open_line, first);
    };
    open_line.end(reader, first)?;
    let last = reader.read_lines(rest)?;
    go_on(reader, open_line, last)
}

impl ScriptFeed {
    /// A script of which nothing was fed.
    pub fn new(alloc: Global) -> ScriptFeed
        ensures read { HasRead result [] }
        ensures open { result.refused ≡ None }
    {
        ScriptFeed {
            reader: Reader::new(alloc),
            open_line: OpenLine::new(alloc),
            refused: None,
        }
    }

    /// Reads the next piece. Errors: the refusal of an earlier piece; `BadScript` with the number
    /// of the first line that is bad whatever follows; `Memory`.
    ///
    /// A line that hasn't ended is bad where it isn't a comment and its first word can't become a
    /// command.
    pub fn feed(&mut self, piece: &[u8]) -> Result<(), Error>
        // If all that was fed were this text, it now is it and the piece.
        ensures read { (all : List ℕ) → HasRead self.old all → HasRead self.new (all ++ piece.now) }
        ensures told { self.new.refused ≡ result_err result }
        ensures again { (e : Error) → self.old.refused ≡ Some e → result ≡ Err e }
        ensures refused { IfErr result (λ e. (all : List ℕ) → HasRead self.old all
            → IsRefused e (all ++ piece.now)) }
    {
        if let Some(error) = self.refused {
            return Err(error);
        }
        match read_piece(&mut self.reader, &mut self.open_line, piece) {
            Ok(()) => Ok(()),
            Err(error) => {
                self.refused = Some(error);
                Err(error)
            }
        }
    }

    // The steps of the script that was fed.
    fn into_steps(self) -> Result<Vec<Step>, Error>
        ensures script { IfOk result (λ steps. (all : List ℕ) → HasRead self all
            → IsScript all steps.items) }
        ensures again { (e : Error) → self.refused ≡ Some e → result ≡ Err e }
        ensures refused { IfErr result (λ e. (all : List ℕ) → HasRead self all
            → ((n : ℕ) × (e ≡ Error.BadScript n) × IsBadAt all n) ⊎ (e ≡ Error.Memory)) }
    {
        if let Some(error) = self.refused {
            return Err(error);
        }
        let ScriptFeed {
            mut reader,
            open_line,
            ..
        } = self;
        open_line.finish(&mut reader)?;
        Ok(reader.into_steps())
    }

    /// The steps of the script that was fed. Errors: the refusal of a piece; else `BadScript` with
    /// the number of the last line, if that is bad; else `Memory`.
    pub fn finish(self) -> Result<Vec<Step>, Error>
        ensures script { IfOk result (λ steps. (all : List ℕ) → HasRead self all
            → IsScript all steps.items) }
        ensures again { (e : Error) → self.refused ≡ Some e → result ≡ Err e }
        ensures refused { IfErr result (λ e. (all : List ℕ) → HasRead self all
            → ((n : ℕ) × (e ≡ Error.BadScript n) × IsBadAt all n) ⊎ (e ≡ Error.Memory)) }
        ensures bad { (all : List ℕ) → HasRead self all → (n : ℕ) → IsBadAt all n
            → IsErrAnd result (λ e. (e ≡ Error.BadScript n) ⊎ (e ≡ Error.Memory)) }
        ensures good { (all : List ℕ) → HasRead self all → (steps : List StepValue)
            → IsScript all steps → IfErr result (λ e. e ≡ Error.Memory) }
    {
        self.into_steps()
    }
}
