//! Reads the lines of a script, one after another.

ghost use Rattle.std.specs.Prelude.{◌≡◌, ℕ, List, [], ◌∷◌, ◌++◌, true, IfErr, IfOk, OnOk};
ghost use Rattle.script.specs.Feeds.{HasLines, next_number};
ghost use Rattle.script.specs.Lines as spec;
ghost use Rattle.script.specs.Stops.{ReadsTo, StopsAt, StopsIn};

use crate::line::{is_skipped, step};
use crate::step::Step;
use at_base::Error;
use std::alloc::Global;
use text::cut::cut;

/// The lines of a script that were read.
#[derive(Debug, Drop)]
pub(crate) struct Reader {
    steps: Vec<Step>,
    /// The number of lines, at most `u32::MAX`.
    lines: u32,
}

impl Reader {
    /// No line was read.
    pub(crate) fn new(alloc: Global) -> Reader
        ensures { HasLines result [] }
    {
        Reader {
            steps: Vec::new(alloc),
            lines: 0,
        }
    }

    /// The number of the next line.
    pub(crate) fn next_number(&self) -> u32
        ensures { result ≡ next_number self.now }
    {
        self.lines.saturating_add(1)
    }

    /// Counts a line that is skipped.
    pub(crate) fn skip_line(&mut self)
        ensures { (done : List (List ℕ)) → (line : List ℕ) → HasLines self.old done
            → spec.is_skipped line ≡ true → HasLines self.new (done ++ line ∷ []) }
    {
        self.lines = self.next_number();
    }

    /// Reads the next line. Errors: `BadScript` with its number, if it is bad; `Memory`, only for a
    /// step.
    pub(crate) fn read_line(&mut self, line: &[u8]) -> Result<(), Error>
        ensures read { OnOk result ((done : List (List ℕ)) → HasLines self.old done
            → HasLines self.new (done ++ line.now ∷ [])) }
        ensures stops { IfErr result (λ e. (done : List (List ℕ)) → HasLines self.old done
            → StopsAt done line.now e) }
    {
        if is_skipped(line) {
            self.skip_line();
            return Ok(());
        }
        let number = self.next_number();
        let alloc = *self.steps.allocator();
        let Some(step) = step(alloc, line)? else {
            return Err(Error::BadScript(number));
        };
        self.steps.push(step)?;
        self.lines = number;
        Ok(())
    }

    /// Reads the lines that end in the text, and returns the text after them: the begin of a line
    /// that may go on. Errors: those of `read_line`, for the first line that has one.
    pub(crate) fn read_lines<'a>(&mut self, text: &'a [u8]) -> Result<&'a [u8], Error>
        ensures read { IfOk result (λ last. (done : List (List ℕ)) → HasLines self.old done
            → ReadsTo self.new done text.now last.now) }
        ensures stops { IfErr result (λ e. (done : List (List ℕ)) → HasLines self.old done
            → StopsIn done text.now e) }
    {
        let mut left = text;
        loop {
            let (line, more) = cut(b'\n', left);
            let Some(rest) = more else {
                return Ok(line);
            };
            self.read_line(line)?;
            left = rest;
        }
    }

    /// The steps of the lines that were read.
    pub(crate) fn into_steps(self) -> Vec<Step>
        ensures { result ≡ self.steps }
    {
        self.steps
    }
}
