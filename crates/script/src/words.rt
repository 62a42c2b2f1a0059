//! The words of a line, one at a time.

ghost use Rattle.std.specs.Prelude.{◌≡◌, ◌∷◌, [], ℕ, List, IfNone, IfSome};
ghost use Rattle.script.specs.Words as spec;

use std::marker::Model;
use text::cut::cut;

/// The words of a line that were not read yet. Contracts see them as a list.
#[derive(Debug, Drop)]
pub(crate) struct Words<'a> {
    /// The rest of the line; `None` after the last word was read.
    rest: Option<&'a [u8]>,
}

impl<'a> Model for Words<'a> {
    ghost use Rattle.std.specs.Prelude.{ℕ, List};
    ghost use Rattle.text.specs.Cuts.{parts_left};

    ghost Value = { List (List ℕ) };

    ghost view = { λ w. parts_left 32 w.rest };
}

impl<'a> Words<'a> {
    /// The words of a line: the parts between single spaces.
    pub(crate) fn of(line: &'a [u8]) -> Words<'a>
        ensures { result ≡ spec.words line.now }
    {
        Words { rest: Some(line) }
    }

    /// The next word.
    pub(crate) fn next(&mut self) -> Option<&'a [u8]>
        ensures some { IfSome result (λ word. self.old ≡ word.now ∷ self.new) }
        ensures none { IfNone result (self.old ≡ []) }
    {
        let (word, rest) = cut(b' ', self.rest?);
        self.rest = rest;
        Some(word)
    }

    /// `Some` if all words were read.
    pub(crate) fn end(&self) -> Option<()>
        ensures some { IfSome result (λ _. self.now ≡ []) }
        ensures none { IfNone result ((word : List ℕ) × (more : List (List ℕ))
            × (self.now ≡ word ∷ more)) }
    {
        match self.rest {
            Some(_) => None,
            None => Some(()),
        }
    }

    /// The remaining words as one text, with the spaces between them.
    pub(crate) fn text(self) -> Option<&'a [u8]>
        ensures some { IfSome result (λ text. spec.words text.now ≡ self.entry) }
        ensures none { IfNone result (self.entry ≡ []) }
    {
        self.rest
    }
}
