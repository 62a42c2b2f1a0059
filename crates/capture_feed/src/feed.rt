//! A capture of which the first pieces were fed.

ghost use Rattle.std.specs.Prelude.{◌≡◌, ◌<◌, ◌≤◌, ◌+◌, ◌++◌, [], None, Some, IfErr, IfOk, IfSome, IsOkUnless, OnOk, length, ℕ};
ghost use Rattle.capture_feed.specs.Feeds.{HasPassed, IsFed, IsStep, answer};
ghost use Rattle.capture_feed.specs.Reads.{left_of};
ghost use Rattle.capture_feed.specs.Stages as spec;
ghost use Rattle.pcapng.specs.declared.fault.Fault.{Fault};

use crate::listener::Listen;
use crate::passing::{Passing, pass_over};
use crate::taking::{Taken, take};
use at_base::Error;
use pcapng::{Fault, Forms, MAX_BLOCK, Section};
use std::alloc::Global;
use std::marker::Model;

/// A capture of which the first pieces were fed. Beside its section's interfaces it keeps the bytes of
/// a block that isn't whole, fewer than 2,048.
#[derive(Drop)]
pub struct Feed {
    section: Section,
    passing: Option<Passing>,
    kept: Vec<u8>,
    blocks: u32,
    refused: Option<(u32, Fault)>,
}

impl Model for Feed {
    ghost use Rattle.std.specs.Prelude.{◌≡◌, ◌≤◌, None, vec_capacity};
    ghost use Rattle.capture_feed.specs.Feeds.{Fed, Keeps};
    ghost use Rattle.pcapng.specs.Heads.{max_block};

    ghost Value = { Fed };

    ghost view = { λ f. record {
      at = record { stage = record { section = f.section; passing = f.passing }; blocks = f.blocks };
      kept = f.kept.items;
      refused = f.refused;
    } };

    ghost invariant = { λ f. (max_block ≤ vec_capacity f.kept)
        × (f.refused ≡ None → Keeps f.passing f.section f.kept.items) };
}

/// One block more; numbers end at the greatest one.
fn counted(blocks: u32) -> u32
    ensures { result ≡ spec.counted blocks }
{
    blocks.saturating_add(1)
}

impl Feed {
    /// A capture of which nothing was fed: it has to have one of these forms. Error: `Memory`.
    pub fn new(alloc: Global, forms: Forms) -> Result<Feed, Error>
        ensures ok { IfOk result (λ f.
            f ≡ record { at = spec.start forms; kept = []; refused = None }) }
        ensures refused { IsOkUnless result Error.Memory }
    {
        Ok(Feed {
            section: Section::new(forms),
            passing: None,
            kept: Vec::with_capacity(alloc, MAX_BLOCK)?,
            blocks: 0,
            refused: None,
        })
    }

    /// Passes over what is left of a long block, if one was begun, as far as the piece goes, and
    /// returns what is left of the piece.
    fn pass<'a>(&mut self, piece: &'a [u8]) -> Result<Option<&'a [u8]>, (u32, Fault)>
        requires { self.old.refused ≡ None }
        ensures passed { HasPassed self.old.at (self.old.kept ++ piece.now) (left_of result)
            self.new.at self.new.kept }
        ensures open { OnOk result (self.new.refused ≡ None) }
        ensures told { IfErr result (λ e. self.new.refused ≡ Some e) }
        ensures fewer { IfOk result (λ o. IfSome o (λ rest.
            length self.new.kept + length rest.now ≤ length self.old.kept + length piece.now)) }
    {
        let Some(before) = self.passing else {
            return Ok(Some(piece));
        };
        match pass_over(before, &mut self.passing, &mut self.kept, piece) {
            Ok(rest) => Ok(rest),
            Err(fault) => {
                let refusal = (self.blocks, fault);
                self.refused = Some(refusal);
                Err(refusal)
            }
        }
    }

    /// Takes the next block, where nothing is passed over.
    fn take<'a, L: Listen>(
        &mut self,
        piece: &'a [u8],
        listener: &mut L,
    ) -> Result<Option<&'a [u8]>, (u32, Fault)>
        requires open { self.old.refused ≡ None }
        requires none { self.old.at.stage.passing ≡ None }
        ensures step { IsStep L.heard self.old.at (self.old.kept ++ piece.now) listener.old
            (left_of result) self.new.at self.new.kept listener.new }
        ensures open { OnOk result (self.new.refused ≡ None) }
        ensures told { IfErr result (λ e. self.new.refused ≡ Some e) }
        ensures less { IfOk result (λ o. IfSome o (λ rest.
            length rest.now < length self.old.kept + length piece.now)) }
    {
        match take(&mut self.section, &mut self.kept, piece, listener) {
            Ok(Some(Taken { passing, rest })) => {
                self.passing = passing;
                self.blocks = counted(self.blocks);
                Ok(Some(rest))
            }
            Ok(None) => Ok(None),
            Err(fault) => {
                let refusal = (counted(self.blocks), fault);
                self.refused = Some(refusal);
                Err(refusal)
            }
        }
    }

    /// Takes the next block, if all of it that is looked at is there, and returns what is left of the
    /// piece; else all of the piece is taken.
    fn step<'a, L: Listen>(
        &mut self,
        piece: &'a [u8],
        listener: &mut L,
    ) -> Result<Option<&'a [u8]>, (u32, Fault)>
        requires { self.old.refused ≡ None }
        ensures step { IsStep L.heard self.old.at (self.old.kept ++ piece.now) listener.old
            (left_of result) self.new.at self.new.kept listener.new }
        ensures open { OnOk result (self.new.refused ≡ None) }
        ensures told { IfErr result (λ e. self.new.refused ≡ Some e) }
        ensures less { IfOk result (λ o. IfSome o (λ rest.
            length rest.now < length self.old.kept + length piece.now)) }
    {
        match self.pass(piece) {
            Ok(Some(rest)) => self.take(rest, listener),
            Ok(None) => Ok(None),
            Err(refusal) => Err(refusal),
        }
    }

    /// Feeds the next piece, of any length: the listener hears each block of which all that is looked
    /// at is there.
    ///
    /// Error: `BadCapture` of a block that is refused, counted from 1; each later call gives it again.
    pub fn feed<L: Listen>(&mut self, piece: &[u8], listener: &mut L) -> Result<(), Error>
        ensures fed { self.old.refused ≡ None → IsFed L.heard self.old.at
            (self.old.kept ++ piece.now) listener.old self.new.refused self.new.at self.new.kept
            listener.new }
        ensures told { result ≡ answer self.new.refused }
        ensures again { (f : ℕ × Fault) → self.old.refused ≡ Some f
            → (self.new.refused ≡ Some f) × (listener.new ≡ listener.old) }
    {
        if let Some((block, _)) = self.refused {
            return Err(Error::BadCapture(block));
        }
        let mut rest = piece;
        loop {
            match self.step(rest, listener) {
                Ok(Some(after)) => rest = after,
                Ok(None) => return Ok(()),
                Err((block, _)) => return Err(Error::BadCapture(block)),
            }
        }
    }
}
