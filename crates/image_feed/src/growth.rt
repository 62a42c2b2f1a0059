//! Lists of large parts: the count, and then each part as far as its bytes are there.

ghost use Rattle.std.specs.Prelude.{◌≡◌, [], ℕ, List, None, Some, suc, true};
ghost use Rattle.std.specs.Prelude.{IsOkUnless, IsSome, OnOk};
ghost use Rattle.std.specs.Option.{option_copied};
ghost use Rattle.image_feed.specs.declared.stop.Stop.TheVariants.{Memory};
ghost use Rattle.table_image.specs.declared.context.Context.{Context as ContextValue};
ghost use Rattle.image_feed.specs.Growing.{Advances, Wants, growth_on, like_of, none_left};

use crate::count::{after_next, is_none_left, read_count};
use crate::several::make_room;
use crate::stop::Stop;
use std::alloc::Global;
use table_image::Listed;
use table_image::parts::{Context, CountSize};

/// A part of which the first fields may have been read. A part that was read before, which this one
/// may be like, is given to each call.
pub(crate) trait Growing: Drop {
    ghost use Rattle.std.specs.Prelude.{◌≡◌, ℕ, Bool, List, Option, Ok, Result, true};
    ghost use Rattle.std.specs.Prelude.{IfOk, IsOkUnless, OnOk};
    ghost use Rattle.std.specs.Option.{option_copied};
    ghost use Rattle.at_base.specs.Grammar.{Grammar};
    ghost use Rattle.at_base.specs.Reading.{read};
    ghost use Rattle.table_image.specs.Flaws.{Wrong, faults};
    ghost use Rattle.table_image.specs.declared.context.Context.{Context as ContextValue};
    ghost use Rattle.table_image.specs.declared.flaw.Fault.{Fault as FaultValue};
    ghost use Rattle.image_feed.specs.declared.stop.Stop.TheVariants.{Memory};
    ghost use Rattle.image_feed.specs.Growing.{Advances, Wants};

    /// The part.
    type Whole: Drop;

    // The format of the part, given what it may refer to.
    ghost spelling: { ContextValue → Grammar Wrong true Self.Whole };

    // What reading gives of the bytes that follow those that were read.
    ghost goes_on: { ContextValue → Option Self.Whole → Self → List ℕ
        → Result (Self.Whole × List ℕ) FaultValue };

    // Whether all of it was read.
    ghost whole: { Self → Bool };

    /// Whether all of it was read.
    fn is_whole(&self) -> bool
        ensures { result ≡ whole self.now };

    /// Reads what the bytes have of it, and returns the bytes after that.
    fn advance<'a>(
        &mut self,
        alloc: Global,
        context: Context,
        like: Option<&Self::Whole>,
        bytes: &'a [u8],
    ) -> Result<&'a [u8], Stop>
        ensures { Advances (λ rest. rest.now) (goes_on context (option_copied like.entry) self.old)
            bytes.now (goes_on context (option_copied like.entry) self.new) (whole self.new) result };

    /// The bytes end within a name as long as they are fewer than this.
    fn wants(&self, bytes: &[u8]) -> usize
        ensures { (context : ContextValue) (like : Option Self.Whole)
            → Wants (goes_on context like self.now) bytes.now result };

    /// The part, after which the next one begins.
    fn take(&mut self, alloc: Global, like: Option<&Self::Whole>) -> Result<Self::Whole, Stop>
        requires { whole self.old ≡ true }
        ensures taken { IfOk result (λ part. (context : ContextValue) (bytes : List ℕ)
            → goes_on context (option_copied like.entry) self.old bytes ≡ Ok (part, bytes)) }
        ensures anew { OnOk result ((context : ContextValue) (like : Option Self.Whole)
            (bytes : List ℕ)
            → goes_on context like self.new bytes ≡ read faults (spelling context) bytes) }
        ensures refused { IsOkUnless result Memory };
}

/// A counted list of which the first parts were read, and the next one was begun.
#[derive(Drop)]
pub(crate) struct Growth<S: Growing> {
    /// The number of parts still to be read; none until the count was read.
    pub left: Option<u16>,
    /// The parts that were read.
    pub items: Vec<S::Whole>,
    /// The next part.
    pub next: S,
    /// A part that the first one may be like.
    pub hint: Option<S::Whole>,
}

/// The last part, or else the hint.
fn last_or<'a, T>(items: &'a [T], hint: &'a Option<T>) -> Option<&'a T>
    ensures { option_copied result ≡ like_of items.now hint.now }
{
    if items.len() > 0 {
        Some(&items[items.len() - 1])
    } else {
        hint.as_ref()
    }
}

impl<S: Growing> Growth<S> {
    /// A list of which nothing was read.
    pub(crate) fn new(alloc: Global, next: S) -> Growth<S>
        ensures left { result.left ≡ None }
        ensures items { result.items.items ≡ [] }
        ensures next { result.next ≡ next }
    {
        Growth {
            left: None,
            items: Vec::new(alloc),
            next,
            hint: None,
        }
    }

    /// Whether all of it was read.
    pub(crate) fn is_whole(&self) -> bool
        ensures { result ≡ none_left self.now.left }
    {
        is_none_left(self.left)
    }

    // Reads what the bytes have of the next part.
    fn advance_next<'a>(
        &mut self,
        alloc: Global,
        context: Context,
        bytes: &'a [u8],
    ) -> Result<&'a [u8], Stop>
        ensures next { Advances (λ rest. rest.now)
            (S.goes_on context (like_of self.old.items.items self.old.hint) self.old.next) bytes.now
            (S.goes_on context (like_of self.new.items.items self.new.hint) self.new.next)
            (S.whole self.new.next) result }
        ensures others { (self.new.left ≡ self.old.left) × (self.new.items ≡ self.old.items)
            × (self.new.hint ≡ self.old.hint) }
    {
        let like = last_or(self.items.as_slice(), &self.hint);
        self.next.advance(alloc, context, like, bytes)
    }

    // Ends the next part, all of which was read, where so many come after it.
    fn end(&mut self, alloc: Global, after: u16) -> Result<(), Stop>
        requires left { self.old.left ≡ Some (suc after) }
        requires whole { S.whole self.old.next ≡ true }
        ensures ended { OnOk result ((limit : ℕ) (context : ContextValue) (bytes : List ℕ)
            → growth_on limit (S.spelling context) (S.goes_on context) self.old.left
            self.old.items.items self.old.hint self.old.next bytes
            ≡ growth_on limit (S.spelling context) (S.goes_on context) self.new.left
            self.new.items.items self.new.hint self.new.next bytes) }
        ensures left { OnOk result (self.new.left ≡ Some after) }
        ensures refused { IsOkUnless result Memory }
    {
        let like = last_or(self.items.as_slice(), &self.hint);
        let part = self.next.take(alloc, like)?;
        self.items.push(part)?;
        self.left = Some(after);
        Ok(())
    }

    // Reads the parts of which the bytes are there.
    fn advance_parts<'a>(
        &mut self,
        alloc: Global,
        context: Context,
        limit: usize,
        bytes: &'a [u8],
    ) -> Result<&'a [u8], Stop>
        requires { IsSome self.old.left }
        ensures { Advances (λ rest. rest.now)
            (growth_on limit (S.spelling context) (S.goes_on context) self.old.left
            self.old.items.items self.old.hint self.old.next) bytes.now
            (growth_on limit (S.spelling context) (S.goes_on context) self.new.left
            self.new.items.items self.new.hint self.new.next) (none_left self.new.left) result }
    {
        let mut rest = bytes;
        while let Some(after) = after_next(self.left) {
            rest = self.advance_next(alloc, context, rest)?;
            if !self.next.is_whole() {
                return Ok(rest);
            }
            self.end(alloc, after)?;
        }
        Ok(rest)
    }

    /// Reads the count, if it wasn't read, and the parts of which the bytes are there. Returns the
    /// bytes after them.
    pub(crate) fn advance<'a>(
        &mut self,
        alloc: Global,
        context: Context,
        limit: usize,
        bytes: &'a [u8],
    ) -> Result<&'a [u8], Stop>
        ensures { Advances (λ rest. rest.now)
            (growth_on limit (S.spelling context) (S.goes_on context) self.old.left
            self.old.items.items self.old.hint self.old.next) bytes.now
            (growth_on limit (S.spelling context) (S.goes_on context) self.new.left
            self.new.items.items self.new.hint self.new.next) (none_left self.new.left) result }
    {
        let rest = read_count(&mut self.left, CountSize::One, limit, bytes)?;
        let Some(left) = self.left else {
            return Ok(rest);
        };
        make_room(&mut self.items, left)?;
        self.advance_parts(alloc, context, limit, rest)
    }

    /// The bytes end within a name as long as they are fewer than this.
    pub(crate) fn wants(&self, bytes: &[u8]) -> usize
        ensures { (limit : ℕ) (context : ContextValue)
            → Wants (growth_on limit (S.spelling context) (S.goes_on context) self.now.left
            self.now.items.items self.now.hint self.now.next) bytes.now result }
    {
        match after_next(self.left) {
            Some(_) => self.next.wants(bytes),
            None => 0,
        }
    }

    /// The list.
    pub(crate) fn into_listed(self) -> Listed<S::Whole>
        ensures { result ≡ self.items.items }
    {
        let Growth { items, .. } = self;
        Listed::from_vec(items)
    }
}
