//! An image that comes in pieces.

ghost use Rattle.std.specs.Prelude.{◌≡◌, ◌+◌, ◌^◌, ◌<◌, ◌++◌, ◌⊎◌, ℕ, List, [], None, Ok, Some, length};
ghost use Rattle.std.specs.Prelude.{IfErr, IfOk, IsOk, IsOkAnd, OnOk};
ghost use Rattle.std.specs.Result.{result_err};
ghost use Rattle.at_base.specs.Spelling.{IsValue, Spells};
ghost use Rattle.table_image.specs.Flaws.{flaw_after};
ghost use Rattle.table_image.specs.Internet.{Internet};
ghost use Rattle.table_image.specs.Reading.{IsFirstFlaw, refusal, RefusesFirst};
ghost use Rattle.table_image.specs.Spelling.{image_spelling};
ghost use Rattle.table_image.specs.declared.flaw.Fault.{Fault as FaultValue};
ghost use Rattle.table_image.specs.declared.flaw.Flaw.{Flaw};
ghost use Rattle.image_feed.specs.declared.stop.Stop.TheVariants.{Memory as MemoryStop, Refused};
ghost use Rattle.image_feed.specs.Feeds.{HasRead, Waits, cut_at};
ghost use Rattle.image_feed.specs.Growing.{Leads, StopsAt, Wants};
ghost use Rattle.image_feed.specs.Tables.{parts_internet, tables_on};

use crate::stop::Stop;
use crate::tables::{TableParts, Tables};
use at_base::{Cause, Error};
use std::alloc::{AllocError, Global};
use std::marker::Model;
use table_image::Image;
use table_image::parts::Fault;

/// The greatest number of bytes that a reader's image is fed at once.
pub const MAX_PIECE: usize = 8_192;

/// An image of which the first pieces were fed. Each part is read as soon as its bytes are there;
/// beside what was read, only the bytes of a field that isn't whole are kept.
#[derive(Drop)]
pub struct Feed {
    tables: Tables,
    // The bytes that follow what was read.
    kept: Vec<u8>,
    // Room for them.
    spare: Vec<u8>,
    // They end within a name as long as they are fewer than this.
    wanted: usize,
    // The number of bytes that were fed.
    fed: usize,
    refused: Option<Error>,
    // The byte at which they have their flaw.
    flawed: Option<u8>,
}

impl Model for Feed {
    ghost use Rattle.std.specs.Prelude.{ℕ, List};
    ghost use Rattle.image_feed.specs.Feeds.{Fed, HasRead};
    ghost use Rattle.image_feed.specs.Growing.{Wants};
    ghost use Rattle.image_feed.specs.Tables.{tables_on};

    ghost Value = { Fed };

    ghost view = { λ f. record {
      tables = f.tables;
      kept = f.kept.items;
      fed = f.fed;
      refused = f.refused;
    } };

    ghost invariant = { λ f. ((all : List ℕ) × HasRead (record {
      tables = f.tables;
      kept = f.kept.items;
      fed = f.fed;
      refused = f.refused;
    }) all) × Wants (tables_on f.tables) f.kept.items f.wanted };
}

/// Puts a piece after the bytes.
fn append(bytes: &mut Vec<u8>, piece: &[u8]) -> Result<(), AllocError>
    ensures { OnOk result (bytes.new.items ≡ bytes.old.items ++ piece.now) }
{
    match piece {
        [byte] => Ok(bytes.push(*byte)?),
        _ => bytes.extend_from_slice(piece),
    }
}

/// Reads what the bytes have, and puts the rest into the room.
fn read_bytes(tables: &mut Tables, bytes: &[u8], room: &mut Vec<u8>) -> Result<(), Stop>
    ensures leads { OnOk result (Leads (tables_on tables.old) bytes.now
        (tables_on tables.new) room.new.items) }
    ensures waits { OnOk result (Waits tables.new room.new.items) }
    ensures stops { IfErr result (StopsAt (tables_on tables.old) bytes.now) }
{
    let alloc = *room.allocator();
    let rest = match tables.advance(alloc, bytes) {
        Ok(rest) => rest,
        Err(stop) => return Err(stop),
    };
    room.clear();
    append(room, rest)?;
    Ok(())
}

/// Reads what the bytes that were kept and the piece have, and keeps the rest. Where none were kept,
/// the piece is read in place. While a name isn't whole, there is nothing to read.
fn read_piece(
    tables: &mut Tables,
    kept: &mut Vec<u8>,
    spare: &mut Vec<u8>,
    wanted: &mut usize,
    piece: &[u8],
) -> Result<(), Stop>
    requires { Wants (tables_on tables.old) kept.old.items wanted.old }
    ensures wants { Wants (tables_on tables.new) kept.new.items wanted.new }
    ensures leads { OnOk result (Leads (tables_on tables.old) (kept.old.items ++ piece.now)
        (tables_on tables.new) kept.new.items) }
    ensures waits { OnOk result (Waits tables.new kept.new.items) }
    ensures stops { IfErr result
        (StopsAt (tables_on tables.old) (kept.old.items ++ piece.now)) }
{
    let before = std::mem::replace(wanted, 0);
    if kept.is_empty() {
        read_bytes(tables, piece, kept)?;
    } else {
        append(kept, piece)?;
        if kept.len() < before {
            *wanted = before;
            return Ok(());
        }
        read_bytes(tables, kept.as_slice(), spare)?;
        std::mem::swap(kept, spare);
    }
    *wanted = tables.wants(kept.as_slice());
    Ok(())
}

/// The refusal of a fault after so many bytes. An image's limits keep the offset of a flaw below
/// 2 ^ 32.
pub(crate) fn refused_at(fed: usize, fault: Fault) -> Error
    ensures { fed < fault.left + 2 ^ 32 → result ≡ refusal (flaw_after fed fault) }
{
    let place = fed.saturating_sub(fault.left);
    Error::BadImage(u32::try_from(place).unwrap_or(u32::MAX), fault.cause)
}

/// The image of these parts.
fn image_of(parts: TableParts) -> Image
    requires { IsValue image_spelling (parts_internet parts) }
    ensures { result ≡ parts_internet parts }
{
    Image::of(parts.version, parts.cables, parts.routers, parts.nodes)
}

/// The refusal of so many bytes that end too early.
fn cut_after(fed: usize) -> Error
    ensures { fed < 2 ^ 32 → result ≡ refusal (cut_at fed) }
{
    Error::BadImage(u32::try_from(fed).unwrap_or(u32::MAX), Cause::Cut)
}

/// The number of bytes that were fed, with the piece.
fn fed_with(fed: usize, piece: &[u8]) -> usize
    ensures { fed < 2 ^ 62 → result ≡ fed + length piece.now }
{
    let count = piece.len();
    fed.saturating_add(count)
}

/// The error of a reader that stopped after so many bytes.
fn error_of(fed: usize, stop: Stop) -> Error
    ensures memory { stop ≡ MemoryStop → result ≡ Error.Memory }
    ensures refused { (f : FaultValue) → stop ≡ Refused f → fed < f.left + 2 ^ 32
        → result ≡ refusal (flaw_after fed f) }
{
    match stop {
        Stop::Memory => Error::Memory,
        Stop::Refused(fault) => refused_at(fed, fault),
    }
}

/// The byte at which a reader of the bytes that were kept stopped, or of the piece, where none were.
fn flawed_in(kept: &[u8], piece: &[u8], stop: Stop) -> Option<u8> {
    let bytes = if kept.is_empty() { piece } else { kept };
    match stop {
        Stop::Memory => None,
        Stop::Refused(fault) => bytes.get(bytes.len().checked_sub(fault.left)?).copied(),
    }
}

impl Feed {
    /// An image of which nothing was fed. Error: `Memory`, which a new feed never needs.
    pub fn new(alloc: Global) -> Result<Feed, Error>
        ensures ok { IfOk result (λ feed. HasRead feed []) }
        ensures open { IfOk result (λ feed. feed.refused ≡ None) }
        ensures made { IsOk result }
    {
        Ok(Feed {
            tables: Tables::new(alloc),
            kept: Vec::new(alloc),
            spare: Vec::new(alloc),
            wanted: 0,
            fed: 0,
            refused: None,
            flawed: None,
        })
    }

    /// Reads the next piece. Errors: the refusal of an earlier piece; `BadImage`, if the bytes that
    /// were fed have a flaw other than that they end too early, whatever follows them; `Memory`.
    pub fn feed(&mut self, piece: &[u8]) -> Result<(), Error>
        // If all that was fed were these bytes, it now are they and the piece.
        ensures read { (all : List ℕ) → HasRead self.old all → HasRead self.new (all ++ piece.now) }
        ensures told { self.new.refused ≡ result_err result }
        ensures again { (e : Error) → self.old.refused ≡ Some e → result ≡ Err e }
        ensures waits { OnOk result ((all : List ℕ) → HasRead self.old all → (f : Flaw)
            → IsFirstFlaw (all ++ piece.now) f → f ≡ cut_at (length (all ++ piece.now))) }
        ensures first { IfErr result (λ e. self.old.refused ≡ None → (all : List ℕ)
            → HasRead self.old all → (e ≡ Error.Memory) ⊎ RefusesFirst (all ++ piece.now) e) }
    {
        if let Some(error) = self.refused {
            return Err(error);
        }
        self.fed = fed_with(self.fed, piece);
        match read_piece(
            &mut self.tables,
            &mut self.kept,
            &mut self.spare,
            &mut self.wanted,
            piece,
        ) {
            Ok(()) => Ok(()),
            Err(stop) => {
                let error = error_of(self.fed, stop);
                self.refused = Some(error);
                self.flawed = flawed_in(self.kept.as_slice(), piece, stop);
                Err(error)
            }
        }
    }

    // The parts of the image that was fed. Errors: the refusal of a piece; else `BadImage`, if the
    // bytes that were fed end too early.
    fn into_parts(self) -> Result<TableParts, Error>
        ensures value { IfOk result (λ p. IsValue image_spelling (parts_internet p)) }
        ensures found { IfOk result (λ p. (all : List ℕ) → HasRead self all
            → Spells image_spelling all (parts_internet p)) }
        ensures again { (e : Error) → self.refused ≡ Some e → result ≡ Err e }
        ensures only { self.refused ≡ None → (all : List ℕ) → HasRead self all
            → (i : Internet) → Spells image_spelling all i
            → IsOkAnd result (λ p. parts_internet p ≡ i) }
        ensures first { self.refused ≡ None → (all : List ℕ) → HasRead self all
            → (f : Flaw) → IsFirstFlaw all f → result ≡ Err (refusal f) }
        ensures refused { IfErr result (λ e. self.refused ≡ None → (all : List ℕ)
            → HasRead self all → RefusesFirst all e) }
    {
        if let Some(refusal) = self.refused {
            return Err(refusal);
        }
        if !self.tables.is_whole() {
            return Err(cut_after(self.fed));
        }
        Ok(self.tables.into_parts())
    }

    /// The image that was fed. Errors: the refusal of a piece; else `BadImage`, if the bytes that
    /// were fed end too early.
    pub fn finish(self) -> Result<Image, Error>
        ensures found { IfOk result (λ image. (all : List ℕ) → HasRead self all
            → Spells image_spelling all image) }
        ensures again { (e : Error) → self.refused ≡ Some e → result ≡ Err e }
        ensures only { self.refused ≡ None → (all : List ℕ) → HasRead self all
            → (i : Internet) → Spells image_spelling all i → result ≡ Ok i }
        ensures first { self.refused ≡ None → (all : List ℕ) → HasRead self all
            → (f : Flaw) → IsFirstFlaw all f → result ≡ Err (refusal f) }
        ensures refused { IfErr result (λ e. self.refused ≡ None → (all : List ℕ)
            → HasRead self all → RefusesFirst all e) }
    {
        match self.into_parts() {
            Ok(parts) => Ok(image_of(parts)),
            Err(error) => Err(error),
        }
    }

    /// The byte at which a refused image has its flaw, if there is one.
    pub fn flawed_byte(&self) -> Option<u8> {
        self.flawed
    }
}
