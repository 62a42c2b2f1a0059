//! Images whose bytes are all there.

ghost use Rattle.std.specs.Prelude.{◌≡◌, ◌⊎◌, Err, IfErr, IfOk, MatchResult};
ghost use Rattle.at_base.specs.Spelling.{Spells};
ghost use Rattle.table_image.specs.Internet.{Internet};
ghost use Rattle.table_image.specs.Reading.{IsFirstFlaw, refusal, Refuses, RefusesFirst};
ghost use Rattle.table_image.specs.Spelling.{image_spelling};
ghost use Rattle.table_image.specs.declared.flaw.Flaw.{Flaw};

use crate::feed::{Feed, refused_at};
use at_base::Error;
use std::alloc::Global;
use table_image::Image;
use table_image::parts::look_through;

/// The image that the bytes spell, read as one piece. Errors: `BadImage`, the first flaw of bytes
/// that spell no image, if no allocation failed before it; `Memory`.
fn fed_at_once(alloc: Global, bytes: &[u8]) -> Result<Image, Error>
    ensures found { IfOk result (λ i. Spells image_spelling bytes.now i) }
    ensures refused { IfErr result (λ e. (e ≡ Error.Memory) ⊎ RefusesFirst bytes.now e) }
{
    let mut feed = Feed::new(alloc)?;
    match feed.feed(bytes) {
        Ok(()) => feed.finish(),
        Err(error) => Err(error),
    }
}

/// The error after a failed allocation. It is `Memory` only if the bytes spell an image, so the
/// whole input is checked, without an allocation.
fn refused_for_memory(bytes: &[u8]) -> Error
    ensures { Refuses bytes.now result }
{
    match look_through(bytes) {
        Ok(()) => Error::Memory,
        Err(fault) => refused_at(bytes.len(), fault),
    }
}

/// The image that the bytes spell; it goes up to their end. Errors: `BadImage`, the first flaw of
/// bytes that spell no image, with its offset from the first byte; `Memory`, only where they spell
/// one.
pub fn read(alloc: Global, bytes: &[u8]) -> Result<Image, Error>
    // The bytes spell the image that is returned.
    ensures found { IfOk result (λ i. Spells image_spelling bytes.now i) }
    // If the bytes spell an image, it is returned, unless memory runs out.
    ensures only { (i : Internet) → Spells image_spelling bytes.now i
        → MatchResult result (λ j. j ≡ i) (λ e. e ≡ Error.Memory) }
    // If the bytes have a flaw, it is reported.
    ensures first { (f : Flaw) → IsFirstFlaw bytes.now f → result ≡ Err (refusal f) }
    // An error reports the first flaw, or a failed allocation where the bytes spell an image.
    ensures refused { IfErr result (Refuses bytes.now) }
{
    match fed_at_once(alloc, bytes) {
        Ok(image) => Ok(image),
        Err(Error::BadImage(place, cause)) => Err(Error::BadImage(place, cause)),
        Err(_) => Err(refused_for_memory(bytes)),
    }
}
