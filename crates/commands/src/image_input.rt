//! Images that are read piece by piece.

ghost use Rattle.std.specs.Prelude.{◌≡◌, ◌⊎◌, ◌++◌, ℕ, List, None, IfErr, IfOk, IfSome};
ghost use Rattle.at_base.specs.Spelling.{Spells};
ghost use Rattle.at_base.specs.declared.error.Error.TheVariants.{Memory};
ghost use Rattle.image_feed.specs.Feeds.{HasRead, IsFlawed};
ghost use Rattle.table_image.specs.Reading.{RefusesFirst};
ghost use Rattle.table_image.specs.Spelling.{image_spelling};
ghost use Rattle.commands.specs.declared.refused.Origin.TheVariants as OriginValue;
ghost use Rattle.commands.specs.Streams.{IsImageRefused, IsUnflawed, ReadsImage};

use crate::reading::{READS, Stop, Takes, read_into};
use crate::refused::Refused;
use at_base::Error;
use image_feed::Feed;
use std::alloc::Global;
use std::io::Read;
use table_image::Image;

impl Takes for Feed {
    ghost took = { λ feed all. (feed.refused ≡ None) × HasRead feed all };

    ghost sound = { IsUnflawed };

    ghost refuses = { λ feed all e. (e ≡ Memory) ⊎ (RefusesFirst all e
        × ((more : List ℕ) → IsFlawed e (all ++ more))) };

    fn take(&mut self, piece: &[u8]) -> Result<(), Error> {
        self.feed(piece)
    }
}

/// Reads the input to its end, piece by piece, and returns its image. An input that spells no image
/// is read up to its first flaw. Errors: `ReadFault`, `BadImage`, `Memory`.
pub fn read_image<R: Read>(alloc: Global, input: &mut R) -> Result<Image, Refused>
    ensures found { IfOk result (λ image. IfSome (R.remaining input.old)
        (λ bytes. Spells image_spelling bytes image)) }
    ensures named { IfErr result (λ r. IsImageRefused r.error) }
    ensures origin { IfErr result (λ r. r.origin ≡ OriginValue.Input) }
    ensures read { ReadsImage (R.remaining input.old) (R.remaining input.new) result }
{
    let mut feed = match Feed::new(alloc) {
        Ok(feed) => feed,
        Err(error) => return Err(Refused::of(error)),
    };
    match read_into(input, &mut feed, READS) {
        Ok(()) => match feed.finish() {
            Ok(image) => Ok(image),
            Err(error) => Err(Refused::flawed(error, None)),
        },
        Err(Stop::Unread(reason, reads)) => Err(Refused::unread(reason, reads)),
        Err(Stop::Refused(error)) => Err(Refused::flawed(error, feed.flawed_byte())),
    }
}
