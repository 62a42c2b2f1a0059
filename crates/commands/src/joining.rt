//! Joins images of parts of one internet, one after the other, and writes the verdict on the image of
//! all of them, and its bytes.

ghost use Rattle.std.specs.Prelude.{◌≡◌, ◌≢◌, ◌⊎◌, ◌∷◌, ◌++◌, ℕ, List, [], None, IfErr, IfOk, OnOk};
ghost use Rattle.std.specs.Io.KnownBytes.{Appends};
ghost use Rattle.at_base.specs.Spelling.{Spells};
ghost use Rattle.audit.specs.Verdicts.{Judges, verdict_line};
ghost use Rattle.audit.specs.declared.verdict.Verdict.{Verdict as VerdictValue};
ghost use Rattle.commands.specs.Joining.{IsJoined, IsUnjoined};
ghost use Rattle.commands.specs.Outputs.{WroteImage};
ghost use Rattle.commands.specs.Streams.{ReadsImage};
ghost use Rattle.commands.specs.declared.refused.Origin.TheVariants as OriginValue;
ghost use Rattle.table_image.specs.Spelling.{image_spelling};

use crate::auditing::Judged;
use crate::handing::hand_over;
use crate::image_input::read_image;
use crate::making::{Made, judge};
use crate::refused::Refused;
use at_base::Error;
use joined::join;
use std::alloc::Global;
use std::io::{Read, Write};
use table_image::Image;
use text::Output;

/// Reads the whole input, piece by piece, and joins its image to the one of those before it. Errors:
/// `ReadFault`, `BadImage`; `NoSuch(Cable)` where its cables are others; `Full` where there are too
/// many routers or nodes; `Memory`.
pub fn join_image<R: Read>(alloc: Global, before: &Image, input: &mut R) -> Result<Image, Refused>
    ensures joined { IfOk result (IsJoined before.now (R.remaining input.old)) }
    ensures refused { IfErr result (IsUnjoined before.now (R.remaining input.old)) }
    ensures origin { IfErr result (λ r. r.origin ≡ OriginValue.Input) }
    ensures read { ReadsImage (R.remaining input.old) (R.remaining input.new) result }
{
    let image = match read_image(alloc, input) {
        Ok(image) => image,
        Err(refused) => return Err(refused),
    };
    match join(alloc, before, &image) {
        Ok(both) => Ok(both),
        Err(error) => Err(Refused::of(error)),
    }
}

/// Audits an image, and writes the line of the verdict; then writes the bytes of the image with a
/// second writer. Returns the image and the verdict. Errors: `Memory`, `WriteFault`.
pub fn judge_image<W: Write, I: Write>(
    alloc: Global,
    image: Image,
    output: &mut Output<W>,
    to: &mut Output<I>,
) -> Result<Judged, Refused>
    ensures printed { IfOk result (λ it. (bytes : List ℕ) × (it.image ≡ image)
        × Judges it.image it.verdict × Spells image_spelling bytes it.image
        × Appends (W.contents output.old.writer) (W.contents output.new.writer)
        (output.old.text.items ++ (verdict_line it.verdict ++ 10 ∷ []))
        × Appends (I.contents to.old.writer) (I.contents to.new.writer)
        (to.old.text.items ++ bytes)) }
    ensures refused { IfErr result (λ r.
        ((r.error ≡ Error.Memory) ⊎ (r.error ≡ Error.WriteFault)) × (r.reason ≡ None)) }
    ensures wrote { WroteImage (output.new ≡ output.old) (to.new ≡ to.old)
        (output.new.text.items ≡ []) output.old.faults output.new.faults to.old.faults
        to.new.faults result }
    // The image isn't written before the line of its verdict is.
    ensures order { (to.new ≡ to.old) ⊎ ((v : VerdictValue) × Judges image v
        × Appends (W.contents output.old.writer) (W.contents output.new.writer)
        (output.old.text.items ++ (verdict_line v ++ 10 ∷ []))) }
    ensures empty { OnOk result ((output.new.text.items ≡ []) × (to.new.text.items ≡ [])) }
{
    let Made { it, line, bytes } = match judge(alloc, image) {
        Ok(made) => made,
        Err(error) => return Err(Refused::of(error)),
    };
    match hand_over(line.as_slice(), bytes.as_slice(), output, to) {
        Ok(()) => Ok(it),
        Err(error) => Err(Refused::of(error)),
    }
}
