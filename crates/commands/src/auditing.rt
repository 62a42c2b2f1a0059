//! Audits the image in an input, and writes the line of the verdict.

ghost use Rattle.std.specs.Prelude.{◌≡◌, ◌≢◌, ◌⊎◌, ◌∷◌, ◌++◌, [], IfErr, IfOk, IfSome, OnErr, OnOk};
ghost use Rattle.std.specs.Io.KnownBytes.{Appends, IsAtEnd};
ghost use Rattle.at_base.specs.Spelling.{Spells};
ghost use Rattle.audit.specs.Verdicts.{Judges, verdict_line};
ghost use Rattle.commands.specs.Outputs.{Wrote};
ghost use Rattle.commands.specs.Streams.{IsImageRefused, ReadsImage};
ghost use Rattle.commands.specs.declared.refused.Origin.TheVariants as OriginValue;
ghost use Rattle.table_image.specs.Spelling.{image_spelling};
ghost use Rattle.text.specs.Writing.{Prints};

use crate::image_input::read_image;
use crate::refused::Refused;
use at_base::Error;
use audit::{Verdict, audit};
use std::alloc::Global;
use std::io::{Read, Write};
use table_image::Image;
use text::Output;

/// An image, and the verdict of its audit.
#[derive(Drop)]
pub struct Judged {
    /// The image.
    pub image: Image,
    /// The verdict.
    pub verdict: Verdict,
}

/// Writes the line of a verdict. Errors: `Memory`, before anything is written; `WriteFault`, only if
/// the writer failed.
fn write_verdict<W: Write>(
    alloc: Global,
    verdict: &Verdict,
    output: &mut Output<W>,
) -> Result<(), Error>
    ensures written { OnOk result (Appends (W.contents output.old.writer)
        (W.contents output.new.writer) (verdict_line verdict.now ++ 10 ∷ [])) }
    ensures prints { Prints output.old.faults output.new.faults result }
    ensures none { IfErr result (λ e. e ≢ Error.WriteFault → output.new ≡ output.old) }
    ensures text { output.new.text ≡ output.old.text }
{
    let line = verdict.line(alloc)?;
    output.write_line(line.as_bytes())
}

/// Reads the whole input, piece by piece, and writes the line of the verdict on its image. Returns
/// both. Errors: `ReadFault`, `BadImage`, `Memory`, `WriteFault`.
pub fn audit_file<R: Read, W: Write>(
    alloc: Global,
    input: &mut R,
    output: &mut Output<W>,
) -> Result<Judged, Refused>
    // The line of the verdict on the image and a line feed were written; for a reader whose bytes
    // are known, they spell the image.
    ensures written { IfOk result (λ it. Judges it.image it.verdict
        × IfSome (R.remaining input.old) (λ bytes. Spells image_spelling bytes it.image)
        × Appends (W.contents output.old.writer) (W.contents output.new.writer)
        (verdict_line it.verdict ++ 10 ∷ [])) }
    ensures named { IfErr result (λ r. (r.origin ≡ OriginValue.Input)
        × (IsImageRefused r.error ⊎ (r.error ≡ Error.WriteFault))) }
    ensures read { ReadsImage (R.remaining input.old) (R.remaining input.new) result }
    // Nothing is written before the input was read to its end, nor before an error other than
    // `WriteFault`.
    ensures begun { (output.new ≡ output.old) ⊎ IsAtEnd (R.remaining input.new) }
    ensures nothing_written { IfErr result (λ r. r.error ≢ Error.WriteFault
        → output.new ≡ output.old) }
    ensures wrote { Wrote output.old.faults output.new.faults result }
    ensures text { output.new.text ≡ output.old.text }
{
    let image = match read_image(alloc, input) {
        Ok(image) => image,
        Err(refused) => return Err(refused),
    };
    let verdict = audit(&image);
    match write_verdict(alloc, &verdict, output) {
        Ok(()) => Ok(Judged { image, verdict }),
        Err(error) => Err(Refused::of(error)),
    }
}
