//! Makes the image that a tables file says, and writes the verdict on it and its bytes.

ghost use Rattle.std.specs.Prelude.{◌≡◌, ◌≢◌, ◌⊎◌, ◌∷◌, ◌++◌, ℕ, List, [], None, IfErr, IfOk, OnOk};
ghost use Rattle.std.specs.Io.KnownBytes.{Appends, IsAtEnd};
ghost use Rattle.at_base.specs.Spelling.{Spells};
ghost use Rattle.audit.specs.Verdicts.{Judges, verdict_line};
ghost use Rattle.commands.specs.Making.{IsMade};
ghost use Rattle.commands.specs.Outputs.{WroteImage};
ghost use Rattle.commands.specs.Streams.{Has, IsTextOf, IsUnmade};
ghost use Rattle.commands.specs.declared.auditing.Judged.{Judged as JudgedValue};
ghost use Rattle.table_image.specs.Spelling.{image_spelling};
ghost use Rattle.tables_file.specs.Files.{AreRefused};

use crate::auditing::Judged;
use crate::handing::hand_over;
use crate::reading::READS;
use crate::refused::Refused;
use crate::text_input::read_text;
use at_base::{Bytes, Error};
use audit::{Verdict, audit};
use std::alloc::Global;
use std::io::{Read, Write};
use table_image::{Image, write};
use text::Output;

/// What is made of a tables file or of joined images, and what is written of it.
#[derive(Drop)]
pub(crate) struct Made {
    pub it: Judged,
    pub line: Vec<u8>,
    pub bytes: Bytes,
}

/// The line of a verdict, with its end. Error: `Memory`.
fn line_of(alloc: Global, verdict: &Verdict) -> Result<Vec<u8>, Error>
    ensures ok { IfOk result (λ text. text.items ≡ verdict_line verdict.now ++ 10 ∷ []) }
    ensures refused { IfErr result (λ e. e ≡ Error.Memory) }
{
    let line = verdict.line(alloc)?;
    let mut text = Vec::with_capacity(alloc, line.len() + 1)?;
    text.extend_from_slice(line.as_bytes())?;
    text.push(b'\n')?;
    Ok(text)
}

/// Judges an image. Error: `Memory`.
pub(crate) fn judge(alloc: Global, image: Image) -> Result<Made, Error>
    ensures image { IfOk result (λ m. m.it.image ≡ image) }
    ensures judged { IfOk result (λ m. Judges m.it.image m.it.verdict) }
    ensures line { IfOk result (λ m. m.line.items ≡ verdict_line m.it.verdict ++ 10 ∷ []) }
    ensures bytes { IfOk result (λ m. Spells image_spelling m.bytes m.it.image) }
    ensures refused { IfErr result (λ e. e ≡ Error.Memory) }
{
    let verdict = audit(&image);
    let line = match line_of(alloc, &verdict) {
        Ok(line) => line,
        Err(error) => return Err(error),
    };
    match write(alloc, &image) {
        Ok(bytes) => Ok(Made {
            it: Judged { image, verdict },
            line,
            bytes,
        }),
        Err(error) => Err(error),
    }
}

/// Makes the image that a text says, and judges it. Errors: `BadFile`, `Memory`.
fn make_text(alloc: Global, text: Vec<u8>) -> Result<Made, Refused>
    ensures made { IfOk result (λ m. IsMade text.items m.it) }
    ensures line { IfOk result (λ m. m.line.items ≡ verdict_line m.it.verdict ++ 10 ∷ []) }
    ensures bytes { IfOk result (λ m. Spells image_spelling m.bytes m.it.image) }
    ensures told { IfErr result (λ r. r.reason ≡ None) }
    ensures back { IfErr result (Has text.items) }
    ensures refused { IfErr result (λ r. AreRefused text.items r.error) }
    ensures others { IfErr result
        (λ r. (r.error ≢ Error.ReadFault) × (r.error ≢ Error.WriteFault)) }
{
    let image = match tables_file::read(alloc, text.as_slice()) {
        Ok(image) => image,
        Err(refused) => return Err(Refused::at_fault(refused, text)),
    };
    match judge(alloc, image) {
        Ok(made) => Ok(made),
        Err(error) => Err(Refused::of(error)),
    }
}

/// Reads the whole input, and makes the image that it says. Errors: `ReadFault`, `BadFile`,
/// `Memory`.
fn make_file<R: Read>(alloc: Global, input: &mut R) -> Result<Made, Refused>
    ensures made { IfOk result (λ m. (text : List ℕ) × IsTextOf (R.remaining input.old) text
        × IsMade text m.it) }
    ensures line { IfOk result (λ m. m.line.items ≡ verdict_line m.it.verdict ++ 10 ∷ []) }
    ensures bytes { IfOk result (λ m. Spells image_spelling m.bytes m.it.image) }
    ensures refused { IfErr result
        (IsUnmade (R.remaining input.old) (R.remaining input.new)) }
    ensures unwritten { IfErr result (λ r. r.error ≢ Error.WriteFault) }
    ensures end { OnOk result (IsAtEnd (R.remaining input.new)) }
{
    let text = match read_text(alloc, input, READS) {
        Ok(text) => text,
        Err(refused) => return Err(refused),
    };
    make_text(alloc, text)
}

/// Reads the whole tables file, and writes the line of the verdict on its image; then writes the
/// bytes of the image with a second writer. Returns the image and the verdict. Errors: `ReadFault`,
/// `BadFile`, `Memory`, `WriteFault`.
pub fn make_bytes<R: Read, W: Write, I: Write>(
    alloc: Global,
    input: &mut R,
    output: &mut Output<W>,
    image: &mut Output<I>,
) -> Result<Judged, Refused>
    // For a reader whose bytes are known: they are a tables file; the line of the verdict on its
    // image was written by the first writer, and the bytes of the image by the second, each after
    // the text that was buffered.
    ensures printed { IfOk result (λ it. (text bytes : List ℕ)
        × IsTextOf (R.remaining input.old) text × IsMade text it
        × Spells image_spelling bytes it.image
        × Appends (W.contents output.old.writer) (W.contents output.new.writer)
        (output.old.text.items ++ (verdict_line it.verdict ++ 10 ∷ []))
        × Appends (I.contents image.old.writer) (I.contents image.new.writer)
        (image.old.text.items ++ bytes)) }
    ensures refused { IfErr result
        (IsUnmade (R.remaining input.old) (R.remaining input.new)) }
    ensures end { OnOk result (IsAtEnd (R.remaining input.new)) }
    ensures wrote { WroteImage (output.new ≡ output.old) (image.new ≡ image.old)
        (output.new.text.items ≡ []) output.old.faults output.new.faults image.old.faults
        image.new.faults result }
    // The image isn't written before the line of its verdict is.
    ensures order { (image.new ≡ image.old) ⊎ ((text : List ℕ) × (it : JudgedValue)
        × IsTextOf (R.remaining input.old) text × IsMade text it
        × Appends (W.contents output.old.writer) (W.contents output.new.writer)
        (output.old.text.items ++ (verdict_line it.verdict ++ 10 ∷ []))) }
    ensures empty { OnOk result ((output.new.text.items ≡ []) × (image.new.text.items ≡ [])) }
{
    let Made { it, line, bytes } = match make_file(alloc, input) {
        Ok(made) => made,
        Err(refused) => return Err(refused),
    };
    match hand_over(line.as_slice(), bytes.as_slice(), output, image) {
        Ok(()) => Ok(it),
        Err(error) => Err(Refused::of(error)),
    }
}
