//! Shows and draws the tables of the image in an input.

ghost use Rattle.std.specs.Prelude.{◌≡◌, ◌≢◌, ◌⊎◌, ◌++◌, [], IfErr, IfSome, OnOk};
ghost use Rattle.std.specs.Io.KnownBytes.{Appends, IsAtEnd};
ghost use Rattle.at_base.specs.Spelling.{Spells};
ghost use Rattle.audit.specs.Verdicts.{Judges};
ghost use Rattle.audit.specs.declared.verdict.Verdict.{Verdict};
ghost use Rattle.commands.specs.Outputs.{Wrote};
ghost use Rattle.commands.specs.Streams.{IsImageRefused, ReadsImage};
ghost use Rattle.commands.specs.declared.refused.Origin.TheVariants as OriginValue;
ghost use Rattle.drawing.specs.Drawing.{drawing_text};
ghost use Rattle.settled.specs.Settling.{IsSettling};
ghost use Rattle.settled.specs.declared.settling.Settling.{Settling};
ghost use Rattle.table_image.specs.Internet.{Internet};
ghost use Rattle.table_image.specs.Spelling.{image_spelling};
ghost use Rattle.tables_text.specs.Tables.{tables_text};
ghost use Rattle.text.specs.Writing.{Prints};

use crate::image_input::read_image;
use crate::refused::Refused;
use at_base::Error;
use audit::audit;
use drawing::print_drawing;
use settled::settled;
use std::alloc::Global;
use std::io::{Read, Write};
use table_image::Image;
use tables_text::print_tables;
use text::Output;

/// Prints the tables file of an image, and flushes. Errors: `Memory`; `WriteFault`, only if the
/// writer failed.
fn print_image<W: Write>(image: &Image, output: &mut Output<W>) -> Result<(), Error>
    ensures printed { OnOk result (Appends (W.contents output.old.writer)
        (W.contents output.new.writer) (output.old.text.items ++ tables_text image.now)) }
    ensures prints { Prints output.old.faults output.new.faults result }
    ensures empty { OnOk result (output.new.text.items ≡ []) }
{
    print_tables(output, image)?;
    output.flush()
}

/// Reads the whole input, piece by piece, and writes the tables file of its image. Errors:
/// `ReadFault`, `BadImage`, `Memory`, `WriteFault`.
pub fn show_image<R: Read, W: Write>(
    alloc: Global,
    input: &mut R,
    output: &mut Output<W>,
) -> Result<(), Refused>
    // For a reader whose bytes are known: they spell an image, and its tables file was written,
    // after the text that was buffered.
    ensures written { OnOk result (IfSome (R.remaining input.old) (λ bytes.
        (i : Internet) × Spells image_spelling bytes i
        × Appends (W.contents output.old.writer) (W.contents output.new.writer)
        (output.old.text.items ++ tables_text i))) }
    ensures named { IfErr result (λ r. (r.origin ≡ OriginValue.Input)
        × (IsImageRefused r.error ⊎ (r.error ≡ Error.WriteFault))) }
    ensures read { ReadsImage (R.remaining input.old) (R.remaining input.new) result }
    // Nothing is written before the input was read to its end, nor before an error other than
    // `WriteFault` and `Memory`.
    ensures begun { (output.new ≡ output.old) ⊎ IsAtEnd (R.remaining input.new) }
    ensures nothing_written { IfErr result (λ r. r.error ≢ Error.WriteFault
        → r.error ≢ Error.Memory → output.new ≡ output.old) }
    ensures wrote { Wrote output.old.faults output.new.faults result }
    ensures empty { OnOk result (output.new.text.items ≡ []) }
{
    let image = match read_image(alloc, input) {
        Ok(image) => image,
        Err(refused) => return Err(refused),
    };
    match print_image(&image, output) {
        Ok(()) => Ok(()),
        Err(error) => Err(Refused::of(error)),
    }
}

/// Audits an image, prints its drawing, and flushes. Errors: `Memory`; `WriteFault`, only if the
/// writer failed.
fn print_drawn<W: Write>(
    image: &Image,
    to: Option<u16>,
    output: &mut Output<W>,
) -> Result<(), Error>
    ensures printed { OnOk result ((v : Verdict) × (s : Settling) × Judges image.now v
        × IsSettling image.now s
        × Appends (W.contents output.old.writer) (W.contents output.new.writer)
        (output.old.text.items ++ drawing_text image.now v s to)) }
    ensures prints { Prints output.old.faults output.new.faults result }
    ensures empty { OnOk result (output.new.text.items ≡ []) }
{
    let verdict = audit(image);
    print_drawing(output, image, &verdict, settled(image), to)?;
    output.flush()
}

/// Reads the whole input, piece by piece, and writes the drawing of its image, with the verdict on
/// it and, where a network is given, how each router sends datagrams for it on. Errors:
/// `ReadFault`, `BadImage`, `Memory`, `WriteFault`.
pub fn draw_image<R: Read, W: Write>(
    alloc: Global,
    input: &mut R,
    output: &mut Output<W>,
    to: Option<u16>,
) -> Result<(), Refused>
    // For a reader whose bytes are known: they spell an image, and its drawing was written, after
    // the text that was buffered.
    ensures written { OnOk result (IfSome (R.remaining input.old) (λ bytes.
        (i : Internet) × (v : Verdict) × (s : Settling) × Spells image_spelling bytes i
        × Judges i v × IsSettling i s
        × Appends (W.contents output.old.writer) (W.contents output.new.writer)
        (output.old.text.items ++ drawing_text i v s to))) }
    ensures named { IfErr result (λ r. (r.origin ≡ OriginValue.Input)
        × (IsImageRefused r.error ⊎ (r.error ≡ Error.WriteFault))) }
    ensures read { ReadsImage (R.remaining input.old) (R.remaining input.new) result }
    // Nothing is written before the input was read to its end, nor before an error other than
    // `WriteFault` and `Memory`.
    ensures begun { (output.new ≡ output.old) ⊎ IsAtEnd (R.remaining input.new) }
    ensures nothing_written { IfErr result (λ r. r.error ≢ Error.WriteFault
        → r.error ≢ Error.Memory → output.new ≡ output.old) }
    ensures wrote { Wrote output.old.faults output.new.faults result }
    ensures empty { OnOk result (output.new.text.items ≡ []) }
{
    let image = match read_image(alloc, input) {
        Ok(image) => image,
        Err(refused) => return Err(refused),
    };
    match print_drawn(&image, to, output) {
        Ok(()) => Ok(()),
        Err(error) => Err(Refused::of(error)),
    }
}
