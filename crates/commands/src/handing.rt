//! Writes the lines of an answer, and then the bytes of its image.

ghost use Rattle.std.specs.Prelude.{◌≡◌, ◌≢◌, ◌⊎◌, ◌++◌, [], IsOkUnless, OnErr, OnOk};
ghost use Rattle.std.specs.Io.KnownBytes.{Appends};
ghost use Rattle.commands.specs.Outputs.{Hands};
ghost use Rattle.text.specs.Writing.{Writes};

use at_base::Error;
use std::io;
use std::io::Write;
use text::Output;

/// Writes the bytes, and flushes.
fn put<W: Write>(writer: &mut W, bytes: &[u8]) -> io::Result<()>
    ensures { OnOk result (Appends (W.contents writer.old) (W.contents writer.new) bytes.now) }
{
    writer.write_all(bytes)?;
    writer.flush()
}

/// Writes the buffered text, then these bytes, and flushes. Error: `WriteFault`, only if the writer
/// failed.
fn write_bytes<W: Write>(output: &mut Output<W>, bytes: &[u8]) -> Result<(), Error>
    ensures ok { OnOk result (Appends (W.contents output.old.writer) (W.contents output.new.writer)
        (output.old.text.items ++ bytes.now)) }
    ensures empty { OnOk result (output.new.text.items ≡ []) }
    ensures writes { Writes output.old.faults output.new.faults result }
{
    output.flush()?;
    match put(&mut output.writer, bytes) {
        Ok(()) => Ok(()),
        Err(_) => {
            output.faults = output.faults.wrapping_add(1);
            Err(Error::WriteFault)
        }
    }
}

/// Writes the lines, and then the bytes of the image. Error: `WriteFault`, only if a writer failed.
pub(crate) fn hand_over<W: Write, I: Write>(
    lines: &[u8],
    bytes: &[u8],
    output: &mut Output<W>,
    image: &mut Output<I>,
) -> Result<(), Error>
    ensures lines { OnOk result (Appends (W.contents output.old.writer)
        (W.contents output.new.writer) (output.old.text.items ++ lines.now)) }
    ensures image { OnOk result (Appends (I.contents image.old.writer)
        (I.contents image.new.writer) (image.old.text.items ++ bytes.now)) }
    ensures refused { IsOkUnless result Error.WriteFault }
    ensures hands { Hands (image.new ≡ image.old)
        (Appends (W.contents output.old.writer) (W.contents output.new.writer)
        (output.old.text.items ++ lines.now)) (output.new.text.items ≡ [])
        output.old.faults output.new.faults image.old.faults image.new.faults result }
    ensures empty { OnOk result ((output.new.text.items ≡ []) × (image.new.text.items ≡ [])) }
{
    match write_bytes(output, lines) {
        Ok(()) => write_bytes(image, bytes),
        Err(error) => Err(error),
    }
}
