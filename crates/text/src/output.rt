//! A buffered writer of text that counts the writes that failed.

ghost use Rattle.std.specs.Prelude.{◌≡◌, ◌<◌, length, [], ◌∷◌, ◌++◌, OnOk, OnErr};
ghost use Rattle.std.specs.Io.KnownBytes.{Appends};
ghost use Rattle.text.specs.Going.{Goes};
ghost use Rattle.text.specs.Writing.{Writes};

use at_base::Error;
use std::alloc::Global;
use std::io;
use std::io::Write;

/// The number of buffered bytes from which on `pass_on` writes.
const FULL: usize = 65_536;

/// A writer, the text that is still to be written, and how many writes failed.
#[derive(Drop)]
pub struct Output<W> {
    /// The writer.
    pub writer: W,
    /// The text that is still to be written.
    pub text: Vec<u8>,
    /// The number of writes that failed, modulo 2^32.
    pub faults: u32,
}

impl<W: Write> Output<W> {
    /// An output with nothing to be written, of which no write failed.
    pub fn new(alloc: Global, writer: W) -> Output<W>
        ensures writer { result.writer ≡ writer }
        ensures empty { result.text.items ≡ [] }
        ensures sound { result.faults ≡ 0 }
    {
        Output {
            writer,
            text: Vec::new(alloc),
            faults: 0,
        }
    }

    /// Writes the text and a line feed to the writer, and flushes. The buffered text isn't written,
    /// and stays. Error: `WriteFault`, only if the writer failed.
    pub fn write_line(&mut self, text: &[u8]) -> Result<(), Error>
        ensures ok { OnOk result
            (Appends (W.contents self.old.writer) (W.contents self.new.writer)
            (text.now ++ 10 ∷ [])) }
        ensures writes { Writes self.old.faults self.new.faults result }
        ensures text { self.new.text ≡ self.old.text }
    {
        match put_line(&mut self.writer, text) {
            Ok(()) => Ok(()),
            Err(_) => {
                self.faults = self.faults.wrapping_add(1);
                Err(Error::WriteFault)
            }
        }
    }

    /// Writes the buffered text, and flushes. Error: `WriteFault`, only if the writer failed; the
    /// buffered text then stays.
    pub fn flush(&mut self) -> Result<(), Error>
        ensures ok { OnOk result (Appends (W.contents self.old.writer)
            (W.contents self.new.writer) self.old.text.items) }
        ensures empty { OnOk result (self.new.text.items ≡ []) }
        // Text that can't be written stays buffered.
        ensures left { OnErr result (self.new.text ≡ self.old.text) }
        ensures writes { Writes self.old.faults self.new.faults result }
    {
        match put(&mut self.writer, self.text.as_slice()) {
            Ok(()) => {
                self.text.clear();
                Ok(())
            }
            Err(_) => {
                self.faults = self.faults.wrapping_add(1);
                Err(Error::WriteFault)
            }
        }
    }

    /// Writes the buffered text if it has 64 KiB or more, so that less than 64 KiB are left. Error:
    /// `WriteFault`, only if the writer failed.
    pub fn pass_on(&mut self) -> Result<(), Error>
        ensures little { OnOk result (length self.new.text.items < 65536) }
        ensures gone { OnOk result (Goes (W.contents self.old.writer) self.old.text.items []
            (W.contents self.new.writer) self.new.text.items) }
        ensures left { OnErr result (self.new.text ≡ self.old.text) }
        ensures writes { Writes self.old.faults self.new.faults result }
    {
        if self.text.len() >= FULL {
            self.flush()
        } else {
            Ok(())
        }
    }
}

/// Writes the text, and flushes.
fn put<W: Write>(writer: &mut W, text: &[u8]) -> io::Result<()>
    ensures { OnOk result (Appends (W.contents writer.old) (W.contents writer.new) text.now) }
{
    writer.write_all(text)?;
    writer.flush()
}

/// Writes the text and a line feed, and flushes.
fn put_line<W: Write>(writer: &mut W, text: &[u8]) -> io::Result<()>
    ensures { OnOk result
        (Appends (W.contents writer.old) (W.contents writer.new) (text.now ++ 10 ∷ [])) }
{
    writer.write_all(text)?;
    writer.write_all(b"\n")?;
    writer.flush()
}
