//! The first lines of a drawing, which have the verdict.

ghost use Rattle.std.specs.Prelude.{◌≡◌, ◌++◌, IsOkUnless, OnOk};
ghost use Rattle.drawing.specs.Drawing.{head_text, to_line};

use crate::labels::put_letters;
use at_base::Error;
use audit::Verdict;
use std::alloc::AllocError;
use text::put_decimal;

/// Appends the second line of the drawing's label, if a network is asked for.
fn put_to(text: &mut Vec<u8>, to: Option<u16>) -> Result<(), AllocError>
    ensures { OnOk result (text.new.items ≡ text.old.items ++ to_line to) }
{
    match to {
        Some(net) => {
            text.extend_from_slice(b"\\nto ")?;
            put_decimal(text, u32::from(net))
        }
        None => Ok(()),
    }
}

/// Appends the first lines of a drawing. Error: `Memory`.
pub(crate) fn put_head(text: &mut Vec<u8>, verdict: &Verdict, to: Option<u16>) -> Result<(), Error>
    ensures put { OnOk result (text.new.items ≡ text.old.items ++ head_text verdict.now to) }
    ensures refused { IsOkUnless result Error.Memory }
{
    let line = verdict.line(*text.allocator())?;
    put_letters(text, b"digraph internet {\n  graph [label=\"")?;
    put_letters(text, line.as_bytes())?;
    put_to(text, to)?;
    put_letters(
        text,
        b"\", labelloc=t, fontname=\"Helvetica\"];\n  node [fontname=\"Helvetica\"];\n  edge [fontname=\"Helvetica\", dir=none];\n",
    )?;
    Ok(())
}
