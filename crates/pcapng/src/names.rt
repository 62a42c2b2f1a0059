//! The names of interfaces.

ghost use Rattle.std.specs.Prelude.{◌≡◌, ◌++◌, ◌+◌, ◌≤◌, codes, length, IfOk, IsOkUnless, OnOk};
ghost use Rattle.std.specs.Fmt.{decimal};
ghost use Rattle.at_base.specs.Texts.{range_text};
ghost use Rattle.pcapng.specs.Captures.{cable_name};

use at_base::Error;
use std::alloc::{AllocError, Global};
use text::put_decimal;

/// Appends a range, as `20-29`.
fn put_range(text: &mut Vec<u8>, start: u16, end: u16) -> Result<(), AllocError>
    ensures { OnOk result (text.new.items
        ≡ text.old.items ++ range_text (record { start = start; end = end })) }
{
    put_decimal(text, u32::from(start))?;
    text.extend_from_slice(b"-")?;
    put_decimal(text, u32::from(end))
}

/// Appends the number of a cable.
fn put_cable(text: &mut Vec<u8>, cable: u8) -> Result<(), AllocError>
    ensures { OnOk result (text.new.items
        ≡ text.old.items ++ (codes "cable " ++ decimal (cable + 1) ++ codes ", ")) }
{
    text.extend_from_slice(b"cable ")?;
    put_decimal(text, u32::from(cable) + 1)?;
    text.extend_from_slice(b", ")
}

/// The name of a cable with an index and a range. Error: `Memory`.
pub(crate) fn name_of(alloc: Global, cable: u8, start: u16, end: u16) -> Result<Vec<u8>, Error>
    ensures name { IfOk result (λ name. name.items ≡ cable_name cable start end) }
    ensures few { IfOk result (λ name. length name.items ≤ 22) }
    ensures refused { IsOkUnless result Error.Memory }
{
    let mut name = Vec::new(alloc);
    put_cable(&mut name, cable)?;
    put_range(&mut name, start, end)?;
    Ok(name)
}
