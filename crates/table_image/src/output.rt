//! Appending fields to bytes.

ghost use Rattle.std.specs.Prelude.{◌≡◌, ◌≤◌, ◌++◌, ◌∷◌, length, OnOk};
ghost use Rattle.std.specs.Int.{w8, w16, to_be_bytes};
ghost use Rattle.at_base.specs.Grammar.{width};
ghost use Rattle.at_base.specs.Spelling.{bytes_of};
ghost use Rattle.table_image.specs.Counts.{size_of};
ghost use Rattle.table_image.specs.Limits.{max_text};
ghost use Rattle.table_image.specs.Spelling.{address_spelling};

use crate::count::CountSize;
use at_base::Addr;
use std::alloc::AllocError;

/// Appends a number of two bytes.
pub(crate) fn put_u16(out: &mut Vec<u8>, number: u16) -> Result<(), AllocError>
    ensures { OnOk result (out.new.items ≡ out.old.items ++ to_be_bytes w16 number) }
{
    out.extend_from_slice(&number.to_be_bytes())
}

/// Appends a byte.
pub(crate) fn put_byte(out: &mut Vec<u8>, byte: u8) -> Result<(), AllocError>
    ensures { OnOk result (out.new.items ≡ out.old.items ++ to_be_bytes w8 byte) }
{
    out.extend_from_slice(&byte.to_be_bytes())
}

/// Appends a count of this size. The limits of an image keep counts within their sizes.
pub(crate) fn put_count(out: &mut Vec<u8>, size: CountSize, count: usize) -> Result<(), AllocError>
    ensures { OnOk result
        (out.new.items ≡ out.old.items ++ to_be_bytes (width (size_of size)) count) }
{
    if let CountSize::Two = size {
        out.push((count / 256 % 256) as u8)?;
    }
    out.push((count % 256) as u8)?;
    Ok(())
}

/// Appends a length-prefixed text.
pub(crate) fn put_text(out: &mut Vec<u8>, text: &[u8]) -> Result<(), AllocError>
    requires { length text.now ≤ max_text }
    ensures { OnOk result (out.new.items ≡ out.old.items ++ length text.now ∷ text.now) }
{
    out.push(text.len() as u8)?;
    out.extend_from_slice(text)
}

/// Appends a network address.
#[tactic(auto, unfolding(crate::specs::Spelling::address_spelling))]
pub(crate) fn put_address(out: &mut Vec<u8>, at: Addr) -> Result<(), AllocError>
    ensures { OnOk result (out.new.items ≡ out.old.items ++ bytes_of address_spelling at) }
{
    put_u16(out, at.net)?;
    put_byte(out, at.node)
}
