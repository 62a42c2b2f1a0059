//! Numbers in a fixed number of bytes, and padding.

ghost use Rattle.std.specs.Prelude.{◌≡◌, ◌++◌, ◌<◌, ◌^◌, OnOk};
ghost use Rattle.pcapng.specs.Fields as spec;
ghost use Rattle.pcapng.specs.Fields.{filling, four_bytes, two_bytes};

use std::alloc::AllocError;

/// Appends bytes.
pub(crate) fn put_bytes(text: &mut Vec<u8>, bytes: &[u8]) -> Result<(), AllocError>
    ensures { OnOk result (text.new.items ≡ text.old.items ++ bytes.now) }
{
    text.extend_from_slice(bytes)
}

/// Appends a number in two bytes.
pub(crate) fn put_two(text: &mut Vec<u8>, number: u16) -> Result<(), AllocError>
    ensures { OnOk result (text.new.items ≡ text.old.items ++ two_bytes number) }
{
    text.extend_from_slice(&number.to_be_bytes())
}

/// Appends a number in four bytes.
pub(crate) fn put_four(text: &mut Vec<u8>, number: u32) -> Result<(), AllocError>
    ensures { OnOk result (text.new.items ≡ text.old.items ++ four_bytes number) }
{
    text.extend_from_slice(&number.to_be_bytes())
}

/// How many bytes are missing after so many up to a multiple of four.
pub(crate) fn gap(len: u32) -> u32
    ensures { result ≡ spec.gap len }
{
    (4 - len % 4) % 4
}

/// So many bytes and those up to a multiple of four.
pub(crate) fn filled(len: u32) -> u32
    requires { len < 2 ^ 31 }
    ensures { result ≡ spec.filled len }
{
    len + gap(len)
}

/// Appends the zeros after so many bytes.
pub(crate) fn put_filling(text: &mut Vec<u8>, len: u32) -> Result<(), AllocError>
    ensures { OnOk result (text.new.items ≡ text.old.items ++ filling len) }
{
    match gap(len) {
        1 => text.extend_from_slice(&[0]),
        2 => text.extend_from_slice(&[0, 0]),
        3 => text.extend_from_slice(&[0, 0, 0]),
        _ => Ok(()),
    }
}
