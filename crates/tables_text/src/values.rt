//! The values of keys.

ghost use Rattle.std.specs.Prelude.{◌≡◌, ◌++◌, ◌∷◌, [], OnOk, codes, true};
ghost use Rattle.std.specs.Fmt.{decimal};
ghost use Rattle.std.specs.List.{flat_map, list_all};
ghost use Rattle.text.specs.Digits.{hex_text};
ghost use Rattle.at_base.specs.Text.{is_printable};
ghost use Rattle.tables_text.specs.Tables.{address_value, bytes_text, bytes_value, hardware_value};
ghost use Rattle.tables_text.specs.Tables.{mapping_value, names_value, quoted, range_value};
ghost use Rattle.tables_text.specs.Tables.{state_name, yes_or_no};

use at_base::{Addr, Hw, Name, Text32};
use rtmp::State;
use std::alloc::AllocError;
use table_image::Mapping;
use text::{put_address, put_decimal, put_hex};

/// Appends these bytes.
pub(crate) fn put_letters(text: &mut Vec<u8>, bytes: &[u8]) -> Result<(), AllocError>
    ensures { OnOk result (text.new.items ≡ text.old.items ++ bytes.now) }
{
    text.extend_from_slice(bytes)
}

/// Whether all bytes are printable.
fn are_printable(bytes: &[u8]) -> bool
    ensures { result ≡ list_all is_printable bytes.now }
{
    bytes.iter().all(|byte| 0x20 <= *byte && *byte <= 0x7E)
}

/// Appends a character of a quoted text.
fn put_quoted(text: &mut Vec<u8>, byte: u8) -> Result<(), AllocError>
    ensures { OnOk result (text.new.items ≡ text.old.items ++ quoted byte) }
{
    if byte == b'"' || byte == b'\\' {
        text.push(b'\\')?;
    }
    text.push(byte)?;
    Ok(())
}

/// Appends the characters of a quoted text.
fn put_all_quoted(text: &mut Vec<u8>, bytes: &[u8]) -> Result<(), AllocError>
    ensures { OnOk result (text.new.items ≡ text.old.items ++ flat_map quoted bytes.now) }
{
    match bytes {
        [] => Ok(()),
        [first, rest @ ..] => {
            put_quoted(text, *first)?;
            put_all_quoted(text, rest)
        }
    }
}

/// Appends bytes as a text, or in hexadecimal digits.
fn put_bytes(text: &mut Vec<u8>, bytes: &[u8]) -> Result<(), AllocError>
    ensures { OnOk result (text.new.items ≡ text.old.items ++ bytes_value bytes.now) }
{
    if are_printable(bytes) {
        text.extend_from_slice(b"\"")?;
        put_all_quoted(text, bytes)?;
        text.extend_from_slice(b"\"")
    } else {
        text.extend_from_slice(b"{hex = \"")?;
        put_hex(text, bytes)?;
        text.extend_from_slice(b"\"}")
    }
}

/// Appends bytes as a text, or in hexadecimal digits.
fn put_text(text: &mut Vec<u8>, bytes: &[u8]) -> Result<(), AllocError>
    ensures { OnOk result (text.new.items ≡ text.old.items ++ bytes_text bytes.now) }
{
    put_bytes(text, bytes)
}

/// Appends the value of a name.
pub(crate) fn put_zone(text: &mut Vec<u8>, name: &Name) -> Result<(), AllocError>
    ensures { OnOk result (text.new.items ≡ text.old.items ++ bytes_text name.now) }
{
    put_text(text, name.as_slice())
}

/// Appends the value of an object's name or a type.
pub(crate) fn put_entity(text: &mut Vec<u8>, entity: &Text32) -> Result<(), AllocError>
    ensures { OnOk result (text.new.items ≡ text.old.items ++ bytes_text entity.now) }
{
    put_text(text, entity.as_slice())
}

/// Appends further names of an array.
fn put_more_names(text: &mut Vec<u8>, names: &[Name]) -> Result<(), AllocError>
    ensures { OnOk result (text.new.items
        ≡ text.old.items ++ flat_map (λ m. codes ", " ++ bytes_text m) names.now) }
{
    match names {
        [] => Ok(()),
        [first, rest @ ..] => {
            text.extend_from_slice(b", ")?;
            put_zone(text, first)?;
            put_more_names(text, rest)
        }
    }
}

/// Appends names in brackets.
pub(crate) fn put_names(text: &mut Vec<u8>, names: &[Name]) -> Result<(), AllocError>
    ensures { OnOk result (text.new.items ≡ text.old.items ++ names_value names.now) }
{
    match names {
        [] => text.extend_from_slice(b"[]"),
        [first, rest @ ..] => {
            text.extend_from_slice(b"[")?;
            put_zone(text, first)?;
            put_more_names(text, rest)?;
            text.extend_from_slice(b"]")
        }
    }
}

/// Appends a range.
pub(crate) fn put_range(text: &mut Vec<u8>, start: u16, end: u16) -> Result<(), AllocError>
    ensures { OnOk result (text.new.items ≡ text.old.items ++ range_value start end) }
{
    text.extend_from_slice(b"[")?;
    put_decimal(text, u32::from(start))?;
    text.extend_from_slice(b", ")?;
    put_decimal(text, u32::from(end))?;
    text.extend_from_slice(b"]")
}

/// Appends an address.
pub(crate) fn put_addr(text: &mut Vec<u8>, address: Addr) -> Result<(), AllocError>
    ensures { OnOk result (text.new.items ≡ text.old.items ++ address_value address) }
{
    text.extend_from_slice(b"\"")?;
    put_address(text, address)?;
    text.extend_from_slice(b"\"")
}

/// Appends a hardware address.
pub(crate) fn put_hardware(text: &mut Vec<u8>, hardware: &Hw) -> Result<(), AllocError>
    ensures { OnOk result (text.new.items ≡ text.old.items ++ hardware_value hardware.now) }
{
    text.extend_from_slice(b"\"")?;
    put_hex(text, &hardware.0)?;
    text.extend_from_slice(b"\"")
}

/// Appends the name of a state.
pub(crate) fn put_state(text: &mut Vec<u8>, state: State) -> Result<(), AllocError>
    ensures { OnOk result (text.new.items ≡ text.old.items ++ state_name state) }
{
    match state {
        State::Good => text.extend_from_slice(b"Good"),
        State::Suspect => text.extend_from_slice(b"Suspect"),
        State::Bad => text.extend_from_slice(b"Bad"),
        State::Last => text.extend_from_slice(b"Last"),
    }
}

/// Appends whether something holds.
pub(crate) fn put_bool(text: &mut Vec<u8>, holds: bool) -> Result<(), AllocError>
    ensures { OnOk result (text.new.items ≡ text.old.items ++ yes_or_no holds) }
{
    if holds {
        text.extend_from_slice(b"true")
    } else {
        text.extend_from_slice(b"false")
    }
}

/// Appends a mapping.
pub(crate) fn put_mapping(text: &mut Vec<u8>, mapping: &Mapping) -> Result<(), AllocError>
    ensures { OnOk result (text.new.items ≡ text.old.items ++ mapping_value mapping.now) }
{
    text.extend_from_slice(b"{address = ")?;
    put_addr(text, mapping.address)?;
    text.extend_from_slice(b", hardware = ")?;
    put_hardware(text, &mapping.hardware)?;
    text.extend_from_slice(b"}")
}
