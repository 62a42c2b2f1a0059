//! Labels: their texts, and how they end.

ghost use Rattle.std.specs.Prelude.{◌≡◌, ◌++◌, ◌+◌, OnOk, if◌then◌else◌};
ghost use Rattle.std.specs.List.{flat_map};
ghost use Rattle.at_base.specs.Text as text_spec;
ghost use Rattle.drawing.specs.Labels as spec;
ghost use Rattle.drawing.specs.Labels.{change_line, fault_line, label_end, mark_line, marked_end, number, part_text};
ghost use Rattle.drawing.specs.Labels.{shown, text_line};

use crate::marks::Mark;
use at_base::{Fault, Place};
use std::alloc::AllocError;
use text::put_decimal;

/// Appends these bytes.
pub(crate) fn put_letters(text: &mut Vec<u8>, bytes: &[u8]) -> Result<(), AllocError>
    ensures { OnOk result (text.new.items ≡ text.old.items ++ bytes.now) }
{
    text.extend_from_slice(bytes)
}

/// Whether a byte is a space or a printable character of ASCII.
fn is_printable(byte: u8) -> bool
    ensures { result ≡ text_spec.is_printable byte }
{
    0x20 <= byte && byte <= 0x7E
}

/// The byte, or a question mark in its place if it isn't printable.
fn printable(byte: u8) -> u8
    ensures { result ≡ (if text_spec.is_printable byte then byte else 63) }
{
    if is_printable(byte) { byte } else { b'?' }
}

/// Appends a byte of a text.
fn put_shown(text: &mut Vec<u8>, byte: u8) -> Result<(), AllocError>
    ensures { OnOk result (text.new.items ≡ text.old.items ++ shown byte) }
{
    if byte == b'"' || byte == b'\\' {
        text.push(b'\\')?;
        text.push(byte)?;
    } else if byte == b'&' {
        text.extend_from_slice(b"&amp;")?;
    } else {
        text.push(printable(byte))?;
    }
    Ok(())
}

/// Appends the bytes of a text.
pub(crate) fn put_text(text: &mut Vec<u8>, bytes: &[u8]) -> Result<(), AllocError>
    ensures { OnOk result (text.new.items ≡ text.old.items ++ flat_map shown bytes.now) }
{
    match bytes {
        [] => Ok(()),
        [first, rest @ ..] => {
            put_shown(text, *first)?;
            put_text(text, rest)
        }
    }
}

/// Appends a further line, which has a text.
pub(crate) fn put_line(text: &mut Vec<u8>, bytes: &[u8]) -> Result<(), AllocError>
    ensures { OnOk result (text.new.items ≡ text.old.items ++ text_line bytes.now) }
{
    text.extend_from_slice(b"\\n")?;
    put_text(text, bytes)
}

/// Appends the number of what has an index.
pub(crate) fn put_number(text: &mut Vec<u8>, index: u8) -> Result<(), AllocError>
    ensures { OnOk result (text.new.items ≡ text.old.items ++ number index) }
{
    put_decimal(text, u32::from(index) + 1)
}

/// Appends the part of a router where a rule is broken, if the place is one.
fn put_part(text: &mut Vec<u8>, place: Place) -> Result<(), AllocError>
    ensures { OnOk result (text.new.items ≡ text.old.items ++ part_text place) }
{
    match place {
        Place::Cable(_) | Place::Port(_, _) | Place::Node(_) => Ok(()),
        Place::Row(_, k) => {
            text.extend_from_slice(b" row ")?;
            put_decimal(text, k)
        }
        Place::Missing(_, k) => {
            text.extend_from_slice(b" cable ")?;
            put_decimal(text, k)
        }
        Place::List(_, k) => {
            text.extend_from_slice(b" list ")?;
            put_decimal(text, k)
        }
    }
}

/// Appends the broken rule, as the last line of a red label.
fn put_fault(text: &mut Vec<u8>, fault: Fault) -> Result<(), AllocError>
    ensures { OnOk result (text.new.items ≡ text.old.items ++ fault_line fault) }
{
    text.extend_from_slice(b"\\nC")?;
    put_decimal(text, u32::from(fault.rule))?;
    put_part(text, fault.place)
}

/// Appends the row that may change, as the last line of an orange label.
fn put_change(text: &mut Vec<u8>, place: Place) -> Result<(), AllocError>
    ensures { OnOk result (text.new.items ≡ text.old.items ++ change_line place) }
{
    put_letters(text, b"\\nmay change:")?;
    put_part(text, place)
}

/// The end of the label of a mark, and of its line: its colour.
fn ending(mark: Mark) -> &'static [u8]
    ensures { result.now ≡ spec.ending mark }
{
    match mark {
        Mark::Broken(_) => b"\", color=red, fontcolor=red];\n",
        Mark::MayChange(_) => b"\", color=darkorange, fontcolor=darkorange];\n",
    }
}

/// Appends the last line of the label of a mark.
fn put_mark(text: &mut Vec<u8>, mark: Mark) -> Result<(), AllocError>
    ensures { OnOk result (text.new.items ≡ text.old.items ++ mark_line mark) }
{
    match mark {
        Mark::Broken(fault) => put_fault(text, fault),
        Mark::MayChange(place) => put_change(text, place),
    }
}

/// Appends the end of the label of a mark, and of its line.
fn put_marked_end(text: &mut Vec<u8>, mark: Mark) -> Result<(), AllocError>
    ensures { OnOk result (text.new.items ≡ text.old.items ++ marked_end mark) }
{
    put_mark(text, mark)?;
    put_letters(text, ending(mark))
}

/// Appends the end of a label, and of its line.
pub(crate) fn put_end(text: &mut Vec<u8>, mark: Option<Mark>) -> Result<(), AllocError>
    ensures { OnOk result (text.new.items ≡ text.old.items ++ label_end mark) }
{
    match mark {
        None => text.extend_from_slice(b"\"];\n"),
        Some(found) => put_marked_end(text, found),
    }
}
