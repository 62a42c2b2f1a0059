//! The lines of answers, for a person.

use crate::shown::put_text;
use crate::words::put_question;
use at_base::{Addr, Range};
use rtmp::Tuple;
use std::alloc::AllocError;
use survey::Question;
use text::{put_address, put_decimal};

/// A service that has a name.
#[derive(Clone, Copy)]
pub(crate) struct Named<'a> {
    pub(crate) object: &'a [u8],
    pub(crate) kind: &'a [u8],
    pub(crate) zone: &'a [u8],
    pub(crate) at: Addr,
    pub(crate) socket: u8,
}

/// Appends a range.
fn put_range(lines: &mut Vec<u8>, range: Range) -> Result<(), AllocError> {
    put_decimal(lines, u32::from(range.start()))?;
    lines.extend_from_slice(b"-")?;
    put_decimal(lines, u32::from(range.end()))
}

/// Appends a number of three digits.
fn put_thousandths(lines: &mut Vec<u8>, number: u32) -> Result<(), AllocError> {
    put_decimal(lines, number / 100 % 10)?;
    put_decimal(lines, number / 10 % 10)?;
    put_decimal(lines, number % 10)
}

/// Appends that an echo came, after so many microseconds.
pub(crate) fn put_echo(
    lines: &mut Vec<u8>,
    from: Addr,
    microseconds: u32,
) -> Result<(), AllocError> {
    put_address(lines, from)?;
    lines.extend_from_slice(b": ")?;
    put_decimal(lines, microseconds / 1_000)?;
    lines.extend_from_slice(b".")?;
    put_thousandths(lines, microseconds % 1_000)?;
    lines.extend_from_slice(b" ms\n")
}

/// Appends a name, and who has it.
pub(crate) fn put_named(lines: &mut Vec<u8>, it: &Named<'_>) -> Result<(), AllocError> {
    put_text(lines, it.object)?;
    lines.extend_from_slice(b":")?;
    put_text(lines, it.kind)?;
    lines.extend_from_slice(b"@")?;
    put_text(lines, it.zone)?;
    lines.extend_from_slice(b" ")?;
    put_address(lines, it.at)?;
    lines.extend_from_slice(b" ")?;
    put_decimal(lines, u32::from(it.socket))?;
    lines.extend_from_slice(b"\n")
}

/// Appends the name of a zone.
pub(crate) fn put_zone(lines: &mut Vec<u8>, name: &[u8]) -> Result<(), AllocError> {
    put_text(lines, name)?;
    lines.extend_from_slice(b"\n")
}

/// Appends a range that a router told of.
pub(crate) fn put_route(lines: &mut Vec<u8>, tuple: &Tuple, from: Addr) -> Result<(), AllocError> {
    put_range(lines, tuple.range)?;
    lines.extend_from_slice(b" ")?;
    put_decimal(lines, u32::from(tuple.distance))?;
    lines.extend_from_slice(b" from ")?;
    put_address(lines, from)?;
    lines.extend_from_slice(b"\n")
}

/// Appends that no answer to a question came.
pub(crate) fn put_silence(lines: &mut Vec<u8>, question: &Question) -> Result<(), AllocError> {
    put_address(lines, question.to)?;
    lines.extend_from_slice(b": no answer to ")?;
    put_question(lines, &question.wanted)?;
    lines.extend_from_slice(b", or none that can be read\n")
}

/// Appends how many answers weren't told.
pub(crate) fn put_more(lines: &mut Vec<u8>, count: u32) -> Result<(), AllocError> {
    put_decimal(lines, count)?;
    lines.extend_from_slice(b" more answers came than are told\n")
}
