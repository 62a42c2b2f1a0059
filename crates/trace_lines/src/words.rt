//! The words in lines.

ghost use Rattle.std.specs.Prelude.{◌≡◌, ◌++◌, OnOk};
ghost use Rattle.ddp.specs.Bodies as spec;
ghost use Rattle.ddp.specs.Bodies.{body};
ghost use Rattle.trace_lines.specs.Lines.{cause_text, how_text, who_text};
ghost use Rattle.text.specs.Digits.{hex_text};

use crate::stations::Stations;
use at_base::Hw;
use cable_model::How;
use station::DropCause;
use std::alloc::AllocError;
use text::{put_address, put_decimal, put_hex};

/// Appends the receiver of a frame on a cable.
pub(crate) fn put_who(
    text: &mut Vec<u8>,
    stations: &Stations,
    cable: u8,
    to: &Hw,
) -> Result<(), AllocError>
    ensures { OnOk result (text.new.items
        ≡ text.old.items ++ who_text stations.now cable to.now) }
{
    if to.is_all() {
        return text.extend_from_slice(b"all");
    }
    if let Some(group) = to.group() {
        text.extend_from_slice(b"group ")?;
        return put_decimal(text, u32::from(group));
    }
    put_address(text, stations.holder(cable, to))
}

/// Appends how a datagram reached a cable.
pub(crate) fn put_how(text: &mut Vec<u8>, how: How) -> Result<(), AllocError>
    ensures { OnOk result (text.new.items ≡ text.old.items ++ how_text how) }
{
    match how {
        How::Station => text.extend_from_slice(b"station"),
        How::All => text.extend_from_slice(b"all"),
        How::Own => text.extend_from_slice(b"own"),
        How::Absent => text.extend_from_slice(b"absent"),
        How::Held => text.extend_from_slice(b"held"),
    }
}

/// Appends why a datagram was dropped.
pub(crate) fn put_cause(text: &mut Vec<u8>, cause: DropCause) -> Result<(), AllocError>
    ensures { OnOk result (text.new.items ≡ text.old.items ++ cause_text cause) }
{
    match cause {
        DropCause::NoRoute => text.extend_from_slice(b"NoRoute"),
        DropCause::HopLimit => text.extend_from_slice(b"HopLimit"),
    }
}

/// The value of a datagram's length field. Missing bytes count as 0.
fn named_length(bytes: &[u8]) -> usize
    ensures { result ≡ spec.named_length bytes.now }
{
    match bytes {
        [] => 0,
        [high] => usize::from(*high % 4) * 256,
        [high, low, ..] => usize::from(*high % 4) * 256 + usize::from(*low),
    }
}

/// Appends a datagram's body in hexadecimal digits: as many bytes as its length field says, with
/// hop count 0.
pub(crate) fn put_body(text: &mut Vec<u8>, bytes: &[u8]) -> Result<(), AllocError>
    ensures { OnOk result (text.new.items ≡ text.old.items ++ hex_text (body bytes.now)) }
{
    let len = named_length(bytes).min(bytes.len());
    match &bytes[..len] {
        [] => Ok(()),
        [first, rest @ ..] => {
            // The hop count is between the two top bits and the two highest bits of the length.
            put_hex(text, &[*first / 64 * 64 + *first % 4])?;
            put_hex(text, rest)
        }
    }
}
