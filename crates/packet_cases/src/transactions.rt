//! ATP packets.

use crate::hex_lines::{put_bytes, put_written};
use atp::Packet;
use case_words::{Answer, Stop, Words, put_hex, yes_or_no};
use std::alloc::{AllocError, Global};

/// Appends the meaning of the control byte.
fn put_control(text: &mut String, packet: &Packet<'_>) -> Result<(), AllocError> {
    let request = yes_or_no(packet.is_request());
    let response = yes_or_no(packet.is_response());
    let release = yes_or_no(packet.is_release());
    writeln!(
        text,
        "request {request}, response {response}, release {release}"
    )?;
    let once = yes_or_no(packet.is_exactly_once());
    let end = yes_or_no(packet.is_end());
    let status = yes_or_no(packet.wants_status());
    let ticks = packet.release_ticks();
    writeln!(
        text,
        "exactly once {once}, end {end}, status {status}, kept {ticks} ticks"
    )
}

/// Appends a packet.
pub(crate) fn put_packet(bytes: &[u8], text: &mut String) -> Answer {
    let packet = Packet::read(bytes)?;
    let (control, part, id) = (packet.control, packet.part, packet.id);
    write!(text, "control {control:02X} part {part:02X} ID {id} user ")?;
    put_hex(text, &packet.user)?;
    writeln!(text)?;
    put_control(text, &packet)?;
    write!(text, "data ")?;
    put_bytes(text, packet.payload)?;
    Ok(())
}

/// The four user bytes.
pub(crate) fn user(alloc: Global, words: &mut Words<'_>) -> Result<[u8; 4], Stop> {
    match words.hex(alloc)?.as_slice() {
        [a, b, c, d] => Ok([*a, *b, *c, *d]),
        _ => Err(Stop::Unclear),
    }
}

/// Writes a packet.
pub(crate) fn write(alloc: Global, mut words: Words<'_>, text: &mut String) -> Answer {
    words.expect("control")?;
    let control = words.byte()?;
    words.expect("part")?;
    let part = words.byte()?;
    let id = words.named("ID")?;
    words.expect("user")?;
    let user = user(alloc, &mut words)?;
    words.expect("data")?;
    let data = words.bytes(alloc)?;
    put_written(
        text,
        atp::write(alloc, control, part, id, user, data.as_slice())?,
    )?;
    Ok(())
}
