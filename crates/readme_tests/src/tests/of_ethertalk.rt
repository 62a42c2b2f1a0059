//! The example of the README of `ethertalk`.

ghost use Rattle.std.specs.Prelude.{◌≤◌, length};

use at_base::{Error, Hw};
use ethertalk::{Fault, Frame, put_frame};
use station::Kind;
use std::alloc::{AllocError, Global};

/// The bytes of the packet in the frame at the front, or why there is none.
fn packet_in(bytes: &[u8]) -> Result<&[u8], Fault> {
    let frame = Frame::read(bytes)?;
    Ok(frame.packet)
}

/// Appends the frame of a datagram to all stations of a cable.
fn put_to_all(text: &mut Vec<u8>, from: Hw, datagram: &[u8]) -> Result<(), AllocError>
    requires { length datagram.now ≤ 1492 }
{
    let frame = Frame {
        to: Hw::ALL,
        from,
        kind: Kind::Ddp,
        packet: datagram,
    };
    put_frame(text, &frame)
}

const DATAGRAM: [u8; 13] = [0, 13, 0, 0, 0, 10, 0, 10, 7, 5, 4, 254, 4];

/// Whether the datagram is read back, with padding after it, and why bytes are no frame.
pub(super) fn a_datagram_is_read_back(alloc: Global) -> Result<bool, Error> {
    let mut text = Vec::with_capacity(alloc, 60)?;
    put_to_all(&mut text, Hw([2, 0, 0, 0, 0, 1]), &DATAGRAM)?;
    let len = text.len();
    text.extend_from_slice(&[0; 25])?;
    let bytes = text.as_slice();
    let cut = bytes.get(..34).unwrap_or(&[]);
    let of_ip = [0x02, 0, 0, 0, 0, 1, 0x02, 0, 0, 0, 0, 2, 0x08, 0x00, 0x45];
    Ok(
        len == 35
            && packet_in(bytes) == Ok(DATAGRAM.as_slice())
            && packet_in(cut) == Err(Fault::Cut)
            && packet_in(&of_ip) == Err(Fault::Length),
    )
}
