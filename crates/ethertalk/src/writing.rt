//! Writing of frames.

ghost use Rattle.std.specs.Prelude.{◌≡◌, ◌++◌, ◌≤◌, length, OnOk};
ghost use Rattle.std.specs.Int.{to_be_bytes, w16};
ghost use Rattle.at_base.specs.Spelling.{bytes_of};
ghost use Rattle.ethertalk.specs.Frames as spec;
ghost use Rattle.ethertalk.specs.Frames.{framed, llc, max_bytes, protocol_of};

use crate::frame::{AARP, DDP, Frame, LLC};
use station::Kind;
use std::alloc::AllocError;

/// The SNAP protocol of a kind of packets.
fn protocol(kind: Kind) -> [u8; 5]
    ensures { result ≡ protocol_of kind }
{
    match kind {
        Kind::Ddp => DDP,
        Kind::Aarp => AARP,
    }
}

/// A length, the LLC header and the SNAP protocol.
fn headers_of(len: u16, kind: Kind) -> [u8; 10]
    ensures { result ≡ to_be_bytes w16 len ++ (llc ++ protocol_of kind) }
{
    let [high, low] = len.to_be_bytes();
    let [first, second, third] = LLC;
    let [a, b, c, d, e] = protocol(kind);
    [high, low, first, second, third, a, b, c, d, e]
}

/// Appends the target and the source.
fn put_addresses(text: &mut Vec<u8>, frame: &Frame) -> Result<(), AllocError>
    ensures { OnOk result (text.new.items
        ≡ text.old.items ++ (frame.now.to.0 ++ frame.now.from.0)) }
{
    text.extend_from_slice(&frame.to.0)?;
    text.extend_from_slice(&frame.from.0)
}

/// Appends a frame, without padding. Error: no memory; then a part of it may have been appended.
///
/// Inside AppleTalk, the chapter on EtherTalk.
pub fn put_frame(text: &mut Vec<u8>, frame: &Frame) -> Result<(), AllocError>
    requires { length frame.now.packet.now ≤ max_bytes }
    ensures { OnOk result (text.new.items ≡ text.old.items ++ bytes_of spec.frame (framed frame.now)) }
{
    put_addresses(text, frame)?;
    let len = 8 + frame.packet.len() as u16;
    text.extend_from_slice(&headers_of(len, frame.kind))?;
    text.extend_from_slice(frame.packet)?;
    Ok(())
}
