//! Reading of frames.

ghost use Rattle.std.specs.Prelude.{◌≡◌};
ghost use Rattle.at_base.specs.Grammar.{number, run, two};
ghost use Rattle.at_base.specs.Reading as spec;
ghost use Rattle.at_base.specs.Reading.{Gives, Reads, bytes_at, field_at};
ghost use Rattle.at_base.specs.Text.{same_bytes};
ghost use Rattle.ethertalk.specs.Frames as frames_spec;
ghost use Rattle.ethertalk.specs.Frames.{any, faults, frame, framed};
ghost use Rattle.ethertalk.specs.Frames.{wrong_header, wrong_length, wrong_protocol};
ghost use Rattle.ethertalk.specs.declared.fault.Fault.TheVariants.{Cut};

use crate::fault::Fault;
use crate::frame::{AARP, DDP, Frame, LLC};
use at_base::Hw;
use station::Kind;

/// The least and the greatest length in a frame: that of the LLC header and the SNAP protocol, and
/// that of what an Ethernet carries.
const LEAST_LENGTH: u16 = 8;

const MAX_LENGTH: u16 = 1_500;

fn split(bytes: &[u8], len: usize) -> Result<(&[u8], &[u8]), Fault>
    ensures { Gives (λ x. (x.0.now, x.1.now)) result (bytes_at Cut len bytes.now) }
{
    if bytes.len() < len {
        return Err(Fault::Cut);
    }
    Ok(bytes.split_at(len))
}

fn hardware_at(bytes: &[u8]) -> Result<(Hw, &[u8]), Fault>
    ensures { Gives (λ x. (x.0.0, x.1.now)) result (field_at faults (run 6 any) bytes.now) }
{
    let (front, rest) = split(bytes, 6)?;
    let mut hardware = [0; 6];
    hardware.copy_from_slice(front);
    Ok((Hw(hardware), rest))
}

fn length_at(bytes: &[u8]) -> Result<(u16, &[u8]), Fault>
    ensures { Gives (λ x. (x.0, x.1.now)) result
        (field_at faults (number two wrong_length) bytes.now) }
{
    let (front, rest) = split(bytes, 2)?;
    let len = u16::from_be_bytes([front[0], front[1]]);
    if len < LEAST_LENGTH || MAX_LENGTH < len {
        return Err(Fault::Length);
    }
    Ok((len, rest))
}

#[inline(always)]
fn is_word(word: &[u8], other: &[u8]) -> bool
    ensures { result ≡ same_bytes word.now other.now }
{
    word == other
}

fn header_at(bytes: &[u8]) -> Result<(&[u8], &[u8]), Fault>
    ensures { Gives (λ x. (x.0.now, x.1.now)) result
        (field_at faults (run 3 wrong_header) bytes.now) }
{
    let (front, rest) = split(bytes, 3)?;
    if !is_word(front, &LLC) {
        return Err(Fault::Header);
    }
    Ok((front, rest))
}

#[inline(always)]
fn protocol_at(bytes: &[u8]) -> Result<(&[u8], &[u8]), Fault>
    ensures { Gives (λ x. (x.0.now, x.1.now)) result
        (field_at faults (run 5 wrong_protocol) bytes.now) }
{
    let (front, rest) = split(bytes, 5)?;
    if !is_word(front, &DDP) && !is_word(front, &AARP) {
        return Err(Fault::Protocol);
    }
    Ok((front, rest))
}

#[inline(always)]
fn kind_of(protocol: &[u8]) -> Kind
    ensures { result ≡ frames_spec.kind_of protocol.now }
{
    if is_word(protocol, &DDP) {
        Kind::Ddp
    } else {
        Kind::Aarp
    }
}

/// The frame at the front of the bytes, and the padding after it.
#[tactic(auto, unfolding(crate::specs::Frames::frame))]
fn frame_at(bytes: &[u8]) -> Result<(Frame, &[u8]), Fault>
    ensures { Gives (λ x. (framed x.0, x.1.now)) result (spec.read faults frame bytes.now) }
{
    let (to, rest) = hardware_at(bytes)?;
    let (from, rest) = hardware_at(rest)?;
    let (len, rest) = length_at(rest)?;
    let (_, rest) = header_at(rest)?;
    let (protocol, rest) = protocol_at(rest)?;
    let (packet, rest) = split(rest, usize::from(len) - 8)?;
    let kind = kind_of(protocol);
    Ok((
        Frame {
            to,
            from,
            kind,
            packet,
        },
        rest,
    ))
}

impl<'a> Frame<'a> {
    /// The frame at the front of the bytes; what follows its length is padding. Allocates nothing.
    ///
    /// Errors: the first fault from left to right: `Cut` where the bytes end within the frame;
    /// `Length`, `Header` or `Protocol` where that part is wrong.
    pub fn read(bytes: &'a [u8]) -> Result<Frame<'a>, Fault>
        ensures { Reads faults frame (λ f. f) framed bytes.now result }
    {
        match frame_at(bytes) {
            Ok((frame, _)) => Ok(frame),
            Err(fault) => Err(fault),
        }
    }
}
