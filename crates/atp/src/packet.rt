//! ATP packets: a reader that borrows its input, and a writer.

ghost use Rattle.std.specs.Prelude.{◌≡◌, ◌⊎◌, ◌<◌, ◌≤◌, ◌↔◌, [], length, option_map, IfOk, IfErr};
ghost use Rattle.at_base.specs.Grammar.{number, run, one};
ghost use Rattle.at_base.specs.Packets.{packets, any};
ghost use Rattle.at_base.specs.Reading as reading_spec;
ghost use Rattle.at_base.specs.Reading.{Gives, Reads, field_at, many_at};
ghost use Rattle.at_base.specs.Spelling.{bytes_of};
ghost use Rattle.atp.specs.Packets as spec;
ghost use Rattle.atp.specs.Packets.{data_byte, wrong_control, wrong_part};
ghost use Rattle.atp.specs.InPlace.{packet_value, transaction_in};
ghost use Rattle.at_base.specs.Limits.{max_data};

use at_base::packet::{byte_at, run_at, u16_at};
use at_base::{Bytes, Error, Field};
use std::alloc::Global;

/// The length of the header, in bytes.
pub const HEADER_LEN: usize = 8;

/// The greatest number of bytes of data in a packet.
pub const MAX_DATA: usize = 578;

/// The greatest number of parts of a response.
pub const MAX_PARTS: usize = 8;

/// A packet in place. It borrows the input.
///
/// Inside AppleTalk, the chapter on ATP.
#[derive(Clone, Copy, Debug)]
pub struct Packet<'a> {
    /// The control byte: the kind of packet, and its flags.
    pub control: u8,
    /// In a request, the bitmap of the parts that it asks for; in a response, the number of the
    /// part.
    pub part: u8,
    /// The ID of the transaction, which its requester chose.
    pub id: u16,
    /// Four bytes for the users of the transaction.
    pub user: [u8; 4],
    /// The data: 0 to 578 bytes.
    pub payload: &'a [u8],
}

/// The control byte. Its two top bits aren't both 0.
fn control_at(bytes: &[u8]) -> Result<(u8, &[u8]), Error>
    ensures { Gives (λ x. (x.0, x.1.now)) result
        (field_at packets (number one wrong_control) bytes.now) }
{
    let (control, rest) = byte_at(bytes)?;
    if control / 64 == 0 {
        return Err(Error::BadField(Field::Control));
    }
    Ok((control, rest))
}

/// The bitmap of a request, or the part number of a response, which is at most 7.
fn part_at(control: u8, bytes: &[u8]) -> Result<(u8, &[u8]), Error>
    ensures { Gives (λ x. (x.0, x.1.now)) result
        (field_at packets (number one (wrong_part control)) bytes.now) }
{
    let (part, rest) = byte_at(bytes)?;
    if control / 64 == 2 && 7 < part {
        return Err(Error::BadField(Field::Sequence));
    }
    Ok((part, rest))
}

/// The four user bytes.
fn user_at(bytes: &[u8]) -> Result<([u8; 4], &[u8]), Error>
    ensures { Gives (λ x. (x.0, x.1.now)) result (field_at packets (run 4 any) bytes.now) }
{
    let (front, rest) = run_at(bytes, 4)?;
    let mut user = [0; 4];
    user.copy_from_slice(front);
    Ok((user, rest))
}

/// The data: all bytes that are left.
#[tactic(auto, using(crate::proofs::Payload::whole_read))]
fn data_at(bytes: &[u8]) -> &[u8]
    ensures all { result.now ≡ bytes.now }
    ensures read { many_at (λ low. reading_spec.read packets (data_byte low)) (λ b. 0) 0
        (length bytes.now) bytes.now ≡ Ok result.now }
{
    bytes
}

/// The fields, with the data in place.
#[tactic(auto, unfolding(crate::specs::Packets::packet))]
fn parts_of(bytes: &[u8]) -> Result<Packet<'_>, Error>
    ensures { Gives (λ p. (packet_value p, [])) result
        (reading_spec.read packets spec.packet bytes.now) }
{
    if bytes.len() < HEADER_LEN {
        return Err(Error::Truncated);
    }
    if HEADER_LEN + MAX_DATA < bytes.len() {
        return Err(Error::BadLength);
    }
    let (control, rest) = control_at(bytes)?;
    let (part, rest) = part_at(control, rest)?;
    let (id, rest) = u16_at(rest)?;
    let (user, rest) = user_at(rest)?;
    let payload = data_at(rest);
    Ok(Packet {
        control,
        part,
        id,
        user,
        payload,
    })
}

impl<'a> Packet<'a> {
    /// The packet in the bytes, which goes up to their end. Allocates nothing.
    ///
    /// Errors: `Truncated` below 8 bytes; `BadLength` above 586; `BadField` of `Control` where the
    /// two top bits of the first byte are 0, and of `Sequence` where a response's part number is
    /// above 7.
    pub fn read(bytes: &'a [u8]) -> Result<Packet<'a>, Error>
        ensures { Reads packets spec.packet (λ d. d) packet_value bytes.now result }
    {
        parts_of(bytes)
    }

    /// The packet in the bytes, if they are one. Allocates nothing.
    pub fn at(bytes: &'a [u8]) -> Option<Packet<'a>>
        ensures { option_map packet_value result ≡ transaction_in bytes.now }
    {
        Packet::read(bytes).ok()
    }

    /// Whether the packet is a request.
    pub fn is_request(&self) -> bool
        ensures { result ≡ spec.is_request self.now.control }
    {
        self.control / 64 == 1
    }

    /// Whether the packet is a part of a response.
    pub fn is_response(&self) -> bool
        ensures { result ≡ spec.is_response self.now.control }
    {
        self.control / 64 == 2
    }

    /// Whether the packet is a release, which says that the requester has the whole response.
    pub fn is_release(&self) -> bool
        ensures { result ≡ spec.is_release self.now.control }
    {
        self.control / 64 == 3
    }

    /// Whether the responder is to handle the request exactly once.
    pub fn is_exactly_once(&self) -> bool
        ensures { result ≡ spec.is_exactly_once self.now.control }
    {
        self.control / 32 % 2 == 1
    }

    /// Whether this is the last part of the response.
    pub fn is_end(&self) -> bool
        ensures { result ≡ spec.is_end self.now.control }
    {
        self.control / 16 % 2 == 1
    }

    /// Whether the responder asks for the request again at once, to learn which parts are missing.
    pub fn wants_status(&self) -> bool
        ensures { result ≡ spec.wants_status self.now.control }
    {
        self.control / 8 % 2 == 1
    }

    /// The time for which an answer to the request is kept, in ticks of a fifth of a second.
    pub fn release_ticks(&self) -> u16
        ensures { result ≡ spec.release_ticks self.now.control }
    {
        match self.control % 8 {
            0 => 150,
            1 => 300,
            2 => 600,
            3 => 1200,
            _ => 2400,
        }
    }
}

/// The bytes of a packet. Allocates exactly the packet's length.
///
/// Inside AppleTalk, the chapter on ATP.
///
/// Errors: `TooLong` above 578 bytes of data, `Memory`.
pub fn write(
    alloc: Global,
    control: u8,
    part: u8,
    id: u16,
    user: [u8; 4],
    payload: &[u8],
) -> Result<Bytes, Error>
    ensures ok { IfOk result (λ bytes. bytes ≡ bytes_of spec.packet (record {
      control = control;
      part = part;
      id = id;
      user = user;
      payload = payload.now;
    })) }
    ensures short { IfOk result (λ bytes. length bytes ≤ max_data) }
    ensures long { (result ≡ Err Error.TooLong) ↔ (578 < length payload.now) }
    ensures refused { IfErr result (λ e. (e ≡ Error.TooLong) ⊎ (e ≡ Error.Memory)) }
{
    if MAX_DATA < payload.len() {
        return Err(Error::TooLong);
    }
    let mut bytes = Vec::with_capacity(alloc, HEADER_LEN + payload.len())?;
    let [high, low] = id.to_be_bytes();
    bytes.extend_from_slice(&[control, part, high, low])?;
    bytes.extend_from_slice(&user)?;
    bytes.extend_from_slice(payload)?;
    Ok(Bytes::from_vec(bytes))
}
