//! A reader of datagrams that borrows its input.

ghost use Rattle.std.specs.Prelude.{◌≡◌, ◌⊎◌, ◌↔◌, ◌≤◌, length, IsOk, IsOkUnless};
ghost use Rattle.at_base.specs.Reading.{Gives, Reads};
ghost use Rattle.ddp.specs.Datagram.{datagram, length_of, checksum_of};
ghost use Rattle.at_base.specs.Packets.{packets};
ghost use Rattle.at_base.specs.Spelling.{Spells};
ghost use Rattle.ddp.specs.InPlace.{extent};
ghost use Rattle.at_base.specs.Limits.{max_data};

use crate::header::{HEADER_LEN, MAX_LEN};
use at_base::{Addr, Error, sum};
use byteorder::{BigEndian, ByteOrder};
use std::marker::Model;

/// A datagram with a long header, in place. It borrows the input. Bytes after its length are
/// padding and aren't part of it.
///
/// Inside AppleTalk, the chapter on DDP.
#[derive(Debug, Drop)]
pub struct View<'a> {
    bytes: &'a [u8],
}

impl<'a> Model for View<'a> {
    ghost use Rattle.ddp.specs.Datagram.{Datagram};
    ghost use Rattle.ddp.specs.InPlace.{datagram_in, IsDatagram};

    ghost Value = { Datagram };

    ghost view = { λ v. datagram_in v.bytes.now };

    ghost invariant = { λ v. IsDatagram v.bytes.now };
}

/// The length of the datagram at the front of the bytes. Errors: `Truncated`, `BadLength`.
fn extent_of(bytes: &[u8]) -> Result<usize, Error>
    ensures { Gives (λ n. n) result (extent bytes.now) }
{
    if bytes.len() < HEADER_LEN {
        return Err(Error::Truncated);
    }
    let len = usize::from(BigEndian::read_u16(bytes) % 1024);
    if len < HEADER_LEN || MAX_LEN < len {
        return Err(Error::BadLength);
    }
    if bytes.len() < len {
        return Err(Error::Truncated);
    }
    Ok(len)
}

impl<'a> View<'a> {
    /// The datagram at the front of the bytes. The two top bits of its first byte are ignored.
    ///
    /// Errors: `Truncated` where the input ends within the header or before the length in the
    /// header; `BadLength` where that length isn't 13 to 599 bytes.
    pub fn read(bytes: &'a [u8]) -> Result<View<'a>, Error>
        ensures { Reads packets datagram (λ d. d) (λ v. v) bytes.now result }
    {
        match extent_of(bytes) {
            Ok(end) => Ok(View {
                bytes: &bytes[..end],
            }),
            Err(error) => Err(error),
        }
    }

    /// The length of header and data together: 13 to 599 bytes.
    pub fn length(&self) -> u16
        ensures { result ≡ length_of self.now }
    {
        self.bytes.len() as u16
    }

    /// The number of routers that the datagram has passed, 0 to 15.
    pub fn hops(&self) -> u8
        ensures value { result ≡ self.now.hops }
        ensures few { self.now.hops ≤ 15 }
    {
        self.bytes[0] / 4 % 16
    }

    /// The checksum field; 0 if the sender gave none.
    pub fn checksum(&self) -> u16
        ensures { result ≡ self.now.checksum }
    {
        BigEndian::read_u16(&self.bytes[2..])
    }

    /// The destination node.
    pub fn target(&self) -> Addr
        ensures { result ≡ self.now.target }
    {
        Addr {
            net: BigEndian::read_u16(&self.bytes[4..]),
            node: self.bytes[8],
        }
    }

    /// The sending node.
    pub fn source(&self) -> Addr
        ensures { result ≡ self.now.source }
    {
        Addr {
            net: BigEndian::read_u16(&self.bytes[6..]),
            node: self.bytes[9],
        }
    }

    /// The destination socket.
    pub fn target_socket(&self) -> u8
        ensures { result ≡ self.now.target_socket }
    {
        self.bytes[10]
    }

    /// The sending socket.
    pub fn source_socket(&self) -> u8
        ensures { result ≡ self.now.source_socket }
    {
        self.bytes[11]
    }

    /// The protocol of the data, as in `kind`.
    pub fn kind(&self) -> u8
        ensures { result ≡ self.now.kind }
    {
        self.bytes[12]
    }

    /// The data, in place: 0 to 586 bytes.
    pub fn payload(&self) -> &'a [u8]
        ensures value { result.now ≡ self.now.payload }
        ensures short { length self.now.payload ≤ max_data }
    {
        &self.bytes[HEADER_LEN..]
    }

    /// The bytes of the datagram, in place, without padding.
    pub fn as_bytes(&self) -> &'a [u8]
        ensures value { Spells datagram result.now self.now }
        ensures least { 13 ≤ length result.now }
    {
        self.bytes
    }

    /// Checks that the checksum field is 0 or the sum of the bytes after it.
    ///
    /// Error: `BadChecksum`, exactly where the field is neither.
    pub fn check(&self) -> Result<(), Error>
        ensures ok { IsOk result
            ↔ ((self.now.checksum ≡ 0) ⊎ (self.now.checksum ≡ checksum_of self.now)) }
        ensures refused { IsOkUnless result Error.BadChecksum }
    {
        let checksum = self.checksum();
        if checksum == 0 || checksum == sum(&self.bytes[4..]) {
            Ok(())
        } else {
            Err(Error::BadChecksum)
        }
    }
}
