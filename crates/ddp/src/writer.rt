//! A writer of datagrams.

ghost use Rattle.std.specs.Prelude.{◌≡◌, ◌⊎◌, ◌<◌, ◌≤◌, ◌↔◌, ◌+◌, ◌++◌, length, drop, IfOk, IfErr};
ghost use Rattle.std.specs.Prelude.{IsOkUnless, IsTrue, if◌then◌else◌};
ghost use Rattle.at_base.specs.Spelling.{Spells};
ghost use Rattle.at_base.specs.Checksum.{sum_of};
ghost use Rattle.ddp.specs.Datagram.{datagram, unsummed, datagram_of};
ghost use Rattle.ddp.specs.InPlace.{with_sum};
ghost use Rattle.at_base.specs.Limits.{max_data};

use crate::header::{HEADER_LEN, Header};
use at_base::limits::MAX_DATA;
use at_base::{Bytes, Error, sum};
use byteorder::{BigEndian, ByteOrder};
use std::alloc::Global;

/// The bytes of the header, with hop count 0 and checksum 0.
fn header_bytes(header: &Header, payload: &[u8]) -> [u8; HEADER_LEN]
    requires { length payload.now ≤ max_data }
    ensures { Spells datagram (result ++ payload.now) (unsummed header.now payload.now) }
{
    let mut bytes = [0; HEADER_LEN];
    BigEndian::write_u16(&mut bytes, (HEADER_LEN + payload.len()) as u16);
    BigEndian::write_u16(&mut bytes[4..], header.target.net);
    BigEndian::write_u16(&mut bytes[6..], header.source.net);
    bytes[8] = header.target.node;
    bytes[9] = header.source.node;
    bytes[10] = header.target_socket;
    bytes[11] = header.source_socket;
    bytes[12] = header.kind;
    bytes
}

/// The bytes of the datagram, with checksum 0. Error: `Memory`.
fn unsummed_bytes(alloc: Global, header: &Header, payload: &[u8]) -> Result<Vec<u8>, Error>
    requires { length payload.now ≤ max_data }
    ensures written { IfOk result (λ v. Spells datagram v.items (unsummed header.now payload.now)) }
    ensures len { IfOk result (λ v. length v.items ≡ 13 + length payload.now) }
    ensures refused { IsOkUnless result Error.Memory }
{
    let mut bytes = Vec::with_capacity(alloc, HEADER_LEN + payload.len())?;
    bytes.extend_from_slice(&header_bytes(header, payload))?;
    bytes.extend_from_slice(payload)?;
    Ok(bytes)
}

/// The bytes; if `summed`, with the sum of all bytes after the checksum field in that field.
fn with_checksum(summed: bool, mut bytes: Vec<u8>) -> Vec<u8>
    requires { 13 ≤ length bytes.items }
    ensures put { result.items ≡ (if summed then with_sum bytes.items else bytes.items) }
    ensures len { length result.items ≡ length bytes.items }
    ensures fits { IsTrue summed → sum_of (drop 4 bytes.items) < 65536 }
{
    if summed {
        let checksum = sum(&bytes[4..]);
        BigEndian::write_u16(&mut bytes[2..], checksum);
    }
    bytes
}

/// The bytes of a datagram with this header and data, and hop count 0. The checksum is the sum if
/// the header asks for it, else 0. Allocates exactly the datagram's length.
///
/// Inside AppleTalk, the chapter on DDP.
///
/// Errors: `TooLong` above 586 bytes of data, `Memory`.
pub fn write(alloc: Global, header: &Header, payload: &[u8]) -> Result<Bytes, Error>
    ensures written { IfOk result
        (λ bytes. Spells datagram bytes (datagram_of header.now payload.now)) }
    ensures len { IfOk result (λ bytes. length bytes ≡ 13 + length payload.now) }
    ensures long { (result ≡ Err Error.TooLong) ↔ (max_data < length payload.now) }
    ensures refused { IfErr result (λ e. (e ≡ Error.TooLong) ⊎ (e ≡ Error.Memory)) }
{
    if payload.len() > MAX_DATA {
        return Err(Error::TooLong);
    }
    let bytes = unsummed_bytes(alloc, header, payload)?;
    Ok(Bytes::from_vec(with_checksum(header.summed, bytes)))
}
