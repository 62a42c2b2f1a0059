//! Fields at the front of packets. Each function returns a field's value and the bytes after it, or
//! the error of the packet's reader: `Truncated` where the input ends within the field, `BadField`
//! where its value is wrong.

ghost use Rattle.at_base.specs.Grammar.{number, run, one, two};
ghost use Rattle.at_base.specs.Reading.{Gives, bytes_at, field_at, read};
ghost use Rattle.at_base.specs.Packets.{packets, any, within, only, address, text};
ghost use Rattle.at_base.specs.declared.error.Error.TheVariants.{Truncated};

use crate::address::{Addr, Hw};
use crate::error::{Error, Field};

fn split(bytes: &[u8], len: usize) -> Result<(&[u8], &[u8]), Error>
    ensures { Gives (λ x. (x.0.now, x.1.now)) result (bytes_at Truncated len bytes.now) }
{
    if bytes.len() < len {
        return Err(Error::Truncated);
    }
    Ok(bytes.split_at(len))
}

/// A number of one byte.
pub fn byte_at(bytes: &[u8]) -> Result<(u8, &[u8]), Error>
    ensures { Gives (λ x. (x.0, x.1.now)) result (field_at packets (number one any) bytes.now) }
{
    let (front, rest) = split(bytes, 1)?;
    Ok((u8::from_be_bytes([front[0]]), rest))
}

/// A number of one byte, from `least` to `most`.
pub fn byte_within(bytes: &[u8], least: u8, most: u8, what: Field) -> Result<(u8, &[u8]), Error>
    ensures { Gives (λ x. (x.0, x.1.now)) result
        (field_at packets (number one (within least most what)) bytes.now) }
{
    let (byte, rest) = byte_at(bytes)?;
    if byte < least || most < byte {
        return Err(Error::BadField(what));
    }
    Ok((byte, rest))
}

/// A byte that may have only one value.
pub fn byte_only(bytes: &[u8], value: u8, what: Field) -> Result<(u8, &[u8]), Error>
    ensures { Gives (λ x. (x.0, x.1.now)) result
        (field_at packets (number one (only value what)) bytes.now) }
{
    let (byte, rest) = byte_at(bytes)?;
    if byte != value {
        return Err(Error::BadField(what));
    }
    Ok((byte, rest))
}

/// A big-endian number of two bytes.
pub fn u16_at(bytes: &[u8]) -> Result<(u16, &[u8]), Error>
    ensures { Gives (λ x. (x.0, x.1.now)) result (field_at packets (number two any) bytes.now) }
{
    let (front, rest) = split(bytes, 2)?;
    Ok((u16::from_be_bytes([front[0], front[1]]), rest))
}

/// A big-endian number of two bytes, from `least` to `most`.
pub fn u16_within(bytes: &[u8], least: u16, most: u16, what: Field) -> Result<(u16, &[u8]), Error>
    ensures { Gives (λ x. (x.0, x.1.now)) result
        (field_at packets (number two (within least most what)) bytes.now) }
{
    let (number, rest) = u16_at(bytes)?;
    if number < least || most < number {
        return Err(Error::BadField(what));
    }
    Ok((number, rest))
}

/// A big-endian number of two bytes that may have only one value.
pub fn u16_only(bytes: &[u8], value: u16, what: Field) -> Result<(u16, &[u8]), Error>
    ensures { Gives (λ x. (x.0, x.1.now)) result
        (field_at packets (number two (only value what)) bytes.now) }
{
    let (number, rest) = u16_at(bytes)?;
    if number != value {
        return Err(Error::BadField(what));
    }
    Ok((number, rest))
}

/// The first `len` bytes, in place.
pub fn run_at(bytes: &[u8], len: usize) -> Result<(&[u8], &[u8]), Error>
    ensures { Gives (λ x. (x.0.now, x.1.now)) result (field_at packets (run len any) bytes.now) }
{
    split(bytes, len)
}

/// A hardware address of six bytes.
pub fn hardware_at(bytes: &[u8]) -> Result<(Hw, &[u8]), Error>
    ensures { Gives (λ x. (x.0.0, x.1.now)) result (field_at packets (run 6 any) bytes.now) }
{
    let (front, rest) = split(bytes, 6)?;
    let mut hardware = [0; 6];
    hardware.copy_from_slice(front);
    Ok((Hw(hardware), rest))
}

/// A network of two bytes and a node of one.
#[tactic(auto, unfolding(crate::specs::Packets::address))]
pub fn address_at(bytes: &[u8]) -> Result<(Addr, &[u8]), Error>
    ensures { Gives (λ x. (x.0, x.1.now)) result (read packets address bytes.now) }
{
    let (net, rest) = u16_at(bytes)?;
    let (node, rest) = byte_at(rest)?;
    Ok((Addr { net, node }, rest))
}

/// A length-prefixed text of `least` to 32 bytes, in place.
#[tactic(auto, unfolding(crate::specs::Packets::text))]
pub fn text_at(bytes: &[u8], least: u8) -> Result<(&[u8], &[u8]), Error>
    ensures { Gives (λ x. (x.0.now, x.1.now)) result (read packets (text least any) bytes.now) }
{
    let (len, rest) = byte_within(bytes, least, 32, Field::NameLength)?;
    run_at(rest, len as usize)
}
