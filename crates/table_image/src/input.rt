//! Fields at the front of bytes. Each function returns a field's value and the bytes after it, or
//! the fault.

ghost use Rattle.std.specs.Prelude.{◌≡◌, ◌+◌, length};
ghost use Rattle.at_base.specs.Grammar.{number, run, one, two};
ghost use Rattle.at_base.specs.Reading.{Gives, bytes_at, field_at, read};
ghost use Rattle.at_base.specs.Text as spec;
ghost use Rattle.at_base.specs.Text.{is_name};
ghost use Rattle.table_image.specs.Counts.{size_of};
ghost use Rattle.table_image.specs.Flaws.{faults};
ghost use Rattle.table_image.specs.Tests.{address_rising, any, below, enumerator, is_magic};
ghost use Rattle.table_image.specs.Tests.{rising, within};
ghost use Rattle.table_image.specs.Spelling.{address_spelling, text_spelling};

use crate::count::CountSize;
use crate::flaw::Fault;
use crate::limits::MAX_TEXT;
use crate::sizes::{BYTE_SIZE, HARDWARE_SIZE, NETWORK_SIZE};
use at_base::{Addr, Cause, Hw, Name, Text32, is_entity, is_zone_name};

fn cut() -> Fault
    ensures { result ≡ record { left = 0; cause = Cause.Cut } }
{
    Fault {
        left: 0,
        cause: Cause::Cut,
    }
}

/// The fault of the field at the front of the bytes.
pub fn wrong(bytes: &[u8], cause: Cause) -> Fault
    ensures { result ≡ record { left = length bytes.now; cause = cause } }
{
    Fault {
        left: bytes.len(),
        cause,
    }
}

fn split(bytes: &[u8], len: usize) -> Result<(&[u8], &[u8]), Fault>
    ensures { Gives (λ x. (x.0.now, x.1.now)) result (bytes_at faults.cut len bytes.now) }
{
    if bytes.len() < len {
        return Err(cut());
    }
    Ok(bytes.split_at(len))
}

/// A byte from `least` to `most`.
pub fn byte_within(bytes: &[u8], least: u8, most: u8, cause: Cause) -> Result<(u8, &[u8]), Fault>
    ensures { Gives (λ x. (x.0, x.1.now)) result
        (field_at faults (number one (within least most cause)) bytes.now) }
{
    let (front, rest) = split(bytes, BYTE_SIZE)?;
    let byte = u8::from_be_bytes([front[0]]);
    if byte < least || most < byte {
        return Err(wrong(bytes, cause));
    }
    Ok((byte, rest))
}

fn byte_at(bytes: &[u8]) -> Result<(u8, &[u8]), Fault>
    ensures { Gives (λ x. (x.0, x.1.now)) result (field_at faults (number one any) bytes.now) }
{
    let (front, rest) = split(bytes, BYTE_SIZE)?;
    Ok((u8::from_be_bytes([front[0]]), rest))
}

// A count of this size.
#[inline(always)]
fn count_at(bytes: &[u8], size: CountSize) -> Result<(u16, &[u8]), Fault>
    ensures { Gives (λ x. (x.0, x.1.now)) result
        (field_at faults (number (size_of size) any) bytes.now) }
{
    match size {
        CountSize::One => {
            let (count, rest) = byte_at(bytes)?;
            Ok((u16::from(count), rest))
        }
        CountSize::Two => u16_at(bytes),
    }
}

/// A count of this size, at most the limit.
#[inline(always)]
pub fn count_within(bytes: &[u8], size: CountSize, limit: usize) -> Result<(u16, &[u8]), Fault>
    ensures { Gives (λ x. (x.0, x.1.now)) result
        (field_at faults (number (size_of size) (within 0 limit Cause.Count)) bytes.now) }
{
    let (count, rest) = count_at(bytes, size)?;
    if limit < count as usize {
        return Err(wrong(bytes, Cause::Count));
    }
    Ok((count, rest))
}

/// A 0-based index into a list of `count`.
pub fn index_at(bytes: &[u8], count: usize) -> Result<(u8, &[u8]), Fault>
    ensures { Gives (λ x. (x.0, x.1.now)) result
        (field_at faults (number one (below count)) bytes.now) }
{
    let (index, rest) = byte_at(bytes)?;
    if index as usize >= count {
        return Err(wrong(bytes, Cause::Index));
    }
    Ok((index, rest))
}

/// An enumerator that is not below `low`.
pub(crate) fn enumerator_at(bytes: &[u8], low: u32) -> Result<(u8, &[u8]), Fault>
    ensures { Gives (λ x. (x.0, x.1.now)) result
        (field_at faults (number one (enumerator low)) bytes.now) }
{
    let (number, rest) = byte_at(bytes)?;
    if number < 1 {
        return Err(wrong(bytes, Cause::Value));
    }
    if u32::from(number) < low {
        return Err(wrong(bytes, Cause::Order));
    }
    Ok((number, rest))
}

/// A number of two bytes.
pub fn u16_at(bytes: &[u8]) -> Result<(u16, &[u8]), Fault>
    ensures { Gives (λ x. (x.0, x.1.now)) result (field_at faults (number two any) bytes.now) }
{
    let (front, rest) = split(bytes, NETWORK_SIZE)?;
    Ok((u16::from_be_bytes([front[0], front[1]]), rest))
}

/// A number of two bytes that is not below `low`.
pub fn rising_at(bytes: &[u8], low: u32) -> Result<(u16, &[u8]), Fault>
    ensures { Gives (λ x. (x.0, x.1.now)) result
        (field_at faults (number two (rising low)) bytes.now) }
{
    let (number, rest) = u16_at(bytes)?;
    if u32::from(number) < low {
        return Err(wrong(bytes, Cause::Order));
    }
    Ok((number, rest))
}

/// The node of an address whose network was read before it, where the address is not below `low`.
/// An address below it is reported at its network.
pub fn address_node_at(bytes: &[u8], low: u32, net: u16) -> Result<(u8, &[u8]), Fault>
    ensures { Gives (λ x. (x.0, x.1.now)) result
        (field_at faults (number one (address_rising low net)) bytes.now) }
{
    let (node, rest) = byte_at(bytes)?;
    if u32::from(net) * 256 + u32::from(node) < low {
        return Err(Fault {
            left: NETWORK_SIZE + bytes.len(),
            cause: Cause::Order,
        });
    }
    Ok((node, rest))
}

/// The four bytes at the front of an image.
pub fn magic_at(bytes: &[u8]) -> Result<(&[u8], &[u8]), Fault>
    ensures { Gives (λ x. (x.0.now, x.1.now)) result (field_at faults (run 4 is_magic) bytes.now) }
{
    let (front, rest) = split(bytes, 4)?;
    if front[0] != 0x41 || front[1] != 0x54 || front[2] != 0x49 || front[3] != 0x4D {
        return Err(wrong(bytes, Cause::Magic));
    }
    Ok((front, rest))
}

/// A hardware address.
pub fn hardware_at(bytes: &[u8]) -> Result<(Hw, &[u8]), Fault>
    ensures { Gives (λ x. (x.0.0, x.1.now)) result (field_at faults (run 6 any) bytes.now) }
{
    let (front, rest) = split(bytes, HARDWARE_SIZE)?;
    let mut hardware = [0; 6];
    hardware.copy_from_slice(front);
    Ok((Hw(hardware), rest))
}

/// A network address.
#[tactic(auto, unfolding(crate::specs::Spelling::address_spelling))]
pub fn address_at(bytes: &[u8]) -> Result<(Addr, &[u8]), Fault>
    ensures { Gives (λ x. (x.0, x.1.now)) result (read faults address_spelling bytes.now) }
{
    let (net, rest) = u16_at(bytes)?;
    let (node, rest) = byte_at(rest)?;
    Ok((Addr { net, node }, rest))
}

// A bad text is reported at its length byte, the one before its first byte.
fn wrong_text(after: &[u8]) -> Fault
    ensures { result ≡ record { left = 1 + length after.now; cause = Cause.Name } }
{
    Fault {
        left: 1 + after.len(),
        cause: Cause::Name,
    }
}

/// A zone name.
#[tactic(auto, unfolding(crate::specs::Spelling::text_spelling))]
pub fn name_at(bytes: &[u8]) -> Result<(Name, &[u8]), Fault>
    ensures { Gives (λ x. (x.0, x.1.now)) result (read faults (text_spelling is_name) bytes.now) }
{
    let (len, after) = byte_within(bytes, 1, MAX_TEXT, Cause::Name)?;
    let (text, rest) = split(after, len as usize)?;
    if !is_zone_name(text) {
        return Err(wrong_text(after));
    }
    Ok((Name::of(text), rest))
}

/// An object or a type of a node's name.
#[tactic(auto, unfolding(crate::specs::Spelling::text_spelling))]
pub(crate) fn entity_at(bytes: &[u8]) -> Result<(Text32, &[u8]), Fault>
    ensures { Gives (λ x. (x.0, x.1.now)) result
        (read faults (text_spelling spec.is_entity) bytes.now) }
{
    let (len, after) = byte_within(bytes, 1, MAX_TEXT, Cause::Name)?;
    let (text, rest) = split(after, len as usize)?;
    if !is_entity(text) {
        return Err(wrong_text(after));
    }
    match Text32::new(text) {
        Ok(kept) => Ok((kept, rest)),
        Err(_) => Err(wrong_text(after)),
    }
}
