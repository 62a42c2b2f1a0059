//! Tuples as they are written in a packet of routing data.

ghost use Rattle.std.specs.Prelude.{◌≡◌, IfOk, nat_le};
ghost use Rattle.at_base.specs.Grammar.{number, one};
ghost use Rattle.at_base.specs.Packets.{packets};
ghost use Rattle.at_base.specs.Reading.{Gives, field_at, read};
ghost use Rattle.rtmp.specs.Data as spec;
ghost use Rattle.rtmp.specs.Data.{wrong_extension, wrong_third};

use crate::tuple::{AnyTuple, Tuple};
use at_base::in_place::ItemFormat;
use at_base::packet::{byte_at, u16_at};
use at_base::{Error, Field, Range};

/// What only an extended tuple has: a range, whose end follows the third byte, and the version
/// byte.
#[derive(Clone, Copy, Debug, PartialEq, Eq)]
pub(crate) struct Extension {
    pub(crate) range: Range,
    pub(crate) version: u8,
}

/// A tuple as it is written. The third byte has the distance, and whether the tuple is extended.
#[derive(Clone, Copy, Debug, PartialEq, Eq)]
pub(crate) struct Written {
    pub(crate) start: u16,
    pub(crate) third: u8,
    pub(crate) extension: Option<Extension>,
}

/// The third byte of a tuple. In the first tuple (`low` 0) it must mark the tuple as extended.
fn third_at(low: u32, bytes: &[u8]) -> Result<(u8, &[u8]), Error>
    ensures { Gives (λ x. (x.0, x.1.now)) result
        (field_at packets (number one (wrong_third low)) bytes.now) }
{
    let (third, rest) = byte_at(bytes)?;
    if low == 0 && third < 128 {
        return Err(Error::BadField(Field::Version));
    }
    Ok((third, rest))
}

/// The last byte of an extended tuple. The tuple's range is checked there.
fn version_at(
    low: u32,
    start: u16,
    third: u8,
    end: u16,
    bytes: &[u8],
) -> Result<(Extension, &[u8]), Error>
    ensures read { Gives (λ x. (x.0.version, x.1.now)) result
        (field_at packets (number one (wrong_extension low start third end)) bytes.now) }
    ensures range { IfOk result (λ x. x.0.range ≡ record { start = start; end = end }) }
{
    let (version, rest) = byte_at(bytes)?;
    if low == 0 && (third % 32 != 0 || version != 0x82) {
        return Err(Error::BadField(Field::Version));
    }
    let range = Range::new(start, end)?;
    Ok((Extension { range, version }, rest))
}

/// The bytes after the third byte, which only an extended tuple has.
fn extension_at(
    low: u32,
    start: u16,
    third: u8,
    bytes: &[u8],
) -> Result<(Option<Extension>, &[u8]), Error>
    ensures { Gives (λ x. (x.0, x.1.now)) result
        (read packets (spec.extension_at low start third (nat_le 128 third)) bytes.now) }
{
    if third < 128 {
        return Ok((None, bytes));
    }
    let (end, rest) = u16_at(bytes)?;
    match version_at(low, start, third, end, rest) {
        Ok((extension, rest)) => Ok((Some(extension), rest)),
        Err(error) => Err(error),
    }
}

/// The format of a tuple.
#[derive(Clone, Copy, Debug)]
pub(crate) struct WrittenFormat;

impl ItemFormat for WrittenFormat {
    type Item = Written;

    ghost use Rattle.rtmp.specs.Data.{written_tuple};

    ghost format = { λ f. written_tuple };

    ghost next = { λ f t. 1 };

    /// The first tuple of a packet if `low` is 0, else a later one.
    #[tactic(auto, unfolding(crate::specs::Data::written_tuple))]
    fn item_at(self, low: u32, bytes: &[u8]) -> Result<(Written, &[u8]), Error> {
        let (start, rest) = u16_at(bytes)?;
        let (third, rest) = third_at(low, rest)?;
        match extension_at(low, start, third, rest) {
            Ok((extension, rest)) => {
                let written = Written {
                    start,
                    third,
                    extension,
                };
                Ok((written, rest))
            }
            Err(error) => Err(error),
        }
    }

    fn low_after(self, _written: &Written) -> u32 {
        1
    }

    #[tactic(auto, using(crate::proofs::Shape::written_lawful, crate::proofs::Shape::written_long))]
    fn are_items(self) {}
}

/// The tuple with its kind.
#[inline(always)]
pub(crate) fn any_of(written: &Written) -> AnyTuple
    ensures { result ≡ spec.any_of written.now }
{
    let distance = written.third % 32;
    match written.extension {
        Some(Extension { range, .. }) => AnyTuple::Extended(Tuple { range, distance }),
        None => AnyTuple::Nonextended(written.start, distance),
    }
}
