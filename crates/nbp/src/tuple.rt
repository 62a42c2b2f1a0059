//! Tuples of NBP packets: a name, and the node that has it or asks for it.

ghost use Rattle.std.specs.Prelude.{◌≡◌, ◌≤◌, length, IfOk};
ghost use Rattle.at_base.specs.Packets.{packets, any, text};
ghost use Rattle.at_base.specs.Reading.{Gives, read};
ghost use Rattle.nbp.specs.Packets as spec;

use at_base::packet::{address_at, byte_at, text_at};
use at_base::{Addr, Error, Text32};
use std::marker::Model;

/// A name, and the node that has it or asks for it.
///
/// Inside AppleTalk, the chapter on NBP.
#[derive(Clone, Copy, Debug, PartialEq, Eq)]
pub struct Tuple {
    /// The address of the node.
    pub at: Addr,
    /// The number of the node's socket.
    pub socket: u8,
    /// The number that distinguishes the names of one socket; 0 in a request.
    pub enumerator: u8,
    /// The object, or a pattern for it.
    pub object: Text32,
    /// The type, or a pattern for it.
    pub kind: Text32,
    /// The zone. In a lookup, an empty zone and `*` mean the zone of the receiving node.
    pub zone: Text32,
}

/// A tuple in place. It borrows the input. Contracts see it as a tuple.
#[derive(Debug, Drop)]
pub struct TupleView<'a> {
    at: Addr,
    socket: u8,
    enumerator: u8,
    object: &'a [u8],
    kind: &'a [u8],
    zone: &'a [u8],
}

impl<'a> Model for TupleView<'a> {
    ghost use Rattle.std.specs.Prelude.{◌≤◌, length};
    ghost use Rattle.nbp.specs.declared.tuple.Tuple.{Tuple as TupleValue};

    ghost Value = { TupleValue };

    ghost view = { λ t. record {
      at = t.at;
      socket = t.socket;
      enumerator = t.enumerator;
      object = t.object.now;
      kind = t.kind.now;
      zone = t.zone.now;
    } };

    ghost invariant = { λ t. (1 ≤ length t.object.now)
        × (length t.object.now ≤ 32)
        × (1 ≤ length t.kind.now)
        × (length t.kind.now ≤ 32)
        × (length t.zone.now ≤ 32) };
}

impl<'a> TupleView<'a> {
    /// The address of the node.
    pub fn at(&self) -> Addr
        ensures { result ≡ self.now.at }
    {
        self.at
    }

    /// The number of the node's socket.
    pub fn socket(&self) -> u8
        ensures { result ≡ self.now.socket }
    {
        self.socket
    }

    /// The number that distinguishes the names of one socket; 0 in a request.
    pub fn enumerator(&self) -> u8
        ensures { result ≡ self.now.enumerator }
    {
        self.enumerator
    }

    /// The object, or a pattern for it.
    pub fn object(&self) -> &'a [u8]
        ensures value { result.now ≡ self.now.object }
        ensures some { 1 ≤ length self.now.object }
        ensures few { length self.now.object ≤ 32 }
    {
        self.object
    }

    /// The type, or a pattern for it.
    pub fn kind(&self) -> &'a [u8]
        ensures value { result.now ≡ self.now.kind }
        ensures some { 1 ≤ length self.now.kind }
        ensures few { length self.now.kind ≤ 32 }
    {
        self.kind
    }

    /// The zone. In a lookup, an empty zone and `*` mean the zone of the receiving node.
    pub fn zone(&self) -> &'a [u8]
        ensures value { result.now ≡ self.now.zone }
        ensures few { length self.now.zone ≤ 32 }
    {
        self.zone
    }

    /// A copy of the tuple that owns its texts. Allocates nothing.
    pub fn copy(&self) -> Tuple
        ensures { result ≡ self.now }
    {
        Tuple {
            at: self.at,
            socket: self.socket,
            enumerator: self.enumerator,
            object: Text32::new(self.object).unwrap(),
            kind: Text32::new(self.kind).unwrap(),
            zone: Text32::new(self.zone).unwrap(),
        }
    }
}

/// A length-prefixed text of `least` to 32 bytes, in place.
fn name_at(bytes: &[u8], least: u8) -> Result<(&[u8], &[u8]), Error>
    ensures read { Gives (λ x. (x.0.now, x.1.now)) result
        (read packets (text least any) bytes.now) }
    ensures some { IfOk result (λ x. least ≤ length x.0.now) }
    ensures few { IfOk result (λ x. length x.0.now ≤ 32) }
{
    let (text, rest) = text_at(bytes, least)?;
    Ok((text, rest))
}

/// The tuple at the front of the bytes, and the bytes after it.
#[tactic(auto, unfolding(crate::specs::Packets::tuple))]
pub(crate) fn tuple_at(bytes: &[u8]) -> Result<(TupleView<'_>, &[u8]), Error>
    ensures { Gives (λ x. (x.0, x.1.now)) result (read packets spec.tuple bytes.now) }
{
    let (at, rest) = address_at(bytes)?;
    let (socket, rest) = byte_at(rest)?;
    let (enumerator, rest) = byte_at(rest)?;
    let (object, rest) = name_at(rest, 1)?;
    let (kind, rest) = name_at(rest, 1)?;
    let (zone, rest) = name_at(rest, 0)?;
    let tuple = TupleView {
        at,
        socket,
        enumerator,
        object,
        kind,
        zone,
    };
    Ok((tuple, rest))
}
