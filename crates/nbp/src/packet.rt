//! NBP packets: a reader that borrows its input, and a writer.

ghost use Rattle.std.specs.Prelude.{◌≡◌, ◌≢◌, ◌<◌, ◌≤◌, ◌∷◌, ◌++◌, ◌*◌, ◌+◌, ◌-◌, ◌/◌, ◌%◌, List};
ghost use Rattle.std.specs.Prelude.{[], length, IfOk, IfNone, IsOkUnless};
ghost use Rattle.at_base.specs.Grammar.{number, one};
ghost use Rattle.at_base.specs.InPlace.{found};
ghost use Rattle.at_base.specs.Packets.{packets};
ghost use Rattle.at_base.specs.Reading as reading_spec;
ghost use Rattle.at_base.specs.Reading.{Gives, Reads, field_at};
ghost use Rattle.at_base.specs.Spelling.{bytes_of};
ghost use Rattle.nbp.specs.declared.packet.Function.TheVariants.{Reply};
ghost use Rattle.nbp.specs.declared.tuple.Tuple.{Tuple as TupleValue};
ghost use Rattle.nbp.specs.Packets as spec;
ghost use Rattle.nbp.specs.Packets.{wrong_head, number_of, function_of};
ghost use Rattle.nbp.specs.Packets.{tuples_read, packet_of, front_bytes};

use crate::tuple::{Tuple, TupleView, tuple_at};
use at_base::packet::byte_at;
use at_base::{Addr, Bytes, Error, Field, Text32};
use std::alloc::Global;
use std::marker::Model;

/// The function of an NBP packet.
///
/// Inside AppleTalk, the chapter on NBP.
#[derive(Clone, Copy, Debug, PartialEq, Eq)]
pub enum Function {
    /// A node asks a router to look up names in a zone.
    BroadcastRequest,
    /// The nodes of a zone on a cable are asked for their names.
    Lookup,
    /// A node replies with its names.
    Reply,
    /// A router asks the routers of another cable to look up names there.
    ForwardRequest,
}

/// The function with a number from 1 to 4.
fn named(number: u8) -> Function
    ensures { result ≡ function_of number }
{
    match number {
        1 => Function::BroadcastRequest,
        2 => Function::Lookup,
        3 => Function::Reply,
        _ => Function::ForwardRequest,
    }
}

/// The first byte: a valid function, and a valid number of tuples for it.
fn head_at(bytes: &[u8]) -> Result<(u8, &[u8]), Error>
    ensures read { Gives (λ x. (x.0, x.1.now)) result
        (field_at packets (number one wrong_head) bytes.now) }
    ensures some { IfOk result (λ x. 1 ≤ x.0 % 16) }
    ensures one { IfOk result (λ x. function_of (x.0 / 16) ≢ Reply → x.0 % 16 ≡ 1) }
{
    let (head, rest) = byte_at(bytes)?;
    let (number, count) = (head / 16, head % 16);
    if number < 1 || 4 < number {
        return Err(Error::BadField(Field::Function));
    }
    let is_reply = number == 3;
    if count != 1 && !(is_reply && 1 <= count) {
        return Err(Error::BadField(Field::Count));
    }
    Ok((head, rest))
}

/// Checks `count` tuples, and returns the bytes after them.
fn after_tuples(count: u8, bytes: &[u8]) -> Result<&[u8], Error>
    ensures { Gives (λ rest. (found (tuples_read count bytes.now), rest.now)) result
        (tuples_read count bytes.now) }
{
    if count == 0 {
        return Ok(bytes);
    }
    match tuple_at(bytes) {
        Ok((_, rest)) => after_tuples(count - 1, rest),
        Err(error) => Err(error),
    }
}

/// The packet, with its tuples in place, and the bytes after it.
#[tactic(auto, unfolding(crate::specs::Packets::packet))]
fn parts_of(bytes: &[u8]) -> Result<(Packet<'_>, &[u8]), Error>
    ensures { Gives (λ x. (x.0, x.1.now)) result (reading_spec.read packets spec.packet bytes.now) }
{
    if bytes.len() < 2 {
        return Err(Error::Truncated);
    }
    let (head, rest) = head_at(bytes)?;
    let (id, tuples) = byte_at(rest)?;
    let count = head % 16;
    let rest = after_tuples(count, tuples)?;
    let packet = Packet {
        function: named(head / 16),
        id,
        count,
        tuples,
    };
    Ok((packet, rest))
}

/// A packet in place. It borrows the input. Contracts see it as an `NbpPacket`.
///
/// Inside AppleTalk, the chapter on NBP.
#[derive(Debug, Drop)]
pub struct Packet<'a> {
    function: Function,
    id: u8,
    count: u8,
    tuples: &'a [u8],
}

impl<'a> Model for Packet<'a> {
    ghost use Rattle.std.specs.Prelude.{◌≡◌, ◌≢◌, ◌≤◌};
    ghost use Rattle.nbp.specs.declared.packet.Function.TheVariants.{Reply};
    ghost use Rattle.at_base.specs.InPlace.{found, IsFound};
    ghost use Rattle.nbp.specs.Packets.{NbpPacket, tuples_read};

    ghost Value = { NbpPacket };

    ghost view = { λ p. record {
      function = p.function;
      id = p.id;
      tuples = found (tuples_read p.count p.tuples.now);
    } };

    ghost invariant = { λ p. (1 ≤ p.count)
        × (p.function ≢ Reply → p.count ≡ 1)
        × IsFound (tuples_read p.count p.tuples.now) };
}

impl<'a> Packet<'a> {
    /// The packet at the front of the bytes. Bytes after its tuples are ignored. Allocates nothing.
    ///
    /// Errors, from left to right: `Truncated` below 2 bytes; `BadField` of `Function` where the
    /// function isn't 1 to 4, and of `Count` where the number of tuples isn't 1, or in a reply
    /// isn't at least 1; then `Truncated` where the input ends within a part, and
    /// `BadField(NameLength)` where an object or a type hasn't 1 to 32 bytes, or a zone has more
    /// than 32.
    pub fn read(bytes: &'a [u8]) -> Result<Packet<'a>, Error>
        ensures { Reads packets spec.packet (λ d. d) (λ p. p) bytes.now result }
    {
        match parts_of(bytes) {
            Ok((packet, _)) => Ok(packet),
            Err(error) => Err(error),
        }
    }

    /// The packet at the front of the bytes, if any. Allocates nothing.
    pub fn at(bytes: &'a [u8]) -> Option<Packet<'a>>
        ensures { result ≡ spec.names_in bytes.now }
    {
        Packet::read(bytes).ok()
    }

    /// The function of the packet.
    pub fn function(&self) -> Function
        ensures { result ≡ self.now.function }
    {
        self.function
    }

    /// The ID by which a node matches replies with its request.
    pub fn id(&self) -> u8
        ensures { result ≡ self.now.id }
    {
        self.id
    }

    /// The first tuple; every packet has one.
    pub fn first(&self) -> TupleView<'a>
        ensures first { (rest : List TupleValue) × (self.now.tuples ≡ result ∷ rest) }
        ensures alone { self.now.function ≢ Reply → self.now.tuples ≡ result ∷ [] }
    {
        match tuple_at(self.tuples) {
            Ok((tuple, _)) => tuple,
            Err(_) => unreachable!(),
        }
    }

    /// The tuples, in order.
    pub fn tuples(&self) -> Tuples<'a>
        ensures { result ≡ self.now.tuples }
    {
        Tuples {
            left: self.count,
            rest: self.tuples,
        }
    }
}

/// An iterator over the tuples that are left in a packet. Contracts see it as a list.
#[derive(Debug, Drop)]
pub struct Tuples<'a> {
    left: u8,
    rest: &'a [u8],
}

impl<'a> Model for Tuples<'a> {
    ghost use Rattle.std.specs.Prelude.{List};
    ghost use Rattle.nbp.specs.declared.tuple.Tuple.{Tuple as TupleValue};
    ghost use Rattle.at_base.specs.InPlace.{found, IsFound};
    ghost use Rattle.nbp.specs.Packets.{tuples_read};

    ghost Value = { List TupleValue };

    ghost view = { λ t. found (tuples_read t.left t.rest.now) };

    ghost invariant = { λ t. IsFound (tuples_read t.left t.rest.now) };
}

impl<'a> Iterator for Tuples<'a> {
    type Item = TupleView<'a>;

    ghost use Rattle.std.specs.Prelude.{◌≡◌, ◌++◌, [], length, option_to_list, IfNone};
    ghost use Rattle.std.specs.Iterator.{at_most};

    ghost next_gives = { λ old result new. (old ≡ option_to_list result ++ new)
        × IfNone result (old ≡ []) };

    ghost remaining = { λ left. at_most (length left) };

    fn next(&mut self) -> Option<TupleView<'a>> {
        if self.left == 0 {
            return None;
        }
        match tuple_at(self.rest) {
            Ok((tuple, rest)) => {
                self.left -= 1;
                self.rest = rest;
                Some(tuple)
            }
            Err(_) => unreachable!(),
        }
    }
}

/// The first byte of a packet with one tuple.
fn head(function: Function) -> u8
    ensures { result ≡ number_of function * 16 + 1 }
{
    match function {
        Function::BroadcastRequest => 0x11,
        Function::Lookup => 0x21,
        Function::Reply => 0x31,
        Function::ForwardRequest => 0x41,
    }
}

/// The bytes of a packet with one tuple before its texts.
fn front(function: Function, id: u8, at: Addr, socket: u8, enumerator: u8) -> [u8; 7]
    ensures bytes { result ≡ front_bytes function id at socket enumerator }
    ensures fits { (at.node < 256) × (socket < 256) × (enumerator < 256) }
{
    let [high, low] = at.net.to_be_bytes();
    [head(function), id, high, low, at.node, socket, enumerator]
}

/// Appends a length-prefixed text. Error: `Memory`.
fn put_text(bytes: &mut Vec<u8>, text: &Text32) -> Result<(), Error>
    ensures put { IfOk result (λ _. bytes.new.items
        ≡ bytes.old.items ++ (length text.now ∷ text.now)) }
    ensures few { length text.now ≤ 32 }
    ensures refused { IsOkUnless result Error.Memory }
{
    let text = text.as_slice();
    bytes.push(text.len() as u8)?;
    bytes.extend_from_slice(text)?;
    Ok(())
}

/// The bytes of a packet with one tuple. Allocates exactly the packet's length.
///
/// Inside AppleTalk, the chapter on NBP.
///
/// Error: `Memory`.
pub fn write(alloc: Global, function: Function, id: u8, tuple: &Tuple) -> Result<Bytes, Error>
    ensures ok { IfOk result (λ bytes. bytes
        ≡ bytes_of spec.packet (packet_of function id tuple.now)) }
    // The packet has 7 bytes, and three texts of at most 33 bytes each.
    ensures short { IfOk result (λ bytes. length bytes ≤ 106) }
    ensures refused { IsOkUnless result Error.Memory }
{
    let Tuple {
        at,
        socket,
        enumerator,
        object,
        kind,
        zone,
    } = *tuple;
    let len = object.as_slice().len() + kind.as_slice().len() + zone.as_slice().len();
    let mut bytes = Vec::with_capacity(alloc, 10 + len)?;
    bytes.extend_from_slice(&front(function, id, at, socket, enumerator))?;
    put_text(&mut bytes, &object)?;
    put_text(&mut bytes, &kind)?;
    put_text(&mut bytes, &zone)?;
    Ok(Bytes::from_vec(bytes))
}
