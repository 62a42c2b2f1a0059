//! A reader of packets of routing data, in place.

ghost use Rattle.std.specs.Prelude.{◌≡◌, [], map};
ghost use Rattle.at_base.specs.Packets.{packets};
ghost use Rattle.at_base.specs.Reading as spec;
ghost use Rattle.at_base.specs.Reading.{Gives, Reads};
ghost use Rattle.rtmp.specs.Data.{any_of, own_range, routing_data, routing_in, tuples_heard, tuples_of};

use crate::tuple::{AnyTuple, Nonextended, Tuple};
use crate::written::{WrittenFormat, any_of};
use at_base::in_place::{Items, all_items};
use at_base::packet::{byte_at, byte_only, u16_at};
use at_base::{Addr, Error, Field, Range};
use std::marker::Model;

/// The router that sends the packet, and the tuples.
#[tactic(auto, unfolding(crate::specs::Data::routing_data))]
fn parts_of(bytes: &[u8]) -> Result<(Addr, Items<'_, WrittenFormat>), Error>
    ensures { Gives (λ x. (record { router = x.0; written = x.1 }, [])) result
        (spec.read packets routing_data bytes.now) }
{
    if bytes.len() < 4 {
        return Err(Error::Truncated);
    }
    let (net, rest) = u16_at(bytes)?;
    let (_, rest) = byte_only(rest, 8, Field::IdLength)?;
    let (node, rest) = byte_at(rest)?;
    let written = all_items(WrittenFormat, rest)?;
    if written.is_empty() {
        return Err(Error::Truncated);
    }
    Ok((Addr { net, node }, written))
}

/// A packet of routing data, in place: the router that sends it, and the distances of ranges from
/// that router.
///
/// Inside AppleTalk, the chapter on RTMP.
#[derive(Debug, Drop)]
pub struct DataPacket<'a> {
    router: Addr,
    written: Items<'a, WrittenFormat>,
}

impl<'a> Model for DataPacket<'a> {
    ghost use Rattle.std.specs.Prelude.{◌≢◌, []};
    ghost use Rattle.rtmp.specs.Data.{RoutingData, tuples_of};

    ghost Value = { RoutingData };

    ghost view = { λ p. record { router = p.router; written = p.written } };

    ghost invariant = { λ p. tuples_of p.written ≢ [] };
}

impl<'a> DataPacket<'a> {
    /// The packet in the bytes, which goes up to their end. Allocates nothing.
    ///
    /// Errors, tuple by tuple: `Truncated` where the input ends within a part, or has no tuple;
    /// `BadField` of `IdLength` where the node isn't 8 bits long, and of `Version` where the first
    /// tuple isn't extended, with distance 0 and version byte 82; `BadRange` where the range of an
    /// extended tuple isn't valid.
    pub fn read(bytes: &'a [u8]) -> Result<DataPacket<'a>, Error>
        ensures { Reads packets routing_data (λ d. d) (λ p. p) bytes.now result }
    {
        match parts_of(bytes) {
            Ok((router, written)) => Ok(DataPacket { router, written }),
            Err(error) => Err(error),
        }
    }

    /// The packet in the bytes, if they are one. Allocates nothing.
    pub fn at(bytes: &'a [u8]) -> Option<DataPacket<'a>>
        ensures { result ≡ routing_in bytes.now }
    {
        DataPacket::read(bytes).ok()
    }

    /// The router that sends the packet.
    pub fn router(&self) -> Addr
        ensures { result ≡ self.now.router }
    {
        self.router
    }

    /// The range of the cable of the sender's port: the range of the first tuple.
    pub fn own(&self) -> Range
        ensures { result ≡ own_range self.now }
    {
        let mut tuples = Tuples {
            written: self.written.again(),
            nonextended: Nonextended::Skipped,
        };
        match tuples.next() {
            Some(first) => first.range,
            None => unreachable!(),
        }
    }

    /// The extended tuples, in order; the first has the range of the sender's port.
    pub fn tuples(&self) -> Tuples<'a>
        ensures { result ≡ tuples_of self.now.written }
    {
        self.heard(Nonextended::Skipped)
    }

    /// What is heard of the tuples, in order: the extended ones, and, as ranges of one network,
    /// nonextended ones where these count.
    pub fn heard(&self, nonextended: Nonextended) -> Tuples<'a>
        ensures { result ≡ tuples_heard nonextended self.now.written }
    {
        Tuples {
            written: self.written.again(),
            nonextended,
        }
    }

    /// The tuples of either kind, in order.
    pub fn all(&self) -> AllTuples<'a>
        ensures { result ≡ map any_of self.now.written }
    {
        AllTuples {
            written: self.written.again(),
        }
    }
}

/// An iterator over what is heard of the tuples that are left in a packet of routing data. Contracts
/// see it as a list.
#[derive(Debug, Drop)]
pub struct Tuples<'a> {
    written: Items<'a, WrittenFormat>,
    nonextended: Nonextended,
}

impl<'a> Model for Tuples<'a> {
    ghost use Rattle.std.specs.Prelude.{List};
    ghost use Rattle.rtmp.specs.declared.tuple.Tuple.{Tuple as TupleValue};
    ghost use Rattle.rtmp.specs.Data.{tuples_heard};

    ghost Value = { List TupleValue };

    ghost view = { λ t. tuples_heard t.nonextended t.written };
}

impl<'a> Iterator for Tuples<'a> {
    type Item = Tuple;

    ghost use Rattle.std.specs.Prelude.{◌≡◌, ◌++◌, [], length, option_to_list, IfNone};
    ghost use Rattle.std.specs.Iterator.{at_most};

    ghost next_gives = { λ old result new. (old ≡ option_to_list result ++ new)
        × IfNone result (old ≡ []) };

    ghost remaining = { λ left. at_most (length left) };

    // Put into its callers, where what is made of nonextended tuples is known.
    #[inline(always)]
    fn next(&mut self) -> Option<Tuple> {
        while let Some(written) = self.written.next() {
            if let Some(tuple) = any_of(&written).heard(self.nonextended) {
                return Some(tuple);
            }
        }
        None
    }
}

/// An iterator over the tuples of either kind that are left in a packet of routing data. Contracts
/// see it as a list.
#[derive(Debug, Drop)]
pub struct AllTuples<'a> {
    written: Items<'a, WrittenFormat>,
}

impl<'a> Model for AllTuples<'a> {
    ghost use Rattle.std.specs.Prelude.{List, map};
    ghost use Rattle.rtmp.specs.declared.tuple.AnyTuple.{AnyTuple as TupleValue};
    ghost use Rattle.rtmp.specs.Data.{any_of};

    ghost Value = { List TupleValue };

    ghost view = { λ t. map any_of t.written };
}

impl<'a> Iterator for AllTuples<'a> {
    type Item = AnyTuple;

    ghost use Rattle.std.specs.Prelude.{◌≡◌, ◌++◌, [], length, option_to_list, IfNone};
    ghost use Rattle.std.specs.Iterator.{at_most};

    ghost next_gives = { λ old result new. (old ≡ option_to_list result ++ new)
        × IfNone result (old ≡ []) };

    ghost remaining = { λ left. at_most (length left) };

    fn next(&mut self) -> Option<AnyTuple> {
        match self.written.next() {
            Some(written) => Some(any_of(&written)),
            None => None,
        }
    }
}
