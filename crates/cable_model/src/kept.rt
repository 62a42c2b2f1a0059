//! The bytes that entries name.

ghost use Rattle.std.specs.Prelude.{◌≡◌, ◌≤◌, ◌<◌, ◌+◌, ◌^◌, [], ◌∷◌, ◌++◌, length, slice_get, vec_capacity};
ghost use Rattle.std.specs.Prelude.{IfNone, IfSome, OnOk};
ghost use Rattle.cable_model.specs.Kept as spec;
ghost use Rattle.cable_model.specs.Kept.{IsInside, Keeps};
ghost use Rattle.cable_model.specs.Logs.{bytes_at};

use at_base::Bytes;
use std::alloc::{AllocError, Global};
use std::marker::Model;

/// The length of an AARP packet.
pub const PACKET_LEN: usize = 28;

/// The room for packed bytes that `reserve` makes, however many items are to come: enough for 27 of
/// the longest frames, and most calls put fewer. What doesn't fit is kept as it came.
const PACKED_ROOM: usize = 16_384;

/// The most bytes in a packed run, whose number fits 16 bits. A frame has at most 599.
const MAX_RUN: usize = 65_535;

/// The most packed bytes, whose places fit 32 bits.
const MAX_PACKED: usize = 4_294_967_295;

/// The most items, whose numbers fit 32 bits.
const MAX_ITEMS: usize = 4_294_967_296;

/// Bytes that are kept by themselves, as they came.
#[derive(Drop)]
pub enum Stored {
    /// Those of a datagram or of an AARP frame that a station made.
    Made(Bytes),
    /// An AARP packet, which is kept without memory of its own.
    Packet([u8; PACKET_LEN]),
}

/// Where the bytes of an item are. There is one for each item, so it is to be small: `len` stands
/// beside the tag, in front of `start`.
#[derive(Clone, Copy)]
pub enum Span {
    /// Among the packed ones, from the place `start` on.
    Packed { len: u16, start: u32 },
    /// By themselves, with this index.
    Loose(u32),
}

const _: () = prove!(size_of::<Span>() == 8);

/// The bytes that entries name, by their numbers. They are packed one after the other, so that an
/// item takes no more than its bytes and a span. Those that don't fit behind the packed ones when
/// they come are kept by themselves: keeping bytes asks for no memory, and can't fail.
#[derive(Drop)]
pub struct Kept {
    packed: Vec<u8>,
    loose: Vec<Stored>,
    // Where the item with each number is.
    spans: Vec<Span>,
    // The number of items that there is room for, all of which may have to be kept by themselves.
    room: usize,
}

impl Model for Kept {
    ghost use Rattle.std.specs.Prelude.{map, vec_capacity};
    ghost use Rattle.cable_model.specs.Kept.{IsShelf, Shelf, spanned};

    ghost Value = { Shelf };

    ghost view = { λ k. record {
      items = map (spanned k.packed.items k.loose.items) k.spans.items;
      room = k.room;
    } };

    ghost invariant = { λ k. IsShelf k.packed.items k.loose.items k.spans.items
        k.room (vec_capacity k.loose) (vec_capacity k.spans) };
}

/// The bytes themselves.
fn slice_of(stored: &Stored) -> &[u8]
    ensures { result.now ≡ spec.stored stored.now }
{
    match stored {
        Stored::Made(bytes) => bytes.as_slice(),
        Stored::Packet(packet) => packet,
    }
}

/// The bytes of the item with an index, or no bytes.
fn slice_at(loose: &[Stored], index: u32) -> &[u8]
    ensures { result.now ≡ spec.stored_or_none (slice_get loose.now index) }
{
    match loose.get(index as usize) {
        None => &[],
        Some(stored) => slice_of(stored),
    }
}

/// The bytes that a span names.
fn spanned<'a>(packed: &'a [u8], loose: &'a [Stored], span: Span) -> &'a [u8]
    requires { IsInside (length packed.now) (length loose.now) span }
    ensures { result.now ≡ spec.spanned packed.now loose.now span }
{
    match span {
        Span::Packed { len, start } => {
            let start = start as usize;
            &packed[start..start + len as usize]
        }
        Span::Loose(index) => slice_at(loose, index),
    }
}

/// Puts bytes behind the packed ones, if they fit there without asking for memory.
fn pack(packed: &mut Vec<u8>, loose: &[Stored], bytes: &[u8]) -> Option<Span>
    ensures some { IfSome result (λ span.
        Keeps packed.old.items packed.new.items loose.now loose.now span bytes.now) }
    ensures none { IfNone result (packed.new.items ≡ packed.old.items) }
{
    let len = bytes.len();
    let start = packed.len();
    if MAX_RUN < len {
        return None;
    }
    if MAX_PACKED < start + len {
        return None;
    }
    if packed.capacity() < start + len {
        return None;
    }
    match packed.extend_from_slice(bytes) {
        Ok(()) => Some(Span::Packed {
            len: len as u16,
            start: start as u32,
        }),
        // There is room, so this asked for no memory.
        Err(_) => None,
    }
}

/// Keeps bytes, and says where: behind the packed ones, or by themselves.
fn keep(packed: &mut Vec<u8>, loose: &mut Vec<Stored>, stored: Stored) -> Span
    requires room { length loose.old.items < vec_capacity loose.old }
    requires numbered { length loose.old.items < 2 ^ 32 }
    ensures keeps { Keeps packed.old.items packed.new.items loose.old.items loose.new.items
        result (spec.stored stored) }
    ensures one { length loose.new.items ≤ length loose.old.items + 1 }
    ensures room { vec_capacity loose.new ≡ vec_capacity loose.old }
{
    match pack(packed, loose.as_slice(), slice_of(&stored)) {
        Some(span) => span,
        None => {
            let index = loose.len() as u32;
            loose.push_reserved(stored);
            Span::Loose(index)
        }
    }
}

impl Kept {
    /// No bytes.
    pub fn new(alloc: Global) -> Kept
        ensures { result.items ≡ [] }
    {
        Kept {
            packed: Vec::new(alloc),
            loose: Vec::new(alloc),
            spans: Vec::new(alloc),
            room: 0,
        }
    }

    /// How many bytes are kept.
    pub fn len(&self) -> usize
        ensures value { result ≡ length self.now.items }
        ensures within { result ≤ self.now.room }
    {
        self.spans.len()
    }

    /// Makes room for further bytes.
    pub fn reserve(&mut self, more: usize) -> Result<(), AllocError>
        ensures items { self.new.items ≡ self.old.items }
        ensures ok { OnOk result (length self.new.items + more ≤ self.new.room) }
        ensures grown { self.old.room ≤ self.new.room }
    {
        let len = self.spans.len();
        if MAX_ITEMS - len < more {
            return Err(AllocError);
        }
        self.spans.reserve(more)?;
        self.loose.reserve(more)?;
        self.packed.reserve(PACKED_ROOM)?;
        if self.room < len + more {
            self.room = len + more;
        }
        Ok(())
    }

    /// The bytes with a number, or no bytes for a number that isn't in use.
    pub fn get(&self, number: u32) -> &[u8]
        ensures { result.now ≡ bytes_at self.now.items number }
    {
        match self.spans.get(number as usize) {
            None => &[],
            Some(span) => spanned(self.packed.as_slice(), self.loose.as_slice(), *span),
        }
    }

    /// Keeps bytes.
    pub fn push(&mut self, bytes: Bytes)
        requires { length self.old.items < self.old.room }
        ensures items { self.new.items ≡ self.old.items ++ bytes ∷ [] }
        ensures room { self.new.room ≡ self.old.room }
    {
        let span = keep(&mut self.packed, &mut self.loose, Stored::Made(bytes));
        self.spans.push_reserved(span);
    }

    /// Keeps an AARP packet.
    pub fn push_packet(&mut self, packet: [u8; PACKET_LEN])
        requires { length self.old.items < self.old.room }
        ensures items { self.new.items ≡ self.old.items ++ packet ∷ [] }
        ensures room { self.new.room ≡ self.old.room }
    {
        let span = keep(&mut self.packed, &mut self.loose, Stored::Packet(packet));
        self.spans.push_reserved(span);
    }
}
