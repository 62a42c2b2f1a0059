//! The heads of blocks.

ghost use Rattle.std.specs.Prelude.{◌≡◌, ◌≤◌, IfOk, length};
ghost use Rattle.pcapng.specs.Heads as spec;
ghost use Rattle.pcapng.specs.Heads.{FitsItem, max_block};

use crate::fault::Fault;
use crate::form::{Began, Forms};
use crate::item::{Fraction, Item};
use crate::order::{Order, run_of};

/// The bytes that the head of a block is read from: of a pcapng block its type, its length, and a
/// section header's order of bytes; of a classic record its time and how many bytes were captured.
pub const HEAD_LEN: usize = 12;

/// The most bytes of a block that is read as a whole.
pub const MAX_BLOCK: usize = 2_048;

/// The type of a section header, which is the same in both orders of bytes.
pub(crate) const SECTION: u32 = 0x0A0D_0D0A;

/// The number that a section header has its order of bytes by.
const MAGIC: u32 = 0x1A2B_3C4D;

/// The numbers that a classic capture begins with, by what the fractions of a second are in.
const MICROS: u32 = 0xA1B2_C3D4;

const NANOS: u32 = 0xA1B2_3C4D;

/// The bytes of a classic capture's header.
const HEADER_LEN: u32 = 24;

/// The bytes of the fields in front of what a record of a classic capture has captured.
const FIELDS_LEN: u32 = 16;

/// The head of a block.
#[derive(Clone, Copy, Debug, PartialEq, Eq)]
pub struct Head {
    /// The order of the bytes of its numbers.
    pub order: Order,
    /// What the block is.
    pub item: Item,
    /// Its length in bytes, the head with it. A block of pcapng has its length once more at its end,
    /// and that counts too.
    pub len: u32,
}

fn magic_order(bytes: &[u8]) -> Result<Order, Fault>
    requires { length bytes.now ≡ 4 }
    ensures { result ≡ spec.magic_order bytes.now }
{
    if Order::Big.four_in(bytes) == MAGIC {
        Ok(Order::Big)
    } else if Order::Little.four_in(bytes) == MAGIC {
        Ok(Order::Little)
    } else {
        Err(Fault::Order)
    }
}

fn checked_head(order: Order, kind: u32, len: u32) -> Result<Head, Fault>
    ensures value { result ≡ spec.checked_head order kind len }
    ensures fits { IfOk result (λ head. FitsItem head.item head.len) }
{
    if len < 12 || len % 4 != 0 {
        return Err(Fault::Length);
    }
    Ok(Head {
        order,
        item: Item::Block(kind),
        len,
    })
}

fn block_head(kind: &[u8], len: &[u8], order: Order) -> Result<Head, Fault>
    requires kind { length kind.now ≡ 4 }
    requires len { length len.now ≡ 4 }
    ensures value { result ≡ spec.block_head kind.now len.now order }
    ensures fits { IfOk result (λ head. FitsItem head.item head.len) }
{
    checked_head(order, order.four_in(kind), order.four_in(len))
}

fn section_head(kind: &[u8], len: &[u8], magic: &[u8]) -> Result<Head, Fault>
    requires kind { length kind.now ≡ 4 }
    requires len { length len.now ≡ 4 }
    requires magic { length magic.now ≡ 4 }
    ensures value { result ≡ spec.section_head kind.now len.now magic.now }
    ensures fits { IfOk result (λ head. FitsItem head.item head.len) }
{
    match magic_order(magic) {
        Ok(order) => block_head(kind, len, order),
        Err(fault) => Err(fault),
    }
}

fn is_section(kind: &[u8]) -> bool
    requires { length kind.now ≡ 4 }
    ensures { result ≡ spec.is_section kind.now }
{
    Order::Big.four_in(kind) == SECTION
}

fn header_head(order: Order, fraction: Fraction) -> Head
    ensures { result ≡ spec.header_head order fraction }
{
    Head {
        order,
        item: Item::Header(fraction),
        len: HEADER_LEN,
    }
}

/// The head of a classic capture's header with this magic number.
fn classic_head(magic: &[u8]) -> Result<Head, Fault>
    requires { length magic.now ≡ 4 }
    ensures value { result ≡ spec.classic_head magic.now }
    ensures fits { IfOk result (λ head. FitsItem head.item head.len) }
{
    if Order::Big.four_in(magic) == MICROS {
        Ok(header_head(Order::Big, Fraction::Micros))
    } else if Order::Little.four_in(magic) == MICROS {
        Ok(header_head(Order::Little, Fraction::Micros))
    } else if Order::Big.four_in(magic) == NANOS {
        Ok(header_head(Order::Big, Fraction::Nanos))
    } else if Order::Little.four_in(magic) == NANOS {
        Ok(header_head(Order::Little, Fraction::Nanos))
    } else {
        Err(Fault::Order)
    }
}

/// The head of a record of which so many bytes were captured.
fn record_head(order: Order, captured: u32) -> Result<Head, Fault>
    ensures value { result ≡ spec.record_head order captured }
    ensures fits { IfOk result (λ head. FitsItem head.item head.len) }
{
    if captured > u32::MAX - FIELDS_LEN {
        return Err(Fault::Length);
    }
    Ok(Head {
        order,
        item: Item::Record,
        len: FIELDS_LEN + captured,
    })
}

fn other_head(forms: Forms, magic: &[u8]) -> Result<Head, Fault>
    requires { length magic.now ≡ 4 }
    ensures value { result ≡ spec.other_head forms magic.now }
    ensures fits { IfOk result (λ head. FitsItem head.item head.len) }
{
    match forms {
        Forms::Pcapng => Err(Fault::Order),
        Forms::Either => classic_head(magic),
    }
}

#[inline(always)]
fn head_by(began: Began, first: &[u8], second: &[u8], third: &[u8]) -> Result<Head, Fault>
    requires first { length first.now ≡ 4 }
    requires second { length second.now ≡ 4 }
    requires third { length third.now ≡ 4 }
    ensures value { result ≡ spec.head_by began first.now second.now third.now }
    ensures fits { IfOk result (λ head. FitsItem head.item head.len) }
{
    match began {
        Began::Nothing(forms) => {
            if is_section(first) {
                section_head(first, second, third)
            } else {
                other_head(forms, first)
            }
        }
        Began::Pcapng(order) => {
            if is_section(first) {
                section_head(first, second, third)
            } else {
                block_head(first, second, order)
            }
        }
        Began::Classic(order) => record_head(order, order.four_in(third)),
    }
}

impl Head {
    /// The head of the block at the front of the bytes, in a capture that began like this.
    ///
    /// Errors: `Cut` below 12 bytes; `Order` where nothing began yet and the block is no section
    /// header, nor the header of a classic capture, if there may be one, and where a section header
    /// has no order of bytes; `Length` where the length of a pcapng block isn't a multiple of four or
    /// is less than 12, or that of a record has more than 32 bits.
    #[inline(always)]
    pub fn read(began: Began, bytes: &[u8]) -> Result<Head, Fault>
        ensures read { result ≡ spec.head_of began bytes.now }
        ensures least { IfOk result (λ head. 12 ≤ head.len) }
        ensures fits { IfOk result (λ head. FitsItem head.item head.len) }
    {
        let (first, rest) = run_of(bytes, 4)?;
        let (second, rest) = run_of(rest, 4)?;
        let (third, _) = run_of(rest, 4)?;
        head_by(began, first, second, third)
    }

    /// How many bytes of the block are looked at: all of it, or the first 2,048 of a longer one, and
    /// of a longer record of a classic capture its fields.
    pub fn front(self) -> usize
        ensures value { result ≡ spec.front self }
        ensures few { result ≤ max_block }
    {
        if self.len as usize <= MAX_BLOCK {
            return self.len as usize;
        }
        match self.item {
            Item::Block(_) => MAX_BLOCK,
            Item::Header(_) => MAX_BLOCK,
            Item::Record => FIELDS_LEN as usize,
        }
    }
}
