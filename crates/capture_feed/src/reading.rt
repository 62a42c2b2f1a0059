//! Reading a block from bytes that begin with it.

ghost use Rattle.std.specs.Prelude.{◌≡◌, ◌<◌, IfOk, IfSome, length};
ghost use Rattle.capture_feed.specs.Reads.{HasLast, IsNext};
ghost use Rattle.capture_feed.specs.Stages as spec;
ghost use Rattle.pcapng.specs.Heads.{FitsItem};

use crate::passing::{Last, Passing};
use pcapng::{Block, Fault, HEAD_LEN, Head, Item, MAX_BLOCK, Section};

/// What the last four bytes of a long block are.
fn last_of(head: Head) -> Last
    ensures { result ≡ spec.last_of head }
{
    match head.item {
        Item::Block(_) => Last::Length(head.order, head.len),
        Item::Header(_) => Last::Any,
        Item::Record => Last::Any,
    }
}

/// What is passed over after the bytes of a block that are looked at.
fn passing_of(head: Head) -> Option<Passing>
    requires { FitsItem head.item head.len }
    ensures value { result ≡ spec.passing_of head }
    ensures last { HasLast result }
{
    if head.len as usize <= MAX_BLOCK {
        return None;
    }
    Some(Passing {
        last: last_of(head),
        left: head.len - head.front() as u32,
    })
}

/// A block that was read.
#[derive(Drop)]
pub(crate) struct Read<'a> {
    pub(crate) block: Block<'a>,
    /// What is left of it.
    pub(crate) passing: Option<Passing>,
    /// The bytes after what was looked at.
    pub(crate) rest: &'a [u8],
}

/// The block at the front of the bytes; none, where they end within what is looked at.
#[inline(always)]
pub(crate) fn read_block<'a>(
    section: &mut Section,
    bytes: &'a [u8],
) -> Result<Option<Read<'a>>, Fault>
    ensures next { IsNext result section.old section.new
        (spec.block_next section.old bytes.now) }
    ensures less { IfOk result (λ o. IfSome o (λ r. length r.rest.now < length bytes.now)) }
{
    if bytes.len() < HEAD_LEN {
        return Ok(None);
    }
    let head = Head::read(section.began(), &bytes[..HEAD_LEN])?;
    let front = head.front();
    if bytes.len() < front {
        return Ok(None);
    }
    let (bytes, rest) = bytes.split_at(front);
    let block = section.block(head, bytes)?;
    Ok(Some(Read {
        block,
        passing: passing_of(head),
        rest,
    }))
}
