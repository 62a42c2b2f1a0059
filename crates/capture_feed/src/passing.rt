//! Blocks that are too long to be kept.

ghost use Rattle.std.specs.Prelude.{◌≡◌, ◌≤◌, ◌<◌, ◌+◌, ◌++◌, [], IfOk, IfSome, Some, length, vec_capacity};
ghost use Rattle.capture_feed.specs.Feeds.{IsPassed};
ghost use Rattle.capture_feed.specs.Reads.{left_of};
ghost use Rattle.capture_feed.specs.Skipping.{IsSkipped, KeepsLast};
ghost use Rattle.capture_feed.specs.Stages as spec;
ghost use Rattle.pcapng.specs.Heads.{max_block};

use crate::kept::fill;
use pcapng::{Fault, Order};

/// The bytes of the second length of a block. Of what has none, as many are the last.
const LAST_LEN: usize = 4;

/// What the last four bytes of a block are that is passed over.
#[derive(Clone, Copy, Debug, PartialEq, Eq)]
pub enum Last {
    /// Its length once more, in this order of bytes.
    Length(Order, u32),
    /// Any bytes: a record of a classic capture has one length.
    Any,
}

/// What is left of a long block that is passed over.
#[derive(Clone, Copy, Debug, PartialEq, Eq)]
pub struct Passing {
    /// What its last four bytes are.
    pub last: Last,
    /// How many of its bytes are left, these with them.
    pub left: u32,
}

/// Whether these are right as the last bytes of a block.
fn is_last(last: Last, bytes: &[u8]) -> bool
    requires { length bytes.now ≡ 4 }
    ensures { result ≡ spec.is_last last bytes.now }
{
    match last {
        Last::Length(order, len) => order.four_in(bytes) == len,
        Last::Any => true,
    }
}

/// Skips what is left of a block before its last four bytes, as far as the piece goes.
fn skip(before: Passing, piece: &[u8]) -> (Passing, &[u8])
    requires { 4 ≤ before.left }
    ensures { IsSkipped before piece.now result.0 result.1.now }
{
    let skipped = (before.left as usize - LAST_LEN).min(piece.len());
    let after = Passing {
        left: before.left - skipped as u32,
        ..before
    };
    let (_, rest) = piece.split_at(skipped);
    (after, rest)
}

/// Passes over what is left of a block, as far as the piece goes; of its last four bytes a part is
/// kept, where the piece ends within them. Error: `Length`, where its two lengths differ.
pub(crate) fn pass_over<'a>(
    before: Passing,
    passing: &mut Option<Passing>,
    kept: &mut Vec<u8>,
    piece: &'a [u8],
) -> Result<Option<&'a [u8]>, Fault>
    requires keeps { KeepsLast before kept.old.items }
    requires room { max_block ≤ vec_capacity kept.old }
    ensures passed { IsPassed (Some before) (kept.old.items ++ piece.now) (left_of result)
        passing.new kept.new.items }
    ensures fewer { IfOk result (λ o. IfSome o (λ rest.
        length rest.now ≤ length kept.old.items + length piece.now)) }
    ensures room { vec_capacity kept.old ≤ vec_capacity kept.new }
{
    let (after, rest) = skip(before, piece);
    let rest = fill(kept, rest, LAST_LEN);
    if kept.len() < LAST_LEN {
        *passing = Some(after);
        return Ok(None);
    }
    if !is_last(before.last, kept.as_slice()) {
        return Err(Fault::Length);
    }
    kept.clear();
    *passing = None;
    Ok(Some(rest))
}
