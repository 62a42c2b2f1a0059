//! Taking a block from what was kept and a piece.

ghost use Rattle.std.specs.Prelude.{◌≡◌, ◌<◌, ◌≤◌, ◌+◌, ◌++◌, [], IfErr, IfOk, IfSome, List, length, vec_capacity, ℕ};
ghost use Rattle.capture_feed.specs.Reads.{IsFilled, IsTaken, seen};
ghost use Rattle.capture_feed.specs.Stages.{block_next, refuses, waits};
ghost use Rattle.pcapng.specs.Heads.{max_block};

use crate::kept::fill;
use crate::listener::Listen;
use crate::passing::Passing;
use crate::reading::{Read, read_block};
use pcapng::{Fault, HEAD_LEN, Head, MAX_BLOCK, Section};

/// A block that was told: what is left of it, and the bytes after it.
#[derive(Drop)]
pub(crate) struct Taken<'a> {
    pub(crate) passing: Option<Passing>,
    pub(crate) rest: &'a [u8],
}

/// Takes the block at the front of a piece, where nothing was kept.
fn take_here<'a, L: Listen>(
    section: &mut Section,
    kept: &mut Vec<u8>,
    piece: &'a [u8],
    listener: &mut L,
) -> Result<Option<Taken<'a>>, Fault>
    requires none { kept.old.items ≡ [] }
    requires room { max_block ≤ vec_capacity kept.old }
    ensures taken { IsTaken L.heard section.old piece.now listener.old (seen result) section.new
        kept.new.items listener.new }
    ensures less { IfOk result (λ o. IfSome o (λ t.
        length t.rest.now < length kept.old.items + length piece.now)) }
    ensures room { vec_capacity kept.old ≤ vec_capacity kept.new }
{
    match read_block(section, piece) {
        Ok(
            Some(
                Read {
                    block,
                    passing,
                    rest,
                },
            ),
        ) => {
            listener.hear(&block);
            Ok(Some(Taken { passing, rest }))
        }
        Ok(None) => {
            fill(kept, piece, MAX_BLOCK);
            Ok(None)
        }
        Err(fault) => Err(fault),
    }
}

/// Fills up what was kept of a block to the end of what is looked at, as far as the piece goes, and
/// returns what is left of the piece.
fn fill_up<'a>(section: &Section, kept: &mut Vec<u8>, piece: &'a [u8]) -> Result<&'a [u8], Fault>
    requires waits { block_next section.now kept.old.items ≡ waits }
    requires room { max_block ≤ vec_capacity kept.old }
    ensures filled { IfOk result (λ rest. IsFilled section.now kept.new.items rest.now
        (kept.old.items ++ piece.now)) }
    ensures refused { IfErr result (λ f. (more : List ℕ)
        → block_next section.now ((kept.old.items ++ piece.now) ++ more) ≡ refuses f) }
    ensures room { vec_capacity kept.old ≤ vec_capacity kept.new }
{
    let rest = fill(kept, piece, HEAD_LEN);
    if kept.len() < HEAD_LEN {
        return Ok(rest);
    }
    match Head::read(section.began(), &kept.as_slice()[..HEAD_LEN]) {
        Ok(head) => Ok(fill(kept, rest, head.front())),
        Err(fault) => Err(fault),
    }
}

/// Takes the block of which a part was kept.
fn take_kept<'a, L: Listen>(
    section: &mut Section,
    kept: &mut Vec<u8>,
    piece: &'a [u8],
    listener: &mut L,
) -> Result<Option<Taken<'a>>, Fault>
    requires waits { block_next section.old kept.old.items ≡ waits }
    requires room { max_block ≤ vec_capacity kept.old }
    ensures taken { IsTaken L.heard section.old (kept.old.items ++ piece.now) listener.old
        (seen result) section.new kept.new.items listener.new }
    ensures less { IfOk result (λ o. IfSome o (λ t.
        length t.rest.now < length kept.old.items + length piece.now)) }
    ensures room { vec_capacity kept.old ≤ vec_capacity kept.new }
{
    let rest = match fill_up(section, kept, piece) {
        Ok(rest) => rest,
        Err(fault) => return Err(fault),
    };
    match read_block(section, kept.as_slice()) {
        Ok(Some(Read { block, passing, .. })) => {
            listener.hear(&block);
            kept.clear();
            Ok(Some(Taken { passing, rest }))
        }
        Ok(None) => Ok(None),
        Err(fault) => Err(fault),
    }
}

/// Takes a block, if all of it that is looked at is there; else all bytes are kept.
pub(crate) fn take<'a, L: Listen>(
    section: &mut Section,
    kept: &mut Vec<u8>,
    piece: &'a [u8],
    listener: &mut L,
) -> Result<Option<Taken<'a>>, Fault>
    requires waits { block_next section.old kept.old.items ≡ waits }
    requires room { max_block ≤ vec_capacity kept.old }
    ensures taken { IsTaken L.heard section.old (kept.old.items ++ piece.now) listener.old
        (seen result) section.new kept.new.items listener.new }
    ensures less { IfOk result (λ o. IfSome o (λ t.
        length t.rest.now < length kept.old.items + length piece.now)) }
    ensures room { vec_capacity kept.old ≤ vec_capacity kept.new }
{
    if kept.is_empty() {
        take_here(section, kept, piece, listener)
    } else {
        take_kept(section, kept, piece, listener)
    }
}
