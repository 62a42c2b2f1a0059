//! Reads a `send` line, with which a node sends a datagram.

ghost use Rattle.std.specs.Prelude.{◌≡◌, None, Some, IfNone, IfOk, IfSome, IsOkUnless, IsSome, OnErr};
ghost use Rattle.script.specs.Cuts.{all_of, sent_by};
ghost use Rattle.script.specs.Lines as lines_spec;
ghost use Rattle.script.specs.Words as words_spec;
ghost use Rattle.text.specs.Words.{given};

use crate::step::Step;
use crate::word::{bytes, flag, via};
use crate::words::Words;
use at_base::{Addr, Bytes, Error};
use events::Event;
use std::alloc::Global;
use text::address;
use text::number::byte;

/// The words after `send`.
#[derive(Debug, Drop)]
struct SendWords<'a> {
    node: &'a [u8],
    via: &'a [u8],
    source_socket: &'a [u8],
    target: &'a [u8],
    socket: &'a [u8],
    kind: &'a [u8],
    sum: &'a [u8],
    hex: &'a [u8],
}

/// The eight words.
fn words_of(mut words: Words<'_>) -> Option<SendWords<'_>>
    ensures some { IfSome result (λ w. words.entry ≡ all_of w) }
    ensures none { IfNone result (lines_spec.send words.entry ≡ None) }
{
    let made = SendWords {
        node: words.next()?,
        via: words.next()?,
        source_socket: words.next()?,
        target: words.next()?,
        socket: words.next()?,
        kind: words.next()?,
        sum: words.next()?,
        hex: words.next()?,
    };
    words.end()?;
    Some(made)
}

/// A `send` step without its data.
#[derive(Clone, Copy, Debug)]
struct Sending {
    node: Addr,
    via: Option<Addr>,
    source_socket: u8,
    target: Addr,
    target_socket: u8,
    kind: u8,
    summed: bool,
}

impl Sending {
    /// The step with this data.
    fn with(self, payload: Bytes) -> Step
        ensures { result ≡ sent_by self payload }
    {
        Step::Event(Event::Send {
            node: self.node,
            via: self.via,
            source_socket: self.source_socket,
            target: self.target,
            target_socket: self.target_socket,
            kind: self.kind,
            summed: self.summed,
            payload,
        })
    }
}

/// The `send` step with these words, of which the last one isn't read.
fn fields_of(words: &SendWords<'_>) -> Option<Sending>
    ensures { lines_spec.send (all_of words.now) ≡ given result (λ sending.
        given (words_spec.bytes words.now.hex.now) (λ payload. Some (sent_by sending payload))) }
{
    Some(Sending {
        node: address(words.node)?,
        via: via(words.via)?,
        source_socket: byte(words.source_socket)?,
        target: address(words.target)?,
        target_socket: byte(words.socket)?,
        kind: byte(words.kind)?,
        summed: flag(words.sum)?,
    })
}

/// The `send` step with these arguments, or `None` if they aren't valid. Error: `Memory`, only for
/// a step.
pub(crate) fn send(alloc: Global, words: Words<'_>) -> Result<Option<Step>, Error>
    ensures read { IfOk result (λ x. x ≡ lines_spec.send words.entry) }
    ensures needed { OnErr result (IsSome (lines_spec.send words.entry)) }
    ensures refused { IsOkUnless result Error.Memory }
{
    let Some(words) = words_of(words) else {
        return Ok(None);
    };
    // The data is read last, because only a step needs memory.
    let Some(sending) = fields_of(&words) else {
        return Ok(None);
    };
    match bytes(alloc, words.hex) {
        Ok(Some(payload)) => Ok(Some(sending.with(payload))),
        Ok(None) => Ok(None),
        Err(error) => Err(error),
    }
}
