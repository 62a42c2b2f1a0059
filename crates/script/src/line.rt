//! Reads the step in a line.

ghost use Rattle.std.specs.Prelude.{◌≡◌, IfOk, IsOkUnless, IsSome, OnErr};
ghost use Rattle.at_base.specs.Text.{same_bytes};
ghost use Rattle.script.specs.Lines as spec;
ghost use Rattle.script.specs.Lines.{draining, taking};
ghost use Rattle.script.specs.Feeds as feeds_spec;

use crate::request::request;
use crate::send::send;
use crate::step::Step;
use crate::words::Words;
use at_base::Error;
use events::Event;
use std::alloc::Global;
use text::address;
use text::number::number;

/// Whether the line is a comment: it begins with `#`.
pub(crate) fn is_comment(line: &[u8]) -> bool
    ensures { result ≡ feeds_spec.is_comment line.now }
{
    match line {
        [] => false,
        [first, ..] => *first == b'#',
    }
}

/// Whether the line is skipped: it is empty or a comment.
pub(crate) fn is_skipped(line: &[u8]) -> bool
    ensures { result ≡ spec.is_skipped line.now }
{
    line.is_empty() || is_comment(line)
}

/// Whether one of the texts begins with the other.
fn agree(a: &[u8], b: &[u8]) -> bool
    ensures { result ≡ feeds_spec.agree a.now b.now }
{
    a.starts_with(b) || b.starts_with(a)
}

/// Whether a line that begins so may have a step: its first word is a command, or may become one.
pub(crate) fn may_tell(line: &[u8]) -> bool
    ensures { result ≡ feeds_spec.may_tell line.now }
{
    agree(line, b"send ")
        || agree(line, b"request ")
        || agree(line, b"take ")
        || agree(line, b"drain ")
}

fn is_word(word: &[u8], other: &[u8]) -> bool
    ensures { result ≡ same_bytes word.now other.now }
{
    word == other
}

/// The `take` step with these arguments, or `None` if they aren't valid.
fn take(mut words: Words<'_>) -> Option<Step>
    ensures { result ≡ taking words.entry }
{
    let stamp = words.next()?;
    let station = words.next()?;
    words.end()?;
    Some(Step::Event(Event::Take {
        stamp: number(u32::MAX, stamp)?,
        station: address(station)?,
    }))
}

/// The `drain` step with this argument, or `None` if it isn't valid.
fn drain(mut words: Words<'_>) -> Option<Step>
    ensures { result ≡ draining words.entry }
{
    let most = words.next()?;
    words.end()?;
    Some(Step::Drain(number(u32::MAX, most)?))
}

/// The step in the line, or `None` if the line has no valid step. Error: `Memory`, only for a step.
pub(crate) fn step(alloc: Global, line: &[u8]) -> Result<Option<Step>, Error>
    ensures read { IfOk result (λ x. x ≡ spec.step line.now) }
    ensures needed { OnErr result (IsSome (spec.step line.now)) }
    ensures refused { IsOkUnless result Error.Memory }
{
    let mut words = Words::of(line);
    let Some(what) = words.next() else {
        return Ok(None);
    };
    if is_word(what, b"send") {
        send(alloc, words)
    } else if is_word(what, b"request") {
        Ok(request(words))
    } else if is_word(what, b"take") {
        Ok(take(words))
    } else if is_word(what, b"drain") {
        Ok(drain(words))
    } else {
        Ok(None)
    }
}
