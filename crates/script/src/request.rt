//! Reads a `request` line, with which a node asks for names.

ghost use Rattle.std.specs.Prelude.{◌≡◌, None, IfNone, IfSome};
ghost use Rattle.script.specs.Cuts.{asked_by};
ghost use Rattle.script.specs.Lines as spec;

use crate::name::name;
use crate::step::Step;
use crate::word::via;
use crate::words::Words;
use events::Event;
use text::address;
use text::number::byte;

/// The words after `request`. The last one may contain spaces.
#[derive(Debug, Drop)]
struct RequestWords<'a> {
    node: &'a [u8],
    via: &'a [u8],
    id: &'a [u8],
    name: &'a [u8],
}

/// The first three words, and the rest of the line.
fn words_of(mut words: Words<'_>) -> Option<RequestWords<'_>>
    ensures some { IfSome result (λ w. spec.request words.entry ≡ asked_by w) }
    ensures none { IfNone result (spec.request words.entry ≡ None) }
{
    Some(RequestWords {
        node: words.next()?,
        via: words.next()?,
        id: words.next()?,
        name: words.text()?,
    })
}

/// The `request` step with these arguments, or `None` if they aren't valid.
pub(crate) fn request(words: Words<'_>) -> Option<Step>
    ensures { result ≡ spec.request words.entry }
{
    let words = words_of(words)?;
    Some(Step::Event(Event::Request {
        node: address(words.node)?,
        via: via(words.via)?,
        id: byte(words.id)?,
        name: name(words.name)?,
    }))
}
