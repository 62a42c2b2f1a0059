//! Whether two files of a command are one.

ghost use Rattle.std.specs.Prelude.{◌≡◌, ◌++◌, is_none, IfSome, IsTrue};
ghost use Rattle.std.specs.List.{list_all};
ghost use Rattle.whole_files.specs.Shared as spec;
ghost use Rattle.whole_files.specs.Shared.{are_apart, is_other};

use crate::place::FileId;

/// What tells a file of a command from the others.
#[derive(Clone, Copy)]
pub enum Identity<'a> {
    /// No regular file, or one of which nothing is known: it is never one with another.
    Unknown,
    /// A regular file that exists.
    Existing(FileId),
    /// A file that isn't there yet, by its path without links.
    New(&'a str),
}

/// A file of a command, and the name by which a message calls it.
#[derive(Clone, Copy)]
pub struct Named<'a> {
    pub name: &'a str,
    pub identity: Identity<'a>,
}

/// Whether the two are one file.
fn is_same(first: Identity<'_>, second: Identity<'_>) -> bool
    ensures { result ≡ spec.is_same first.entry second.entry }
{
    match first {
        Identity::Unknown => false,
        Identity::Existing(first) => match second {
            Identity::Existing(second) => first.is(second),
            _ => false,
        },
        Identity::New(first) => match second {
            Identity::New(second) => first.as_bytes() == second.as_bytes(),
            _ => false,
        },
    }
}

/// The first of these files that is the same as the given one.
fn twin_of<'a>(file: &Named<'_>, others: &[Named<'a>]) -> Option<Named<'a>>
    ensures none { is_none result ≡ list_all (is_other file.now) others.now }
    ensures same { IfSome result (λ twin. IsTrue (spec.is_same file.now.identity twin.identity)) }
{
    match others {
        [] => None,
        [first, rest @ ..] => {
            if is_same(file.identity, first.identity) {
                Some(*first)
            } else {
                twin_of(file, rest)
            }
        }
    }
}

/// The first output that is the same file as a later output or as an input, with that one; `None`
/// if there is no such output.
pub fn first_shared<'a>(
    outputs: &[Named<'a>],
    inputs: &[Named<'a>],
) -> Option<(Named<'a>, Named<'a>)>
    ensures apart { is_none result ≡ are_apart outputs.now inputs.now }
    ensures same { IfSome result (λ pair. IsTrue (spec.is_same pair.0.identity pair.1.identity)) }
{
    match outputs {
        [] => None,
        [first, rest @ ..] => {
            let twin = match twin_of(first, rest) {
                Some(twin) => Some(twin),
                None => twin_of(first, inputs),
            };
            match twin {
                Some(twin) => Some((*first, twin)),
                None => first_shared(rest, inputs),
            }
        }
    }
}
