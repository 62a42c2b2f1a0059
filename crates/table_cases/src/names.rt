//! The names of a node.

ghost use Rattle.std.specs.Prelude.{◌≡◌, true};
ghost use Rattle.std.specs.List.{All};
ghost use Rattle.nbp.specs.Registered as spec;
ghost use Rattle.nbp.specs.Registered.{IsNamed};

use at_base::limits::MAX_NAMES;
use at_base::{Error, Text32, is_entity};
use case_words::{Answer, Stop, Words, put_text};
use nbp::{Named, Names, Tuple};
use std::alloc::{AllocError, Global};

/// The names of a node, and others that may be a copy of them.
#[derive(Drop)]
pub(crate) struct Naming {
    alloc: Global,
    names: Names,
    other: Names,
}

/// Skips a mark after a text.
fn pass(words: &mut Words<'_>, mark: &str) -> Result<(), Stop> {
    match words.rest().strip_prefix(mark) {
        Some(rest) => {
            *words = Words::new(rest);
            Ok(())
        }
        None => Err(Stop::Unclear),
    }
}

/// An object and a type, as `"lab":"LaserWriter"`.
fn object_and_kind(alloc: Global, words: &mut Words<'_>) -> Result<(Text32, Text32), Stop> {
    let object = words.text32(alloc)?;
    pass(words, ":")?;
    let kind = words.text32(alloc)?;
    Ok((object, kind))
}

/// A name with its socket and enumerator.
fn named(alloc: Global, words: &mut Words<'_>) -> Result<Named, Stop> {
    let (object, kind) = object_and_kind(alloc, words)?;
    Ok(Named {
        object,
        kind,
        socket: words.named("socket")?,
        enumerator: words.named("enumerator")?,
    })
}

/// Whether a node may have the name.
fn may_be_named(name: &Named) -> bool
    ensures { result ≡ true → IsNamed name.now }
{
    let object = name.object.as_slice();
    let kind = name.kind.as_slice();
    let numbers = 1 <= name.socket && name.socket <= 254 && 1 <= name.enumerator;
    let texts = 1 <= object.len() && 1 <= kind.len();
    numbers && texts && is_entity(object) && is_entity(kind)
}

/// Whether a node may have each of the names.
fn may_be_all(names: &[Named]) -> bool
    ensures { result ≡ true → All IsNamed names.now }
{
    match names {
        [] => true,
        [name, rest @ ..] => may_be_named(name) && may_be_all(rest),
    }
}

/// Whether the enumerators rise, the first being above a number.
fn are_above(low: u8, names: &[Named]) -> bool
    ensures { result ≡ spec.are_above low names.now }
{
    match names {
        [] => true,
        [name, rest @ ..] => low < name.enumerator && are_above(name.enumerator, rest),
    }
}

/// Loads names that a node may have: at most 32, with rising enumerators.
fn load(alloc: Global, names: &[Named]) -> Result<Names, Stop> {
    if !(names.len() <= MAX_NAMES && are_above(0, names) && may_be_all(names)) {
        return Err(Stop::Unclear);
    }
    Ok(Names::load(alloc, names)?)
}

/// The names that the words list.
fn listed(alloc: Global, words: &mut Words<'_>) -> Result<Vec<Named>, Stop> {
    let mut names = Vec::new(alloc);
    for _ in 0..u64::MAX {
        if words.is_empty() {
            break;
        }
        names.push(named(alloc, words)?)?;
        let _ = words.passes(";");
    }
    Ok(names)
}

/// Registers a name for a socket from 1 to 254.
fn register(alloc: Global, names: &mut Names, mut words: Words<'_>, text: &mut String) -> Answer {
    let (object, kind) = object_and_kind(alloc, &mut words)?;
    let socket: u8 = words.named("socket")?;
    if socket < 1 || 254 < socket {
        return Err(Stop::Unclear);
    }
    let enumerator = names.register(object, kind, socket)?;
    writeln!(text, "{enumerator}")?;
    Ok(())
}

fn put_pair(text: &mut String, object: &Text32, kind: &Text32) -> Result<(), AllocError> {
    put_text(text, object.as_slice())?;
    text.push(':')?;
    put_text(text, kind.as_slice())
}

fn put_named(text: &mut String, name: &Named) -> Result<(), AllocError> {
    let (socket, enumerator) = (name.socket, name.enumerator);
    put_pair(text, &name.object, &name.kind)?;
    writeln!(text, " socket {socket} enumerator {enumerator}")
}

fn put_tuple(text: &mut String, tuple: &Tuple) -> Result<(), AllocError> {
    let (at, socket, enumerator) = (tuple.at, tuple.socket, tuple.enumerator);
    put_pair(text, &tuple.object, &tuple.kind)?;
    text.push('@')?;
    put_text(text, tuple.zone.as_slice())?;
    writeln!(text, " at {at} socket {socket} enumerator {enumerator}")
}

/// Appends the names that match a lookup.
fn put_answer(alloc: Global, names: &Names, mut words: Words<'_>, text: &mut String) -> Answer {
    let (object, kind) = object_and_kind(alloc, &mut words)?;
    let tuples = names.answer(object.as_slice(), kind.as_slice())?;
    if tuples.is_empty() {
        writeln!(text, "none")?;
    }
    for tuple in tuples.iter() {
        put_tuple(text, tuple)?;
    }
    Ok(())
}

fn put_all(text: &mut String, names: &[Named]) -> Answer {
    if names.is_empty() {
        writeln!(text, "none")?;
    }
    for name in names {
        put_named(text, name)?;
    }
    Ok(())
}

impl Naming {
    /// No names.
    pub(crate) fn new(alloc: Global) -> Result<Naming, Error> {
        Ok(Naming {
            alloc,
            names: Names::new(alloc)?,
            other: Names::new(alloc)?,
        })
    }

    fn load(&mut self, mut words: Words<'_>) -> Answer {
        let names = listed(self.alloc, &mut words)?;
        self.names = load(self.alloc, names.as_slice())?;
        Ok(())
    }

    /// Carries out a command.
    pub(crate) fn act(&mut self, mut words: Words<'_>, text: &mut String) -> Answer {
        match words.word() {
            "register" => register(self.alloc, &mut self.names, words, text)?,
            "remove" => self.names.remove(words.number()?)?,
            "load" => self.load(words)?,
            "answer" => put_answer(self.alloc, &self.names, words, text)?,
            "list" => put_all(text, self.names.entries())?,
            "copy" => self.other = self.names.copy()?,
            "swap" => std::mem::swap(&mut self.names, &mut self.other),
            _ => return Err(Stop::Unclear),
        }
        Ok(())
    }
}
