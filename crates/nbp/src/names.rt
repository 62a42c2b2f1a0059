//! The names registered on a node.

ghost use Rattle.std.specs.Prelude.{◌≡◌, ◌↔◌, ◌≤◌, ◌<◌, ◌&&◌, ◌⊎◌, [], length, true, false};
ghost use Rattle.std.specs.Prelude.{IfOk, IfErr, OnOk, OnErr, IsOk, IsOkUnless, vec_len};
ghost use Rattle.std.specs.List.{list_any};
ghost use Rattle.std.specs.Prelude.{vec_capacity};
ghost use Rattle.at_base.specs.declared.error.Field.TheVariants.{Taken};
ghost use Rattle.at_base.specs.declared.error.What.TheVariants.{Name as NoName};
ghost use Rattle.nbp.specs.Registered as spec;
ghost use Rattle.nbp.specs.Registered.{IsLeastFree, IsNames, before, free_from, with_name};
ghost use Rattle.nbp.specs.Registered.{tuple_of, answers};
ghost use Rattle.at_base.specs.Limits.{max_names};

use crate::matching::{matches, same};
use crate::tuple::Tuple;
use at_base::limits::MAX_NAMES;
use at_base::{Addr, Error, Field, Text32, What, is_entity};
use std::alloc::Global;
use std::marker::Model;

/// A name registered for one of a node's sockets. Its zone is the node's.
///
/// Inside AppleTalk, the chapter on NBP.
#[derive(Clone, Copy, Debug, PartialEq, Eq)]
pub struct Named {
    /// The socket number, 1 to 254.
    pub socket: u8,
    /// The enumerator, from 1, which is unique among the node's names.
    pub enumerator: u8,
    /// The object: 1 to 32 bytes, without the wildcard C5, and not just `=`.
    pub object: Text32,
    /// The type: 1 to 32 bytes, without the wildcard C5, and not just `=`.
    pub kind: Text32,
}

/// The names registered on a node. Contracts see them as a list.
#[derive(Debug, Drop)]
pub struct Names {
    names: Vec<Named>,
}

impl Model for Names {
    ghost use Rattle.std.specs.Prelude.{List};
    ghost use Rattle.nbp.specs.declared.names.Named.{Named as NamedValue};
    ghost use Rattle.nbp.specs.Registered.{IsNames};

    ghost Value = { List NamedValue };

    ghost view = { λ n. n.names.items };

    ghost invariant = { λ n. IsNames n.names.items };
}

/// Whether the text may be the object or the type of a registered name.
fn is_registrable(text: &Text32) -> bool
    ensures value { result ≡ spec.is_registrable text.now }
    ensures few { length text.now ≤ 32 }
{
    let text = text.as_slice();
    1 <= text.len() && is_entity(text)
}

/// Whether a registered name may have this object and this type.
fn are_registrable(object: &Text32, kind: &Text32) -> bool
    ensures value { result ≡ (spec.is_registrable object.now && spec.is_registrable kind.now) }
    ensures few { (length object.now ≤ 32) × (length kind.now ≤ 32) }
{
    // Both are always checked, so that both are known to be short.
    let is_kind = is_registrable(kind);
    is_registrable(object) && is_kind
}

/// Whether a name has this object and this type, ignoring case.
fn is_taken(names: &[Named], object: &Text32, kind: &Text32) -> bool
    ensures { result ≡ spec.is_taken object.now kind.now names.now }
{
    names.iter().any(|name| {
        same(object.as_slice(), name.object.as_slice())
            && same(kind.as_slice(), name.kind.as_slice())
    })
}

/// Whether a name has this enumerator.
fn has(names: &[Named], enumerator: u8) -> bool
    ensures { result ≡ spec.has enumerator names.now }
{
    names.iter().any(|name| name.enumerator == enumerator)
}

/// The least enumerator, from 1, that none of the names has. The names rise by enumerator.
fn least_free(names: &[Named]) -> u8
    requires few { length names.now ≤ max_names }
    ensures value { result ≡ free_from 1 names.now }
    ensures near { result ≤ 33 }
{
    let mut free = 1;
    for name in names {
        if name.enumerator != free {
            return free;
        }
        free += 1;
    }
    free
}

/// The index of the first name whose enumerator isn't below this one, or the number of names.
fn place_for(names: &[Named], enumerator: u8) -> usize
    ensures place { result ≡ before enumerator names.now }
    ensures inside { result ≤ length names.now }
{
    let mut index = 0;
    for name in names {
        if name.enumerator >= enumerator {
            return index;
        }
        index += 1;
    }
    index
}

/// Inserts the name at its place. The vector must have room for it.
fn put(names: &mut Vec<Named>, name: Named)
    requires { vec_len names.old < vec_capacity names.old }
    ensures { names.new.items ≡ with_name name names.old.items }
{
    let index = place_for(names.as_slice(), name.enumerator);
    names.insert(index, name).unwrap();
}

/// Removes the name with this enumerator.
fn take_out(names: &mut Vec<Named>, enumerator: u8)
    ensures { names.new.items ≡ spec.without enumerator names.old.items }
{
    names.retain(|name| name.enumerator != enumerator);
}

/// Whether these patterns match the name's object and type.
fn is_asked_for(object: &[u8], kind: &[u8], name: &Named) -> bool
    ensures { result ≡ spec.is_asked_for object.now kind.now name.now }
{
    matches(object, name.object.as_slice()) && matches(kind, name.kind.as_slice())
}

/// The tuple of a name for a reply, without an address and a zone.
fn answer_for(name: &Named) -> Tuple
    ensures { result ≡ tuple_of name.now }
{
    Tuple {
        at: Addr::NONE,
        socket: name.socket,
        enumerator: name.enumerator,
        object: name.object,
        kind: name.kind,
        zone: Text32::new(&[]).unwrap(),
    }
}

/// Whether the object and type of one of the names match the patterns.
fn is_any_asked_for(object: &[u8], kind: &[u8], names: &[Named]) -> bool
    ensures { result ≡ list_any (spec.is_asked_for object.now kind.now) names.now }
{
    names.iter().any(|name| is_asked_for(object, kind, name))
}

/// The tuples of the names whose object and type match the patterns. Error: `Memory`, only if there
/// are any.
fn answers_of(
    alloc: Global,
    names: &[Named],
    object: &[u8],
    kind: &[u8],
) -> Result<Vec<Tuple>, Error>
    ensures ok { IfOk result (λ tuples. tuples.items ≡ answers object.now kind.now names.now) }
    ensures none { answers object.now kind.now names.now ≡ [] → IsOk result }
    ensures refused { IsOkUnless result Error.Memory }
{
    if !is_any_asked_for(object, kind, names) {
        return Ok(Vec::new(alloc));
    }
    let mut tuples = Vec::with_capacity(alloc, names.len())?;
    for name in names {
        if is_asked_for(object, kind, name) {
            tuples.push(answer_for(name))?;
        }
    }
    Ok(tuples)
}

impl Names {
    /// An empty list of names. Error: `Memory`.
    pub fn new(alloc: Global) -> Result<Names, Error>
        ensures ok { IfOk result (λ names. names ≡ []) }
        ensures refused { IsOkUnless result Error.Memory }
    {
        Ok(Names {
            names: Vec::new(alloc),
        })
    }

    /// The names as given: at most 32 valid names, strictly rising by enumerator. Two of them may
    /// have the same object and type. Error: `Memory`.
    pub fn load(alloc: Global, names: &[Named]) -> Result<Names, Error>
        requires { IsNames names.now }
        ensures ok { IfOk result (λ loaded. loaded ≡ names.now) }
        ensures refused { IsOkUnless result Error.Memory }
    {
        let names = Vec::from_slice(alloc, names)?;
        Ok(Names { names })
    }

    /// The names, by rising enumerator. Allocates nothing.
    pub fn entries(&self) -> &[Named]
        ensures value { result.now ≡ self.now }
        ensures names { IsNames self.now }
    {
        self.names.as_slice()
    }

    /// A copy of the names. Error: `Memory`.
    pub fn copy(&self) -> Result<Names, Error>
        ensures ok { IfOk result (λ names. names ≡ self.now) }
        ensures refused { IsOkUnless result Error.Memory }
    {
        let names = Vec::from_slice(*self.names.allocator(), self.names.as_slice())?;
        Ok(Names { names })
    }

    /// Registers a name for a socket, with the least free enumerator from 1, and returns the
    /// enumerator.
    ///
    /// Errors: `BadName` where the object or the type is empty, is just `=` or has a wildcard C5;
    /// `BadField(Taken)` where the object and the type are registered already, ignoring case;
    /// `Full` where the node has 32 names; `Memory`. A refusal changes nothing.
    pub fn register(&mut self, object: Text32, kind: Text32, socket: u8) -> Result<u8, Error>
        requires low { 1 ≤ socket }
        requires high { socket ≤ 254 }
        ensures free { IfOk result (λ e. IsLeastFree self.old e) }
        ensures added { IfOk result (λ e. self.new ≡ with_name (record {
          socket = socket;
          enumerator = e;
          object = object;
          kind = kind;
        }) self.old) }
        ensures bad { (result ≡ Err Error.BadName)
            ↔ ((spec.is_registrable object && spec.is_registrable kind) ≡ false) }
        ensures taken { (result ≡ Err (Error.BadField Taken))
            ↔ (((spec.is_registrable object && spec.is_registrable kind) ≡ true)
            × (spec.is_taken object kind self.old ≡ true)) }
        ensures full { (result ≡ Err Error.Full)
            ↔ (((spec.is_registrable object && spec.is_registrable kind) ≡ true)
            × (spec.is_taken object kind self.old ≡ false)
            × (max_names ≤ length self.old)) }
        ensures refused { IfErr result (λ e. (e ≡ Error.BadName) ⊎ (e ≡ Error.BadField Taken)
            ⊎ (e ≡ Error.Full) ⊎ (e ≡ Error.Memory)) }
        ensures kept { OnErr result (self.new ≡ self.old) }
    {
        if !are_registrable(&object, &kind) {
            return Err(Error::BadName);
        }
        if is_taken(self.names.as_slice(), &object, &kind) {
            return Err(Error::BadField(Field::Taken));
        }
        if self.names.len() >= MAX_NAMES {
            return Err(Error::Full);
        }
        // Room is made first, so that a refusal leaves the names as they are.
        self.names.reserve(1)?;
        let enumerator = least_free(self.names.as_slice());
        let name = Named {
            socket,
            enumerator,
            object,
            kind,
        };
        put(&mut self.names, name);
        Ok(enumerator)
    }

    /// Removes the name with this enumerator. Allocates nothing.
    ///
    /// Error: `NoSuch(Name)` where no name has it; nothing changes then.
    pub fn remove(&mut self, enumerator: u8) -> Result<(), Error>
        ensures removed { OnOk result (self.new ≡ spec.without enumerator self.old) }
        ensures unknown { (result ≡ Err (Error.NoSuch NoName))
            ↔ (spec.has enumerator self.old ≡ false) }
        ensures refused { IsOkUnless result (Error.NoSuch NoName) }
        ensures kept { OnErr result (self.new ≡ self.old) }
    {
        if !has(self.names.as_slice(), enumerator) {
            return Err(Error::NoSuch(What::Name));
        }
        take_out(&mut self.names, enumerator);
        Ok(())
    }

    /// The tuples for the replies to a lookup: the names whose object and type match these
    /// patterns, by rising enumerator, each without an address and a zone. Error: `Memory`, only if
    /// there are any.
    pub fn answer(&self, object: &[u8], kind: &[u8]) -> Result<Vec<Tuple>, Error>
        ensures ok { IfOk result (λ tuples. tuples.items ≡ answers object.now kind.now self.now) }
        ensures none { answers object.now kind.now self.now ≡ [] → IsOk result }
        ensures refused { IsOkUnless result Error.Memory }
    {
        let alloc = *self.names.allocator();
        answers_of(alloc, self.names.as_slice(), object, kind)
    }
}
