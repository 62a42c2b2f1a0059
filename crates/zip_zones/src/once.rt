//! Names, each once, ignoring case.

ghost use Rattle.std.specs.Prelude.{◌≡◌, ◌<◌, ◌≤◌, length, IfOk, IsOkUnless, OnOk};
ghost use Rattle.std.specs.List.{list_any};
ghost use Rattle.at_base.specs.Limits.{max_zones};
ghost use Rattle.at_base.specs.Numbers.{in_order};
ghost use Rattle.at_base.specs.Text.{same_name};
ghost use Rattle.zip_zones.specs.Indexing.{numbers_from};
ghost use Rattle.zip_zones.specs.Zones as spec;
ghost use Rattle.zip_zones.specs.Zones.{with_name};

use crate::index::{has, put_name};
use at_base::{Error, Name};
use std::alloc::Global;

/// The most names that are compared with each other. More have their numbers beside them.
pub(crate) const FEW: usize = 8;

/// Whether the zone is among these, ignoring case.
pub(crate) fn is_among(names: &[Name], zone: &Name) -> bool
    ensures { result ≡ list_any (same_name zone.now) names.now }
{
    names.iter().any(|name| zone.same(name))
}

/// Adds a name unless it is among these, ignoring case. Error: `Memory`.
fn put_among(kept: &mut Vec<Name>, name: &Name) -> Result<(), Error>
    ensures ok { OnOk result (kept.new.items ≡ with_name kept.old.items name.now) }
    ensures err { IsOkUnless result Error.Memory }
{
    if !is_among(kept.as_slice(), name) {
        kept.push(*name)?;
    }
    Ok(())
}

/// Few names, each once, ignoring case. Error: `Memory`.
fn few_once(alloc: Global, names: &[Name]) -> Result<Vec<Name>, Error>
    ensures ok { IfOk result (λ kept. kept.items ≡ spec.each_once names.now) }
    ensures err { IsOkUnless result Error.Memory }
{
    let mut kept = Vec::with_capacity(alloc, names.len())?;
    for name in names {
        put_among(&mut kept, name)?;
    }
    Ok(kept)
}

/// Adds a name unless it is among these, ignoring case. Their numbers, in rising order, are beside
/// them. Error: `Memory`.
fn put_once(kept: &mut Vec<Name>, numbers: &mut Vec<u64>, name: &Name) -> Result<(), Error>
    requires few { length kept.old.items < max_zones }
    requires indexed { numbers.old.items ≡ in_order (numbers_from 0 0 kept.old.items) }
    ensures ok { OnOk result ((kept.new.items ≡ with_name kept.old.items name.now)
        × (numbers.new.items ≡ in_order (numbers_from 0 0 kept.new.items))) }
    ensures err { IsOkUnless result Error.Memory }
{
    if has(numbers.as_slice(), 0, kept.as_slice(), name) {
        return Ok(());
    }
    numbers.reserve(1)?;
    put_name(numbers, 0, kept.len() as u8, name);
    kept.push(*name)?;
    Ok(())
}

/// Many names, each once, ignoring case. Error: `Memory`.
fn many_once(alloc: Global, names: &[Name]) -> Result<Vec<Name>, Error>
    requires { length names.now ≤ max_zones }
    ensures ok { IfOk result (λ kept. kept.items ≡ spec.each_once names.now) }
    ensures err { IsOkUnless result Error.Memory }
{
    let mut kept = Vec::with_capacity(alloc, names.len())?;
    let mut numbers = Vec::with_capacity(alloc, names.len())?;
    for name in names {
        put_once(&mut kept, &mut numbers, name)?;
    }
    Ok(kept)
}

/// The names, each once, ignoring case. Most ranges have one zone or two, for which numbers would
/// cost more than comparing. Error: `Memory`.
pub(crate) fn each_once(alloc: Global, names: &[Name]) -> Result<Vec<Name>, Error>
    requires { length names.now ≤ max_zones }
    ensures ok { IfOk result (λ kept. kept.items ≡ spec.each_once names.now) }
    ensures err { IsOkUnless result Error.Memory }
{
    if names.len() <= FEW {
        few_once(alloc, names)
    } else {
        many_once(alloc, names)
    }
}
