//! The parts of an image once more.
//!
//! An image lends its parts, and doesn't give them away. What is shared is shared once more; what
//! isn't is copied, and the copy can be shared: so the parts of an image that was joined are
//! joined again without a copy of their lists.

ghost use Rattle.std.specs.Prelude.{◌≡◌, ◌++◌, IfOk, IsOkUnless, OnOk};
ghost use Rattle.at_base.specs.declared.error.Error.TheVariants.{Memory};

use at_base::Error;
use std::alloc::Global;
use table_image::{Cable, Listed, Node, Port, Router, ZoneList};

/// A part of an image, of which there can be another one.
pub(crate) trait Again: Drop {
    /// The same part once more. Error: `Memory`.
    fn once_more(&self, alloc: Global) -> Result<Self, Error>
        ensures same { IfOk result (λ x. x ≡ self.now) }
        ensures refused { IsOkUnless result Memory };
}

/// The same values once more. Error: `Memory`.
fn values_again<T: Copy + Drop>(alloc: Global, values: &Listed<T>) -> Result<Listed<T>, Error>
    ensures same { IfOk result (λ x. x ≡ values.now) }
    ensures refused { IsOkUnless result Memory }
{
    match values.again() {
        Some(values) => Ok(values),
        None => {
            let copied = Vec::from_slice(alloc, values.as_slice())?;
            Ok(Listed::from_vec(copied).into_shared(alloc))
        }
    }
}

/// Appends the same parts once more. Error: `Memory`.
pub(crate) fn put_again<T: Again>(
    alloc: Global,
    parts: &mut Vec<T>,
    more: &[T],
) -> Result<(), Error>
    ensures put { OnOk result (parts.new.items ≡ parts.old.items ++ more.now) }
    ensures refused { IsOkUnless result Memory }
{
    for part in more {
        parts.push(part.once_more(alloc)?)?;
    }
    Ok(())
}

/// The same parts once more. Error: `Memory`.
fn parts_again<T: Again>(alloc: Global, parts: &Listed<T>) -> Result<Listed<T>, Error>
    ensures same { IfOk result (λ x. x ≡ parts.now) }
    ensures refused { IsOkUnless result Memory }
{
    if let Some(shared) = parts.share() {
        return Ok(shared);
    }
    let mut copied = Vec::with_capacity(alloc, parts.len())?;
    put_again(alloc, &mut copied, parts.as_slice())?;
    Ok(Listed::from_vec(copied).into_shared(alloc))
}

impl Again for Cable {
    fn once_more(&self, alloc: Global) -> Result<Cable, Error> {
        Ok(Cable {
            start: self.start,
            end: self.end,
            zones: values_again(alloc, &self.zones)?,
        })
    }
}

impl Again for Port {
    fn once_more(&self, alloc: Global) -> Result<Port, Error> {
        Ok(Port {
            cable: self.cable,
            address: self.address,
            hardware: self.hardware,
            mappings: values_again(alloc, &self.mappings)?,
        })
    }
}

impl Again for ZoneList {
    fn once_more(&self, alloc: Global) -> Result<ZoneList, Error> {
        Ok(ZoneList {
            start: self.start,
            end: self.end,
            complete: self.complete,
            zones: values_again(alloc, &self.zones)?,
        })
    }
}

impl Again for Router {
    fn once_more(&self, alloc: Global) -> Result<Router, Error> {
        let ports = parts_again(alloc, &self.ports)?;
        let rows = values_again(alloc, &self.rows)?;
        Ok(Router {
            ports,
            rows,
            lists: parts_again(alloc, &self.lists)?,
        })
    }
}

impl Again for Node {
    fn once_more(&self, alloc: Global) -> Result<Node, Error> {
        let names = values_again(alloc, &self.names)?;
        Ok(Node {
            cable: self.cable,
            address: self.address,
            hardware: self.hardware,
            zone: self.zone,
            router: self.router,
            names,
            mappings: values_again(alloc, &self.mappings)?,
        })
    }
}
