//! The mappings of ports and nodes.

ghost use Rattle.std.specs.Prelude.{◌≡◌, ◌≤◌, drop, length, map, slice_get, option_copied};
ghost use Rattle.std.specs.Prelude.{IfOk, IfSome, IsOkUnless};
ghost use Rattle.aarp.specs.Mapping.{by_address};
ghost use Rattle.at_base.specs.Limits.{max_mappings};
ghost use Rattle.at_base.specs.Spelling.{IsValue};
ghost use Rattle.freeze.specs.Freezing.{frozen_mapping, frozen_mappings};
ghost use Rattle.freeze.specs.Valid.{AreFew};
ghost use Rattle.table_image.specs.Spelling.{mappings_spelling};

use aarp::Mapper;
use at_base::{Addr, Error, Hw};
use std::alloc::Global;
use table_image::{Listed, Mapping, Version};

/// The image's mappings for those that a port knows. Error: `Memory`.
fn frozen_of(alloc: Global, known: &[(Addr, Hw)]) -> Result<Vec<Mapping>, Error>
    ensures ok { IfOk result (λ frozen. frozen.items ≡ map frozen_mapping known.now) }
    ensures refused { IsOkUnless result Error.Memory }
{
    let frozen = known.iter().map(|mapping| Mapping {
        address: mapping.0,
        hardware: mapping.1,
    });
    Ok(frozen.collect(alloc)?)
}

/// All that a mapper knows, by rising address. Error: `Memory`.
fn all_of(alloc: Global, mapper: &Mapper) -> Result<Vec<Mapping>, Error>
    ensures ok { IfOk result
        (λ all. all.items ≡ map frozen_mapping (by_address mapper.now.known)) }
    ensures valid { length mapper.now.known ≤ max_mappings
        → IfOk result (λ all. IsValue (mappings_spelling Version.V2) all.items) }
    ensures refused { IsOkUnless result Error.Memory }
{
    let known = mapper.all()?;
    frozen_of(alloc, known.as_slice())
}

/// The mappings of a seat, if it has a mapper, in an image of this version. Error: `Memory`.
pub(crate) fn mappings_of(
    alloc: Global,
    version: Version,
    mapper: Option<&Mapper>,
) -> Result<Listed<Mapping>, Error>
    ensures ok { IfOk result
        (λ mappings. mappings ≡ frozen_mappings version (option_copied mapper.entry)) }
    ensures valid { IfSome (option_copied mapper.entry) (λ m. length m.known ≤ max_mappings)
        → IfOk result (λ mappings. IsValue (mappings_spelling version) mappings) }
    ensures refused { IsOkUnless result Error.Memory }
{
    match version {
        Version::V1 => Ok(Listed::from_vec(Vec::new(alloc))),
        Version::V2 => match mapper {
            Some(mapper) => Ok(Listed::from_vec(all_of(alloc, mapper)?)),
            None => Ok(Listed::from_vec(Vec::new(alloc))),
        },
    }
}

/// The mapper of the first seat, if there is one.
pub(crate) fn first_of(mappers: &[Mapper]) -> Option<&Mapper>
    ensures first { option_copied result ≡ slice_get mappers.now 0 }
    ensures few { AreFew mappers.now
        → IfSome (option_copied result) (λ m. length m.known ≤ max_mappings) }
{
    mappers.first()
}

/// The mappers of the seats after the first `count`.
pub(crate) fn after(mappers: &[Mapper], count: usize) -> &[Mapper]
    ensures after { result.now ≡ drop count mappers.now }
    ensures few { AreFew mappers.now → AreFew result.now }
{
    if count < mappers.len() {
        &mappers[count..]
    } else {
        &[]
    }
}
