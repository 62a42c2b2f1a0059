//! Joins images of parts of one internet.

ghost use Rattle.std.specs.Prelude.{◌≡◌, ◌⊎◌, ◌↔◌, ◌++◌, Err, IfErr, IfOk, IsOkUnless, false, true};
ghost use Rattle.at_base.specs.declared.error.Error.TheVariants.{Memory};
ghost use Rattle.joined.specs.Joining.{are_too_many, have_same_cables, joined};
ghost use Rattle.joined.specs.Joining as spec;

use crate::again::{Again, put_again};
use crate::same_cables::same_cables;
use at_base::limits::{MAX_NODES, MAX_ROUTERS};
use at_base::{Error, What};
use std::alloc::Global;
use table_image::{Image, Listed, Version};

/// The version that can hold what both can.
fn greater(one: Version, other: Version) -> Version
    ensures { result ≡ spec.greater one other }
{
    match one {
        Version::V1 => other,
        Version::V2 => Version::V2,
    }
}

/// Whether the images have more routers together than an image may have, or more nodes.
fn too_many(one: &Image, other: &Image) -> bool
    ensures { result ≡ are_too_many one.now other.now }
{
    one.routers().len() + other.routers().len() > MAX_ROUTERS
        || one.nodes().len() + other.nodes().len() > MAX_NODES
}

/// The parts of both, once more. Error: `Memory`.
fn of_both<T: Again>(alloc: Global, one: &[T], other: &[T]) -> Result<Listed<T>, Error>
    ensures both { IfOk result (λ parts. parts ≡ one.now ++ other.now) }
    ensures refused { IsOkUnless result Memory }
{
    let mut parts = Vec::with_capacity(alloc, one.len().saturating_add(other.len()))?;
    put_again(alloc, &mut parts, one)?;
    put_again(alloc, &mut parts, other)?;
    Ok(Listed::from_vec(parts))
}

/// The image of the routers and the nodes of both, those of the first one before those of the other,
/// over the cables that they have in common. Its version is 1 where that of both is.
///
/// Errors: `NoSuch(Cable)` where their cables aren't the same ones, in the same order, with the same
/// ranges and the same zones; else `Full` where they have more routers or more nodes together than
/// an image may have; else `Memory`.
pub fn join(alloc: Global, one: &Image, other: &Image) -> Result<Image, Error>
    ensures ok { IfOk result (λ i. i ≡ joined one.now other.now) }
    ensures fits { IfOk result (λ i. (have_same_cables one.now other.now ≡ true)
        × (are_too_many one.now other.now ≡ false)) }
    ensures cables { (result ≡ Err (Error.NoSuch What.Cable))
        ↔ (have_same_cables one.now other.now ≡ false) }
    ensures full { (result ≡ Err Error.Full) ↔ ((have_same_cables one.now other.now ≡ true)
        × (are_too_many one.now other.now ≡ true)) }
    ensures refused { IfErr result
        (λ e. (e ≡ Error.NoSuch What.Cable) ⊎ (e ≡ Error.Full) ⊎ (e ≡ Error.Memory)) }
{
    if !same_cables(one.cables(), other.cables()) {
        return Err(Error::NoSuch(What::Cable));
    }
    if too_many(one, other) {
        return Err(Error::Full);
    }
    let version = greater(one.version(), other.version());
    let cables = of_both(alloc, one.cables(), &[])?;
    let routers = of_both(alloc, one.routers(), other.routers())?;
    let nodes = of_both(alloc, one.nodes(), other.nodes())?;
    Ok(Image::of(version, cables, routers, nodes))
}
