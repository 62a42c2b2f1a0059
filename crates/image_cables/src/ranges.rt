//! The addresses of the seats and the ranges of the cables of an image.

ghost use Rattle.std.specs.Prelude.{◌≡◌, ◌++◌, IfOk, IsOkUnless, OnOk, map};
ghost use Rattle.std.specs.List.{AllByRecursion as Each};
ghost use Rattle.at_base.specs.Range.{IsRange};
ghost use Rattle.audit.specs.Rules.{Passes};
ghost use Rattle.image_cables.specs.Settled as spec;
ghost use Rattle.image_cables.specs.Settled.{cable_ranges, router_addresses, seat_addresses};

use at_base::{Addr, Error, Range};
use std::alloc::Global;
use table_image::{Cable, Image, Node, Port, Router};

/// The range of a cable. The caller must ensure that it is valid.
fn range_of(cable: &Cable) -> Range
    requires { IsRange cable.now.start cable.now.end }
    ensures { result ≡ spec.range_of cable.now }
{
    Range::new(cable.start, cable.end).unwrap()
}

/// Appends the ranges of cables. Error: `Memory`.
fn put_ranges(ranges: &mut Vec<Range>, cables: &[Cable]) -> Result<(), Error>
    requires valid { Each (λ cable. IsRange cable.start cable.end) cables.now }
    ensures put { OnOk result (ranges.new.items ≡ ranges.old.items ++ map spec.range_of cables.now) }
    ensures refused { IsOkUnless result Error.Memory }
{
    match cables {
        [] => Ok(()),
        [cable, rest @ ..] => {
            ranges.push(range_of(cable))?;
            put_ranges(ranges, rest)
        }
    }
}

/// The ranges of the cables of an image that passes the audit, in their order. Error: `Memory`.
#[tactic(auto, using(crate::proofs::Settled::have_ranges))]
pub fn ranges_of(alloc: Global, image: &Image) -> Result<Vec<Range>, Error>
    requires passes { Passes image.now }
    ensures ok { IfOk result (λ ranges. ranges.items ≡ cable_ranges image.now) }
    ensures refused { IsOkUnless result Error.Memory }
{
    let mut ranges = Vec::new(alloc);
    put_ranges(&mut ranges, image.cables())?;
    Ok(ranges)
}

/// Appends the addresses of ports. Error: `Memory`.
fn put_ports(own: &mut Vec<Option<Addr>>, ports: &[Port]) -> Result<(), Error>
    ensures put { OnOk result (own.new.items ≡ own.old.items ++ map spec.port_address ports.now) }
    ensures refused { IsOkUnless result Error.Memory }
{
    match ports {
        [] => Ok(()),
        [port, rest @ ..] => {
            own.push(Some(port.address))?;
            put_ports(own, rest)
        }
    }
}

/// Appends the addresses of routers' ports. Error: `Memory`.
fn put_routers(own: &mut Vec<Option<Addr>>, routers: &[Router]) -> Result<(), Error>
    ensures put { OnOk result (own.new.items ≡ own.old.items ++ router_addresses routers.now) }
    ensures refused { IsOkUnless result Error.Memory }
{
    match routers {
        [] => Ok(()),
        [router, rest @ ..] => {
            put_ports(own, router.ports.as_slice())?;
            put_routers(own, rest)
        }
    }
}

/// Appends the addresses of nodes. Error: `Memory`.
fn put_nodes(own: &mut Vec<Option<Addr>>, nodes: &[Node]) -> Result<(), Error>
    ensures put { OnOk result (own.new.items ≡ own.old.items ++ map spec.node_address nodes.now) }
    ensures refused { IsOkUnless result Error.Memory }
{
    match nodes {
        [] => Ok(()),
        [node, rest @ ..] => {
            own.push(Some(node.address))?;
            put_nodes(own, rest)
        }
    }
}

/// The settled addresses of all seats, in their order. Error: `Memory`.
#[tactic(auto, using(crate::proofs::Settled::addresses_are))]
pub fn addresses_of(alloc: Global, image: &Image) -> Result<Vec<Option<Addr>>, Error>
    ensures ok { IfOk result (λ own. own.items ≡ seat_addresses image.now) }
    ensures refused { IsOkUnless result Error.Memory }
{
    let mut own = Vec::new(alloc);
    put_routers(&mut own, image.routers())?;
    put_nodes(&mut own, image.nodes())?;
    Ok(own)
}
