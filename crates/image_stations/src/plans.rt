//! The state in which an image's ports begin.

ghost use Rattle.std.specs.Prelude.{IfOk, IsOkUnless, IsTrue, OnOk, map, slice_get, ◌++◌, ◌≡◌};
ghost use Rattle.std.specs.List.{list_all};
ghost use Rattle.station.specs.Ports.{is_planned, planned};
ghost use Rattle.image_stations.specs.Holders.{choice_on, ports_of, range_of};
ghost use Rattle.image_stations.specs.Plans.{is_port_seated, is_seated};

use at_base::{Addr, Error, Hw, Range};
use station::PortPlan;
use std::alloc::Global;
use table_image::{Cable, Image, Port};

/// The range of a cable on which a station may have the address.
fn range_at(cables: &[Cable], cable: u8, address: Addr) -> Range
    requires { IsTrue (is_seated cables.now cable address) }
    ensures { result ≡ range_of (slice_get cables.now cable) }
{
    let found = &cables[cable as usize];
    Range::new(found.start, found.end).unwrap()
}

/// A port that begins with its address.
pub(crate) fn plan_of<'a>(image: &Image, cable: u8, address: Addr, hw: Hw) -> PortPlan<'a>
    requires { IsTrue (is_seated image.now.cables cable address) }
    ensures choice { planned result ≡ choice_on image.now cable address hw }
    ensures good { IsTrue (is_planned result) }
{
    PortPlan {
        range: range_at(image.cables(), cable, address),
        hw,
        tries: &[],
        own: Some(address),
    }
}

/// Appends ports that begin with their addresses.
fn put_plans<'a>(plans: &mut Vec<PortPlan<'a>>, image: &Image, ports: &[Port]) -> Result<(), Error>
    requires { IsTrue (list_all (is_port_seated image.now.cables) ports.now) }
    ensures put { OnOk result (map planned plans.new.items
        ≡ map planned plans.old.items ++ ports_of image.now ports.now) }
    ensures good { OnOk result (IsTrue (list_all is_planned plans.old.items)
        → IsTrue (list_all is_planned plans.new.items)) }
    ensures refused { IsOkUnless result Error.Memory }
{
    match ports {
        [] => Ok(()),
        [port, rest @ ..] => {
            let plan = plan_of(image, port.cable, port.address, port.hardware);
            if plans.push(plan).is_err() {
                return Err(Error::Memory);
            }
            put_plans(plans, image, rest)
        }
    }
}

/// The ports of a router, each with its address. Error: `Memory`.
pub(crate) fn plans_of<'a>(
    alloc: Global,
    image: &Image,
    ports: &[Port],
) -> Result<Vec<PortPlan<'a>>, Error>
    requires { IsTrue (list_all (is_port_seated image.now.cables) ports.now) }
    ensures ok { IfOk result (λ plans. map planned plans.items ≡ ports_of image.now ports.now) }
    ensures good { IfOk result (λ plans. IsTrue (list_all is_planned plans.items)) }
    ensures refused { IsOkUnless result Error.Memory }
{
    let mut plans = Vec::new(alloc);
    put_plans(&mut plans, image, ports)?;
    Ok(plans)
}
