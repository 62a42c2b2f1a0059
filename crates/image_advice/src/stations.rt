//! What can be wrong with the addresses of a station, besides what its rule says: that it has none
//! yet, or that all that is wrong is the hardware address of a station on another cable.

use crate::item::at;
use at_base::{Addr, Hw, Place};
use table_image::{Image, Node, Port};

/// A port or a node.
#[derive(Clone, Copy, Debug)]
struct Station {
    cable: u8,
    address: Addr,
    hardware: Hw,
}

/// What two stations share.
#[derive(Clone, Copy, Debug)]
enum Shared {
    /// Neither of their addresses.
    Nothing,
    /// Their hardware address alone, on two cables.
    HardwareElsewhere,
    /// Their address, or their hardware address on one cable.
    Identity,
}

impl Station {
    fn of_port(port: &Port) -> Station {
        Station {
            cable: port.cable,
            address: port.address,
            hardware: port.hardware,
        }
    }

    fn of_node(node: &Node) -> Station {
        Station {
            cable: node.cable,
            address: node.address,
            hardware: node.hardware,
        }
    }

    fn shared_with(self, other: Station) -> Shared {
        if self.address == other.address {
            Shared::Identity
        } else if self.hardware != other.hardware {
            Shared::Nothing
        } else if self.cable == other.cable {
            Shared::Identity
        } else {
            Shared::HardwareElsewhere
        }
    }

    /// Whether its addresses are such as a station of its cable may have.
    fn is_addressed(self, image: &Image) -> bool {
        let Some(cable) = image.cables().get(self.cable as usize) else {
            return false;
        };
        let [first, _, _, _, _, _] = self.hardware.0;
        let Addr { net, node } = self.address;
        cable.start <= net && net <= cable.end && 1 <= node && node <= 253 && first % 2 == 0
    }

    /// Whether all that is wrong with it is that some of the first routers and nodes, on other
    /// cables, have its hardware address.
    fn is_harmless(self, image: &Image, routers: usize, nodes: usize) -> bool {
        if !self.is_addressed(image) {
            return false;
        }
        let mut found = false;
        for router in image.routers().iter().take(routers) {
            for port in router.ports.as_slice() {
                match self.shared_with(Station::of_port(port)) {
                    Shared::Nothing => {}
                    Shared::HardwareElsewhere => found = true,
                    Shared::Identity => return false,
                }
            }
        }
        for node in image.nodes().iter().take(nodes) {
            match self.shared_with(Station::of_node(node)) {
                Shared::Nothing => {}
                Shared::HardwareElsewhere => found = true,
                Shared::Identity => return false,
            }
        }
        found
    }
}

/// The port or the node at a place.
fn station_at(image: &Image, place: Place) -> Option<Station> {
    match place {
        Place::Port(r, p) => {
            let router = at(image.routers(), r)?;
            let port = at(router.ports.as_slice(), p)?;
            Some(Station::of_port(port))
        }
        Place::Node(k) => {
            let node = at(image.nodes(), k)?;
            Some(Station::of_node(node))
        }
        _ => None,
    }
}

/// Whether the place is a port or a node without an address.
pub(crate) fn is_unsettled(image: &Image, place: Place) -> bool {
    match station_at(image, place) {
        Some(station) => station.address.is_none(),
        None => false,
    }
}

/// Whether all that is wrong with port `p` of router `r` is that an earlier router has its hardware
/// address on another cable.
pub(crate) fn is_harmless_port(image: &Image, r: u32, p: u32) -> bool {
    let Some(router) = at(image.routers(), r) else {
        return false;
    };
    let Some(port) = at(router.ports.as_slice(), p) else {
        return false;
    };
    let earlier = (p as usize).saturating_sub(1);
    let mut ports = router.ports.as_slice().iter().take(earlier);
    if ports.any(|other| other.cable == port.cable) {
        return false;
    }
    let routers = (r as usize).saturating_sub(1);
    Station::of_port(port).is_harmless(image, routers, 0)
}

/// Whether all that is wrong with node `k` is that an earlier station has its hardware address on
/// another cable.
pub(crate) fn is_harmless_node(image: &Image, k: u32) -> bool {
    let Some(node) = at(image.nodes(), k) else {
        return false;
    };
    let nodes = (k as usize).saturating_sub(1);
    Station::of_node(node).is_harmless(image, image.routers().len(), nodes)
}
