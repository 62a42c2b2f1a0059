//! Hints for rule C10: where the station with an address is in the image.

use at_base::Addr;
use at_base::limits::{MAX_NODES, MAX_PORTS, MAX_ROUTERS};
use table_image::{Image, Node, Port, Router};

const MAX_OWNERS: usize = MAX_ROUTERS * MAX_PORTS + MAX_NODES;

/// An owner of an address, by 0-based indices.
#[derive(Clone, Copy)]
pub(crate) enum Owner {
    /// A router, and one of its ports.
    Port(u8, u8),
    /// A node.
    Node(u8),
}

#[derive(Clone, Copy)]
struct Hint {
    address: u32,
    owner: Owner,
}

/// For each address, the port or the node that may have it: a hint, which is verified before it is
/// used. Hints in order are searched by halving, so that no choice of addresses makes a search slow.
#[derive(Drop)]
pub(crate) struct StationHints {
    hints: [Hint; 3400],
    len: usize,
}

/// The place of an address in the order of addresses.
fn number_of(address: Addr) -> u32 {
    u32::from(address.net) * 256 + u32::from(address.node)
}

impl StationHints {
    fn add(&mut self, address: Addr, owner: Owner) {
        if self.len < MAX_OWNERS {
            self.hints[self.len] = Hint {
                address: number_of(address),
                owner,
            };
            self.len += 1;
        }
    }

    fn add_ports(&mut self, r: u8, ports: &[Port]) {
        for (p, port) in ports.iter().enumerate() {
            self.add(port.address, Owner::Port(r, (p % 256) as u8));
        }
    }

    fn add_routers(&mut self, routers: &[Router]) {
        for (r, router) in routers.iter().enumerate() {
            self.add_ports((r % 256) as u8, router.ports.as_slice());
        }
    }

    fn add_nodes(&mut self, nodes: &[Node]) {
        for (k, node) in nodes.iter().enumerate() {
            self.add(node.address, Owner::Node((k % 256) as u8));
        }
    }

    fn sort(&mut self) {
        let len = self.len.min(MAX_OWNERS);
        self.hints[..len].sort_unstable_by_key(|hint| hint.address);
    }

    /// The hints for all stations of the image.
    pub(crate) fn of(image: &Image) -> StationHints {
        let nobody = Hint {
            address: 0,
            owner: Owner::Node(0),
        };
        let mut hints = StationHints {
            hints: [nobody; 3400],
            len: 0,
        };
        hints.add_routers(image.routers());
        hints.add_nodes(image.nodes());
        hints.sort();
        hints
    }

    /// The port or the node that may have the address.
    pub(crate) fn owner(&self, address: Addr) -> Option<Owner> {
        let hints = &self.hints[..self.len.min(MAX_OWNERS)];
        match hints.binary_search_by_key(&number_of(address), |hint| hint.address) {
            Ok(k) => Some(hints[k].owner),
            Err(_) => None,
        }
    }
}
