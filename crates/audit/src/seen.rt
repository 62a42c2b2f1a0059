//! A filter of addresses. For almost every new address it shows that no earlier station has it, so
//! few pairs of stations are compared.

ghost use Rattle.std.specs.Prelude.{◌≡◌, ◌<◌};
ghost use Rattle.audit.specs.Seen.{HasSeen, HasSeenNothing, HasSeenPorts, SeesMore};
ghost use Rattle.audit.specs.Seen as spec;
ghost use Rattle.audit.specs.Seen.{address_slot, hardware_slot};

use at_base::{Addr, Hw};
use table_image::Port;

/// Marks of the addresses and hardware addresses seen so far. Two addresses may share a mark, so an
/// address with a mark may have been seen; one without a mark wasn't.
#[derive(Drop)]
pub(crate) struct Seen {
    addresses: [bool; 65536],
    hardware: [bool; 65536],
}

fn slot_of(a: Addr) -> usize
    ensures value { result ≡ address_slot a }
    ensures low { result < 65536 }
{
    (a.net as usize + 256 * a.node as usize) % 65536
}

fn hardware_slot_of(h: &Hw) -> usize
    ensures value { result ≡ hardware_slot h.now }
    ensures low { result < 65536 }
{
    h.0[5] as usize + 256 * h.0[4] as usize
}

impl Seen {
    /// An empty filter.
    pub(crate) fn new() -> Seen
        ensures { HasSeenNothing result }
    {
        Seen {
            addresses: [false; 65536],
            hardware: [false; 65536],
        }
    }

    /// Whether the address or the hardware address may have been seen.
    pub(crate) fn may_have(&self, a: Addr, h: &Hw) -> bool
        ensures { result ≡ spec.may_have self.now a h.now }
    {
        self.addresses[slot_of(a)] || self.hardware[hardware_slot_of(h)]
    }

    fn add(&mut self, a: Addr, h: &Hw)
        ensures seen { HasSeen self.new a h.now }
        ensures more { SeesMore self.old self.new }
    {
        self.addresses[slot_of(a)] = true;
        self.hardware[hardware_slot_of(h)] = true;
    }

    /// Marks both addresses of each of the ports.
    pub(crate) fn add_ports(&mut self, ports: &[Port])
        ensures seen { HasSeenPorts self.new ports.now }
        ensures more { SeesMore self.old self.new }
    {
        for port in ports {
            self.add(port.address, &port.hardware);
        }
    }
}
