//! Next routers: rule C6 (they exist) and rule C7 (they are one router nearer).

ghost use Rattle.std.specs.Prelude.{◌≡◌, ◌≢◌, ◌<◌, ◌&&◌, ℕ, not, None, length, slice_get};
ghost use Rattle.table_image.specs.Rows as rows_spec;
ghost use Rattle.audit.specs.Firsts.{FirstPlace};
ghost use Rattle.audit.specs.Hints.{FirstOr, HasHintsBelow, Names, hint_at, hint_slot, port_slot};
ghost use Rattle.audit.specs.Routing as routing_spec;
ghost use Rattle.audit.specs.Rules as rules_spec;
ghost use Rattle.audit.specs.Rules.{bad_step, c2, not_one_less};

use crate::lookups::{owner, same_row};
use at_base::Addr;
use table_image::{Image, Port, Router, Row};

/// For each cable and node number, a router that may have a port there with that number: a hint,
/// which is verified before it is used. The network is left out, since a cable seldom has the same
/// node number on two of its networks.
#[derive(Drop)]
pub(crate) struct Hints {
    routers: [u8; 65536],
}

fn slot(cable: u8, node: u8) -> usize
    ensures value { result ≡ hint_slot cable node }
    ensures low { result < 65536 }
{
    cable as usize * 256 + node as usize
}

impl Hints {
    fn put(&mut self, s: u8, port: &Port)
        ensures here { hint_at self.new (port_slot port.now) ≡ s }
        ensures others { (slot : ℕ)
            → slot ≢ port_slot port.now → hint_at self.new slot ≡ hint_at self.old slot }
    {
        self.routers[slot(port.cable, port.address.node)] = s;
    }

    fn add_ports(&mut self, s: u8, ports: &[Port])
        ensures each { Names self.new s ports.now }
        ensures others { (slot : ℕ) → FirstOr self.new self.old s ports.now slot }
    {
        for port in ports {
            self.put(s, port);
        }
    }

    /// The hints for the routers of the image: that of each port names a router with a port on the
    /// same cable and with the same node number.
    pub(crate) fn of(image: &Image) -> Hints
        ensures { HasHintsBelow result image.now.routers (length image.now.routers) }
    {
        let mut hints = Hints {
            routers: [0; 65536],
        };
        for (r, router) in image.routers().iter().enumerate() {
            hints.add_ports((r % 256) as u8, router.ports.as_slice());
        }
        hints
    }

    /// The 0-based index of the router that has a port with the address on the cable, if any.
    pub(crate) fn owner(&self, image: &Image, cable: u8, address: Addr) -> Option<usize>
        requires { FirstPlace (c2 image.now) None }
        ensures { result ≡ routing_spec.owner image.now cable address }
    {
        let hint = self.routers[slot(cable, address.node)];
        owner(image, hint as usize, cable, address)
    }
}

/// The 0-based index of the row's next router, if any.
pub(crate) fn next_router(image: &Image, hints: &Hints, router: &Router, row: &Row) -> Option<usize>
    requires { FirstPlace (c2 image.now) None }
    ensures { result ≡ rules_spec.next_router image.now router.now row.now }
{
    match router.ports.as_slice().get(row.port as usize) {
        Some(port) => hints.owner(image, port.cable, row.next),
        None => None,
    }
}

/// Whether the row breaks rule C6.
pub(crate) fn breaks_next(
    image: &Image,
    hints: &Hints,
    r: usize,
    router: &Router,
    row: &Row,
) -> bool
    requires { FirstPlace (c2 image.now) None }
    ensures { result ≡ (not (rows_spec.is_direct row.now)
        && rules_spec.is_no_other r (rules_spec.next_router image.now router.now row.now)) }
{
    if row.is_direct() {
        return false;
    }
    match next_router(image, hints, router, row) {
        Some(s) => r == s,
        None => true,
    }
}

fn row_at(image: &Image, s: usize, k: usize, row: &Row) -> Option<Row>
    ensures { result ≡ rules_spec.same_row (slice_get image.now.routers s) row.now }
{
    match image.routers().get(s) {
        Some(router) => same_row(router, k, row),
        None => None,
    }
}

fn is_not_one_less(row: &Row, other: Option<Row>) -> bool
    ensures { result ≡ not_one_less row.now other }
{
    match other {
        Some(other) => !(other.distance as u32 + 1 == row.distance as u32),
        None => true,
    }
}

fn is_bad_step(image: &Image, k: usize, row: &Row, next: Option<usize>) -> bool
    ensures { result ≡ bad_step image.now row.now next }
{
    match next {
        Some(s) => is_not_one_less(row, row_at(image, s, k, row)),
        None => true,
    }
}

/// Whether the row breaks rule C7.
pub(crate) fn breaks_steps(
    image: &Image,
    hints: &Hints,
    router: &Router,
    k: usize,
    row: &Row,
) -> bool
    requires { FirstPlace (c2 image.now) None }
    ensures { result
        ≡ (not (rows_spec.is_direct row.now)
        && bad_step image.now row.now (rules_spec.next_router image.now router.now row.now)) }
{
    !row.is_direct() && is_bad_step(image, k, row, next_router(image, hints, router, row))
}
