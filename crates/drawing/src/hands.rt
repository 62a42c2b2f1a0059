//! What a router does with a datagram to a network.

ghost use Rattle.std.specs.Prelude.{◌≡◌, ◌==◌, ◌&&◌, ◌<◌, Some, IfSome, find, position};
ghost use Rattle.std.specs.List.{list_any};
ghost use Rattle.std.specs.Option.{option_copied};
ghost use Rattle.at_base.specs.Address as address_spec;
ghost use Rattle.at_base.specs.Range.{is_between};
ghost use Rattle.audit.specs.Routing as spec;
ghost use Rattle.drawing.specs.Hands.{action};
ghost use Rattle.rtmp.specs.States.{is_usable};

use at_base::Addr;
use table_image::{Image, Port, Router, Row};

/// What a router does with a datagram.
#[derive(Clone, Copy, Debug, PartialEq, Eq)]
pub(crate) enum Hand {
    /// Puts it on a cable, where it ends: the 0-based index of the cable.
    Here(u8),
    /// Hands it on: the 0-based indices of the next router and of a cable, and that router's address
    /// on the cable.
    On(u8, u8, Addr),
    /// Has no route for it.
    Nowhere,
}

/// Whether a router uses the row for datagrams to the network.
fn is_for(row: &Row, net: u16) -> bool
    ensures { result ≡ (is_usable row.now.state && is_between row.now.start row.now.end net) }
{
    row.state.is_usable() && row.start <= net && net <= row.end
}

/// The row that a router uses for datagrams to the network, if any.
fn row_for(rows: &[Row], net: u16) -> Option<&Row>
    ensures { option_copied result ≡ spec.row_for rows.now net }
{
    rows.iter().find(|row| is_for(row, net))
}

fn is_at(port: &Port, cable: u8, address: Addr) -> bool
    ensures { result ≡ (port.now.cable == cable && address_spec.same_address port.now.address address) }
{
    port.cable == cable && port.address.net == address.net && port.address.node == address.node
}

fn has_seat(router: &Router, cable: u8, address: Addr) -> bool
    ensures { result
        ≡ list_any (λ p. p.cable == cable && address_spec.same_address p.address address) router.now.ports }
{
    router
        .ports
        .as_slice()
        .iter()
        .any(|port| is_at(port, cable, address))
}

fn search_routers(routers: &[Router], cable: u8, address: Addr) -> Option<usize>
    ensures { result
        ≡ position
        (λ router. list_any (λ p. p.cable == cable && address_spec.same_address p.address address) router.ports)
        routers.now }
{
    routers
        .iter()
        .position(|router| has_seat(router, cable, address))
}

/// The 0-based index of the router that has a port with the address on the cable, if any.
fn owner(image: &Image, cable: u8, address: Addr) -> Option<usize>
    ensures value { result ≡ spec.owner image.now cable address }
    ensures low { IfSome result (λ r. r < 256) }
{
    search_routers(image.routers(), cable, address)
}

fn hand_to(image: &Image, cable: u8, address: Addr) -> Hand
    ensures { action result ≡ spec.hand_to (spec.owner image.now cable address) cable address }
{
    match owner(image, cable, address) {
        Some(router) => Hand::On(router as u8, cable, address),
        None => Hand::Nowhere,
    }
}

fn hand_over(image: &Image, row: &Row, port: &Port) -> Hand
    ensures { action result ≡ spec.hand_over image.now row.now (Some port.now) }
{
    if row.is_direct() {
        Hand::Here(port.cable)
    } else {
        hand_to(image, port.cable, row.next)
    }
}

fn hand_by(image: &Image, router: &Router, row: &Row) -> Hand
    ensures { action result ≡ spec.hand_by image.now router.now (Some row.now) }
{
    match router.ports.as_slice().get(row.port as usize) {
        Some(port) => hand_over(image, row, port),
        None => Hand::Nowhere,
    }
}

fn hand_at(image: &Image, router: &Router, net: u16) -> Hand
    ensures { action result ≡ spec.hand_at image.now (Some router.now) net }
{
    match row_for(router.rows.as_slice(), net) {
        Some(row) => hand_by(image, router, row),
        None => Hand::Nowhere,
    }
}

/// What the router with index `r`, from 0, does with a datagram to the network.
pub(crate) fn hand_of(image: &Image, r: u8, net: u16) -> Hand
    ensures { action result ≡ spec.hand image.now r net }
{
    match image.routers().get(usize::from(r)) {
        Some(router) => hand_at(image, router, net),
        None => Hand::Nowhere,
    }
}
