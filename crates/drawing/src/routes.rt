//! Arrows for what routers do with datagrams, and labels of routers without a route.

ghost use Rattle.std.specs.Prelude.{◌≡◌, ◌++◌, OnOk};
ghost use Rattle.drawing.specs.Hands.{action, arrow, arrow_here, arrow_label, arrow_on, route_line};
ghost use Rattle.drawing.specs.Hands.{router_route};

use crate::hands::{Hand, hand_of};
use crate::labels::{put_letters, put_number};
use at_base::Addr;
use std::alloc::AllocError;
use table_image::Image;
use text::put_address;

/// Appends the further line of a router's label, if the router has no route.
fn put_route(text: &mut Vec<u8>, hand: Hand) -> Result<(), AllocError>
    ensures { OnOk result (text.new.items ≡ text.old.items ++ route_line (action hand)) }
{
    match hand {
        Hand::Here(_) | Hand::On(_, _, _) => Ok(()),
        Hand::Nowhere => text.extend_from_slice(b"\\nno route"),
    }
}

/// Appends the same, if a network is asked for.
pub(crate) fn put_router_route(
    text: &mut Vec<u8>,
    image: &Image,
    to: Option<u16>,
    r: u8,
) -> Result<(), AllocError>
    ensures { OnOk result (text.new.items ≡ text.old.items ++ router_route image.now to r) }
{
    match to {
        Some(net) => put_route(text, hand_of(image, r, net)),
        None => Ok(()),
    }
}

/// Appends an arrow to a cable.
fn put_arrow_here(text: &mut Vec<u8>, r: u8, cable: u8) -> Result<(), AllocError>
    ensures { OnOk result (text.new.items ≡ text.old.items ++ arrow_here r cable) }
{
    text.extend_from_slice(b"  r")?;
    put_number(text, r)?;
    text.extend_from_slice(b" -> c")?;
    put_number(text, cable)?;
    text.extend_from_slice(b" [dir=forward, color=blue];\n")
}

/// Appends the label of an arrow to a router.
fn put_arrow_label(text: &mut Vec<u8>, address: Addr) -> Result<(), AllocError>
    ensures { OnOk result (text.new.items ≡ text.old.items ++ arrow_label address) }
{
    text.extend_from_slice(b" [dir=forward, color=blue, fontcolor=blue, label=\"")?;
    put_address(text, address)?;
    put_letters(text, b"\"];\n")
}

/// Appends an arrow to a router.
fn put_arrow_on(text: &mut Vec<u8>, r: u8, next: u8, address: Addr) -> Result<(), AllocError>
    ensures { OnOk result (text.new.items ≡ text.old.items ++ arrow_on r next address) }
{
    text.extend_from_slice(b"  r")?;
    put_number(text, r)?;
    text.extend_from_slice(b" -> r")?;
    put_number(text, next)?;
    put_arrow_label(text, address)
}

/// Appends the arrow from a router, if the router has a route.
pub(crate) fn put_arrow(text: &mut Vec<u8>, r: u8, hand: Hand) -> Result<(), AllocError>
    ensures { OnOk result (text.new.items ≡ text.old.items ++ arrow r (action hand)) }
{
    match hand {
        Hand::Here(cable) => put_arrow_here(text, r, cable),
        Hand::On(next, _, address) => put_arrow_on(text, r, next, address),
        Hand::Nowhere => Ok(()),
    }
}
