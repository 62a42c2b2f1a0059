//! The lines for cables, routers, ports and nodes.

ghost use Rattle.std.specs.Prelude.{◌≡◌, ◌++◌, ◌+◌, ◌<◌, ◌^◌, OnOk};
ghost use Rattle.std.specs.List.{flat_map};
ghost use Rattle.drawing.specs.Marks.{mark_at, is_cable, is_node, is_port, is_router};
ghost use Rattle.drawing.specs.Labels.{label_end, text_line};
ghost use Rattle.drawing.specs.Shapes.{cable_line, cable_start, name_line, node_edge, node_lines};
ghost use Rattle.drawing.specs.Shapes.{node_place, node_start, port_line, port_start, range_line};
ghost use Rattle.drawing.specs.Shapes.{router_line, router_start};

use crate::labels::{put_end, put_line, put_number, put_text};
use crate::marks::{Mark, mark_at_cable, mark_at_node, mark_at_port, mark_at_router};
use crate::routes::put_router_route;
use at_base::Name;
use std::alloc::AllocError;
use table_image::{Cable, Image, Node, NodeName, Port};
use text::{put_address, put_decimal};

/// Appends the beginning of a cable's line.
fn put_cable_start(text: &mut Vec<u8>, k: u8) -> Result<(), AllocError>
    ensures { OnOk result (text.new.items ≡ text.old.items ++ cable_start k) }
{
    text.extend_from_slice(b"  c")?;
    put_number(text, k)?;
    text.extend_from_slice(b" [shape=box, style=filled, fillcolor=lightyellow, label=\"cable ")?;
    put_number(text, k)
}

/// Appends the range of a cable.
fn put_range(text: &mut Vec<u8>, start: u16, end: u16) -> Result<(), AllocError>
    ensures { OnOk result (text.new.items ≡ text.old.items ++ range_line start end) }
{
    text.extend_from_slice(b"\\n")?;
    put_decimal(text, u32::from(start))?;
    text.extend_from_slice(b"-")?;
    put_decimal(text, u32::from(end))
}

/// Appends the zones of a cable.
fn put_zones(text: &mut Vec<u8>, zones: &[Name]) -> Result<(), AllocError>
    ensures { OnOk result (text.new.items ≡ text.old.items ++ flat_map text_line zones.now) }
{
    match zones {
        [] => Ok(()),
        [first, rest @ ..] => {
            put_line(text, first.as_slice())?;
            put_zones(text, rest)
        }
    }
}

/// Appends the end of a cable's line.
fn put_cable_end(text: &mut Vec<u8>, mark: Option<Mark>, k: u8) -> Result<(), AllocError>
    ensures { OnOk result
        (text.new.items ≡ text.old.items ++ label_end (mark_at (is_cable k) mark)) }
{
    put_end(text, mark_at_cable(mark, k))
}

/// Appends the line of a cable.
pub(crate) fn put_cable(
    text: &mut Vec<u8>,
    mark: Option<Mark>,
    k: u8,
    cable: &Cable,
) -> Result<(), AllocError>
    ensures { OnOk result (text.new.items ≡ text.old.items ++ cable_line mark k cable.now) }
{
    put_cable_start(text, k)?;
    put_range(text, cable.start, cable.end)?;
    put_zones(text, cable.zones.as_slice())?;
    put_cable_end(text, mark, k)
}

/// Appends the beginning of a router's line.
fn put_router_start(text: &mut Vec<u8>, r: u8) -> Result<(), AllocError>
    ensures { OnOk result (text.new.items ≡ text.old.items ++ router_start r) }
{
    text.extend_from_slice(b"  r")?;
    put_number(text, r)?;
    text.extend_from_slice(b" [shape=ellipse, label=\"router ")?;
    put_number(text, r)
}

/// Appends the end of a router's line.
fn put_router_end(text: &mut Vec<u8>, mark: Option<Mark>, r: u8) -> Result<(), AllocError>
    ensures { OnOk result
        (text.new.items ≡ text.old.items ++ label_end (mark_at (is_router r) mark)) }
{
    put_end(text, mark_at_router(mark, r))
}

/// Appends the line of a router.
pub(crate) fn put_router(
    text: &mut Vec<u8>,
    image: &Image,
    mark: Option<Mark>,
    to: Option<u16>,
    r: u8,
) -> Result<(), AllocError>
    ensures { OnOk result (text.new.items ≡ text.old.items ++ router_line image.now mark to r) }
{
    put_router_start(text, r)?;
    put_router_route(text, image, to, r)?;
    put_router_end(text, mark, r)
}

/// Appends the beginning of a port's line.
fn put_port_start(text: &mut Vec<u8>, r: u8, port: &Port) -> Result<(), AllocError>
    ensures { OnOk result (text.new.items ≡ text.old.items ++ port_start r port.now) }
{
    text.extend_from_slice(b"  r")?;
    put_number(text, r)?;
    text.extend_from_slice(b" -> c")?;
    put_number(text, port.cable)?;
    text.extend_from_slice(b" [label=\"")
}

/// Appends the end of a port's line.
fn put_port_end(text: &mut Vec<u8>, mark: Option<Mark>, r: u8, p: usize) -> Result<(), AllocError>
    requires { p + 1 < 2 ^ 64 }
    ensures { OnOk result
        (text.new.items ≡ text.old.items ++ label_end (mark_at (is_port r p) mark)) }
{
    put_end(text, mark_at_port(mark, r, p))
}

/// Appends the line of a port.
pub(crate) fn put_port(
    text: &mut Vec<u8>,
    mark: Option<Mark>,
    r: u8,
    p: usize,
    port: &Port,
) -> Result<(), AllocError>
    requires { p + 1 < 2 ^ 64 }
    ensures { OnOk result (text.new.items ≡ text.old.items ++ port_line mark r p port.now) }
{
    put_port_start(text, r, port)?;
    put_address(text, port.address)?;
    put_port_end(text, mark, r, p)
}

/// Appends the beginning of a node's line.
fn put_node_start(text: &mut Vec<u8>, k: u8) -> Result<(), AllocError>
    ensures { OnOk result (text.new.items ≡ text.old.items ++ node_start k) }
{
    text.extend_from_slice(b"  n")?;
    put_number(text, k)?;
    text.extend_from_slice(b" [shape=plaintext, label=\"node ")?;
    put_number(text, k)
}

/// Appends the address and the zone of a node.
fn put_node_place(text: &mut Vec<u8>, node: &Node) -> Result<(), AllocError>
    ensures { OnOk result (text.new.items ≡ text.old.items ++ node_place node.now) }
{
    text.extend_from_slice(b"\\n")?;
    put_address(text, node.address)?;
    put_line(text, node.zone.as_slice())
}

/// Appends a name of a node.
fn put_name(text: &mut Vec<u8>, name: &NodeName) -> Result<(), AllocError>
    ensures { OnOk result (text.new.items ≡ text.old.items ++ name_line name.now) }
{
    put_line(text, name.object.as_slice())?;
    text.extend_from_slice(b":")?;
    put_text(text, name.kind.as_slice())
}

/// Appends the names of a node.
fn put_names(text: &mut Vec<u8>, names: &[NodeName]) -> Result<(), AllocError>
    ensures { OnOk result (text.new.items ≡ text.old.items ++ flat_map name_line names.now) }
{
    match names {
        [] => Ok(()),
        [first, rest @ ..] => {
            put_name(text, first)?;
            put_names(text, rest)
        }
    }
}

/// Appends the end of a node's line.
fn put_node_end(text: &mut Vec<u8>, mark: Option<Mark>, k: u8) -> Result<(), AllocError>
    ensures { OnOk result
        (text.new.items ≡ text.old.items ++ label_end (mark_at (is_node k) mark)) }
{
    put_end(text, mark_at_node(mark, k))
}

/// Appends the edge from a node to its cable.
fn put_node_edge(text: &mut Vec<u8>, k: u8, node: &Node) -> Result<(), AllocError>
    ensures { OnOk result (text.new.items ≡ text.old.items ++ node_edge k node.now) }
{
    text.extend_from_slice(b"  n")?;
    put_number(text, k)?;
    text.extend_from_slice(b" -> c")?;
    put_number(text, node.cable)?;
    text.extend_from_slice(b";\n")
}

/// Appends the lines of a node.
pub(crate) fn put_node(
    text: &mut Vec<u8>,
    mark: Option<Mark>,
    k: u8,
    node: &Node,
) -> Result<(), AllocError>
    ensures { OnOk result (text.new.items ≡ text.old.items ++ node_lines mark k node.now) }
{
    put_node_start(text, k)?;
    put_node_place(text, node)?;
    put_names(text, node.names.as_slice())?;
    put_node_end(text, mark, k)?;
    put_node_edge(text, k, node)
}
