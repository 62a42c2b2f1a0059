//! Printing the drawing of an image.

ghost use Rattle.std.specs.Prelude.{◌+◌, ◌<◌, ◌≤◌, ◌^◌, length, OnOk};
ghost use Rattle.drawing.specs.Drawing.{arrows_text, drawing_text, head_text, parts_text};
ghost use Rattle.drawing.specs.Hands.{arrow_line};
ghost use Rattle.drawing.specs.Shapes.{cable_line, each_from, node_lines, port_line, router_line};
ghost use Rattle.drawing.specs.Shapes.{router_lines};
ghost use Rattle.text.specs.Going.{Goes};
ghost use Rattle.text.specs.Writing.{Prints};

use crate::hands::hand_of;
use crate::head::put_head;
use crate::marks::{Mark, mark_of};
use crate::routes::put_arrow;
use crate::shapes::{put_cable, put_node, put_port, put_router};
use at_base::Error;
use audit::Verdict;
use settled::Settling;
use std::io::Write;
use table_image::{Cable, Image, Node, Port, Router};
use text::Output;

/// Prints a text.
fn print_text<W: Write>(output: &mut Output<W>, text: &[u8]) -> Result<(), Error>
    ensures gone { OnOk result (Goes (W.contents output.old.writer) output.old.text.items
        text.now (W.contents output.new.writer) output.new.text.items) }
    ensures prints { Prints output.old.faults output.new.faults result }
{
    output.text.extend_from_slice(text)?;
    output.pass_on()
}

/// Prints the first lines.
fn print_head<W: Write>(
    output: &mut Output<W>,
    verdict: &Verdict,
    to: Option<u16>,
) -> Result<(), Error>
    ensures gone { OnOk result (Goes (W.contents output.old.writer) output.old.text.items
        (head_text verdict.now to) (W.contents output.new.writer) output.new.text.items) }
    ensures prints { Prints output.old.faults output.new.faults result }
{
    put_head(&mut output.text, verdict, to)?;
    output.pass_on()
}

/// Prints a cable.
fn print_cable<W: Write>(
    output: &mut Output<W>,
    mark: Option<Mark>,
    k: u8,
    cable: &Cable,
) -> Result<(), Error>
    ensures gone { OnOk result (Goes (W.contents output.old.writer) output.old.text.items
        (cable_line mark k cable.now) (W.contents output.new.writer) output.new.text.items) }
    ensures prints { Prints output.old.faults output.new.faults result }
{
    put_cable(&mut output.text, mark, k, cable)?;
    output.pass_on()
}

/// Prints cables, of which the first has index `k`.
fn print_cables<W: Write>(
    output: &mut Output<W>,
    mark: Option<Mark>,
    k: u8,
    cables: &[Cable],
) -> Result<(), Error>
    requires { k + length cables.now ≤ 255 }
    ensures gone { OnOk result (Goes (W.contents output.old.writer) output.old.text.items
        (each_from (cable_line mark) k cables.now) (W.contents output.new.writer) output.new.text.items) }
    ensures prints { Prints output.old.faults output.new.faults result }
{
    match cables {
        [] => Ok(()),
        [first, rest @ ..] => {
            print_cable(output, mark, k, first)?;
            print_cables(output, mark, k + 1, rest)
        }
    }
}

/// Prints a port.
fn print_port<W: Write>(
    output: &mut Output<W>,
    mark: Option<Mark>,
    r: u8,
    p: usize,
    port: &Port,
) -> Result<(), Error>
    requires { p + 1 < 2 ^ 64 }
    ensures gone { OnOk result (Goes (W.contents output.old.writer) output.old.text.items
        (port_line mark r p port.now) (W.contents output.new.writer) output.new.text.items) }
    ensures prints { Prints output.old.faults output.new.faults result }
{
    put_port(&mut output.text, mark, r, p, port)?;
    output.pass_on()
}

/// Prints ports of a router, of which the first has index `p`.
fn print_ports<W: Write>(
    output: &mut Output<W>,
    mark: Option<Mark>,
    r: u8,
    p: usize,
    ports: &[Port],
) -> Result<(), Error>
    requires { p + length ports.now < 2 ^ 64 }
    ensures gone { OnOk result (Goes (W.contents output.old.writer) output.old.text.items
        (each_from (port_line mark r) p ports.now) (W.contents output.new.writer) output.new.text.items) }
    ensures prints { Prints output.old.faults output.new.faults result }
{
    match ports {
        [] => Ok(()),
        [first, rest @ ..] => {
            print_port(output, mark, r, p, first)?;
            print_ports(output, mark, r, p + 1, rest)
        }
    }
}

/// Prints the ports of a router.
fn print_all_ports<W: Write>(
    output: &mut Output<W>,
    mark: Option<Mark>,
    r: u8,
    router: &Router,
) -> Result<(), Error>
    ensures gone { OnOk result (Goes (W.contents output.old.writer) output.old.text.items
        (each_from (port_line mark r) 0 router.now.ports)
        (W.contents output.new.writer) output.new.text.items) }
    ensures prints { Prints output.old.faults output.new.faults result }
{
    print_ports(output, mark, r, 0, router.ports.as_slice())
}

/// Prints the line of a router.
fn print_router_line<W: Write>(
    output: &mut Output<W>,
    image: &Image,
    mark: Option<Mark>,
    to: Option<u16>,
    r: u8,
) -> Result<(), Error>
    ensures gone { OnOk result (Goes (W.contents output.old.writer) output.old.text.items
        (router_line image.now mark to r) (W.contents output.new.writer) output.new.text.items) }
    ensures prints { Prints output.old.faults output.new.faults result }
{
    put_router(&mut output.text, image, mark, to, r)?;
    output.pass_on()
}

/// Prints a router and its ports.
fn print_router<W: Write>(
    output: &mut Output<W>,
    image: &Image,
    mark: Option<Mark>,
    to: Option<u16>,
    r: u8,
    router: &Router,
) -> Result<(), Error>
    ensures gone { OnOk result (Goes (W.contents output.old.writer) output.old.text.items
        (router_lines image.now mark to r router.now)
        (W.contents output.new.writer) output.new.text.items) }
    ensures prints { Prints output.old.faults output.new.faults result }
{
    print_router_line(output, image, mark, to, r)?;
    print_all_ports(output, mark, r, router)
}

/// Prints routers, of which the first has index `r`.
fn print_routers<W: Write>(
    output: &mut Output<W>,
    image: &Image,
    mark: Option<Mark>,
    to: Option<u16>,
    r: u8,
    routers: &[Router],
) -> Result<(), Error>
    requires { r + length routers.now ≤ 255 }
    ensures gone { OnOk result (Goes (W.contents output.old.writer) output.old.text.items
        (each_from (router_lines image.now mark to) r routers.now)
        (W.contents output.new.writer) output.new.text.items) }
    ensures prints { Prints output.old.faults output.new.faults result }
{
    match routers {
        [] => Ok(()),
        [first, rest @ ..] => {
            print_router(output, image, mark, to, r, first)?;
            print_routers(output, image, mark, to, r + 1, rest)
        }
    }
}

/// Prints a node.
fn print_node<W: Write>(
    output: &mut Output<W>,
    mark: Option<Mark>,
    k: u8,
    node: &Node,
) -> Result<(), Error>
    ensures gone { OnOk result (Goes (W.contents output.old.writer) output.old.text.items
        (node_lines mark k node.now) (W.contents output.new.writer) output.new.text.items) }
    ensures prints { Prints output.old.faults output.new.faults result }
{
    put_node(&mut output.text, mark, k, node)?;
    output.pass_on()
}

/// Prints nodes, of which the first has index `k`.
fn print_nodes<W: Write>(
    output: &mut Output<W>,
    mark: Option<Mark>,
    k: u8,
    nodes: &[Node],
) -> Result<(), Error>
    requires { k + length nodes.now ≤ 255 }
    ensures gone { OnOk result (Goes (W.contents output.old.writer) output.old.text.items
        (each_from (node_lines mark) k nodes.now) (W.contents output.new.writer) output.new.text.items) }
    ensures prints { Prints output.old.faults output.new.faults result }
{
    match nodes {
        [] => Ok(()),
        [first, rest @ ..] => {
            print_node(output, mark, k, first)?;
            print_nodes(output, mark, k + 1, rest)
        }
    }
}

/// Prints the cables of an image.
fn print_all_cables<W: Write>(
    output: &mut Output<W>,
    image: &Image,
    mark: Option<Mark>,
) -> Result<(), Error>
    ensures gone { OnOk result (Goes (W.contents output.old.writer) output.old.text.items
        (each_from (cable_line mark) 0 image.now.cables)
        (W.contents output.new.writer) output.new.text.items) }
    ensures prints { Prints output.old.faults output.new.faults result }
{
    print_cables(output, mark, 0, image.cables())
}

/// Prints the routers of an image.
fn print_all_routers<W: Write>(
    output: &mut Output<W>,
    image: &Image,
    mark: Option<Mark>,
    to: Option<u16>,
) -> Result<(), Error>
    ensures gone { OnOk result (Goes (W.contents output.old.writer) output.old.text.items
        (each_from (router_lines image.now mark to) 0 image.now.routers)
        (W.contents output.new.writer) output.new.text.items) }
    ensures prints { Prints output.old.faults output.new.faults result }
{
    print_routers(output, image, mark, to, 0, image.routers())
}

/// Prints the nodes of an image.
fn print_all_nodes<W: Write>(
    output: &mut Output<W>,
    image: &Image,
    mark: Option<Mark>,
) -> Result<(), Error>
    ensures gone { OnOk result (Goes (W.contents output.old.writer) output.old.text.items
        (each_from (node_lines mark) 0 image.now.nodes)
        (W.contents output.new.writer) output.new.text.items) }
    ensures prints { Prints output.old.faults output.new.faults result }
{
    print_nodes(output, mark, 0, image.nodes())
}

/// Prints the parts of an internet.
fn print_parts<W: Write>(
    output: &mut Output<W>,
    image: &Image,
    mark: Option<Mark>,
    to: Option<u16>,
) -> Result<(), Error>
    ensures gone { OnOk result (Goes (W.contents output.old.writer) output.old.text.items
        (parts_text image.now mark to) (W.contents output.new.writer) output.new.text.items) }
    ensures prints { Prints output.old.faults output.new.faults result }
{
    print_all_cables(output, image, mark)?;
    print_all_routers(output, image, mark, to)?;
    print_all_nodes(output, image, mark)
}

/// Prints the arrow from a router for a network, if the router has a route.
fn print_arrow<W: Write>(
    output: &mut Output<W>,
    image: &Image,
    net: u16,
    r: u8,
    router: &Router,
) -> Result<(), Error>
    ensures gone { OnOk result (Goes (W.contents output.old.writer) output.old.text.items
        (arrow_line image.now net r router.now)
        (W.contents output.new.writer) output.new.text.items) }
    ensures prints { Prints output.old.faults output.new.faults result }
{
    put_arrow(&mut output.text, r, hand_of(image, r, net))?;
    output.pass_on()
}

/// Prints the arrows from routers, of which the first has index `r`.
fn print_arrows<W: Write>(
    output: &mut Output<W>,
    image: &Image,
    net: u16,
    r: u8,
    routers: &[Router],
) -> Result<(), Error>
    requires { r + length routers.now ≤ 255 }
    ensures gone { OnOk result (Goes (W.contents output.old.writer) output.old.text.items
        (each_from (arrow_line image.now net) r routers.now)
        (W.contents output.new.writer) output.new.text.items) }
    ensures prints { Prints output.old.faults output.new.faults result }
{
    match routers {
        [] => Ok(()),
        [first, rest @ ..] => {
            print_arrow(output, image, net, r, first)?;
            print_arrows(output, image, net, r + 1, rest)
        }
    }
}

/// Prints the arrows from all routers, if a network is asked for.
fn print_all_arrows<W: Write>(
    output: &mut Output<W>,
    image: &Image,
    to: Option<u16>,
) -> Result<(), Error>
    ensures gone { OnOk result (Goes (W.contents output.old.writer) output.old.text.items
        (arrows_text image.now to) (W.contents output.new.writer) output.new.text.items) }
    ensures prints { Prints output.old.faults output.new.faults result }
{
    match to {
        Some(net) => print_arrows(output, image, net, 0, image.routers()),
        None => Ok(()),
    }
}

/// Prints the drawing of an image in Graphviz' language: its cables, its routers with their ports,
/// and its nodes, each numbered from 1, under the line of the verdict. Where the verdict is no, its
/// place is red, and has the rule as the last line of its label; where it is yes and the tables
/// aren't settled, the router of the first row that may change is orange, and has the row as the last
/// line of its label. If a network is asked for by `to`,
/// an arrow leads from each router to the cable or to the next router to which that router sends a
/// datagram for it, and `no route` is in the label of each router that has none.
///
/// The verdict is that of the image's audit, and whether its tables are settled is what `settled`
/// says; of others, a place that the image doesn't have is drawn nowhere. Text is written in large pieces; what is left of it at the end stays in the
/// output.
///
/// Errors: `Memory`; `WriteFault`, only if the writer failed. After an error, a part of the text may
/// have been written.
pub fn print_drawing<W: Write>(
    output: &mut Output<W>,
    image: &Image,
    verdict: &Verdict,
    settling: Settling,
    to: Option<u16>,
) -> Result<(), Error>
    ensures gone { OnOk result (Goes (W.contents output.old.writer) output.old.text.items
        (drawing_text image.now verdict.now settling to)
        (W.contents output.new.writer) output.new.text.items) }
    ensures prints { Prints output.old.faults output.new.faults result }
{
    print_head(output, verdict, to)?;
    print_parts(output, image, mark_of(verdict, settling), to)?;
    print_all_arrows(output, image, to)?;
    print_text(output, b"}\n")
}
