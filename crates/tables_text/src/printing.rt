//! Printing the tables of an image.

ghost use Rattle.std.specs.Prelude.{◌≡◌, ◌++◌, List, ℕ, OnOk, codes};
ghost use Rattle.std.specs.List.{flat_map};
ghost use Rattle.tables_text.specs.Tables.{array_text, cable_entry, elements};
ghost use Rattle.tables_text.specs.Tables.{lines_of, list_line, mapping_line};
ghost use Rattle.tables_text.specs.Tables.{name_line, node_entry, node_head, node_mappings};
ghost use Rattle.tables_text.specs.Tables.{port_line};
ghost use Rattle.tables_text.specs.Tables.{router_entry, row_line, tables_text, version_line};
ghost use Rattle.text.specs.Going.{Goes};
ghost use Rattle.text.specs.Writing.{Prints};

use crate::entries;
use crate::entries::{put_node_head, put_version};
use at_base::Error;
use std::alloc::AllocError;
use std::io::Write;
use table_image::{Cable, Image, Listed, Mapping, Node, NodeName, Port, Router, Row, ZoneList};
use text::Output;

/// What is printed in one piece.
trait Shown: Drop {
    ghost use Rattle.std.specs.Prelude.{◌≡◌, ◌++◌, List, ℕ, OnOk};

    ghost shown: { Self → List ℕ };

    /// Appends its text.
    fn put(&self, text: &mut Vec<u8>) -> Result<(), AllocError>
        ensures { OnOk result (text.new.items ≡ text.old.items ++ shown self.now) };
}

impl Shown for Cable {
    ghost shown = { cable_entry };

    fn put(&self, text: &mut Vec<u8>) -> Result<(), AllocError> {
        entries::put_cable(text, self)
    }
}

impl Shown for Port {
    ghost shown = { port_line };

    fn put(&self, text: &mut Vec<u8>) -> Result<(), AllocError> {
        entries::put_port(text, self)
    }
}

impl Shown for Row {
    ghost shown = { row_line };

    fn put(&self, text: &mut Vec<u8>) -> Result<(), AllocError> {
        entries::put_row(text, self)
    }
}

impl Shown for ZoneList {
    ghost shown = { list_line };

    fn put(&self, text: &mut Vec<u8>) -> Result<(), AllocError> {
        entries::put_list(text, self)
    }
}

impl Shown for NodeName {
    ghost shown = { name_line };

    fn put(&self, text: &mut Vec<u8>) -> Result<(), AllocError> {
        entries::put_name(text, self)
    }
}

impl Shown for Mapping {
    ghost shown = { mapping_line };

    fn put(&self, text: &mut Vec<u8>) -> Result<(), AllocError> {
        entries::put_mapping_line(text, self)
    }
}

/// Prints a text.
fn print_text<W: Write>(output: &mut Output<W>, text: &[u8]) -> Result<(), Error>
    ensures gone { OnOk result (Goes (W.contents output.old.writer) output.old.text.items
        text.now (W.contents output.new.writer) output.new.text.items) }
    ensures prints { Prints output.old.faults output.new.faults result }
{
    output.text.extend_from_slice(text)?;
    output.pass_on()
}

/// Prints one piece.
fn print_one<T: Shown, W: Write>(output: &mut Output<W>, item: &T) -> Result<(), Error>
    ensures gone { OnOk result (Goes (W.contents output.old.writer) output.old.text.items
        (T.shown item.now) (W.contents output.new.writer) output.new.text.items) }
    ensures prints { Prints output.old.faults output.new.faults result }
{
    item.put(&mut output.text)?;
    output.pass_on()
}

/// Prints pieces, one after the other.
fn print_each<T: Shown, W: Write>(output: &mut Output<W>, items: &[T]) -> Result<(), Error>
    ensures gone { OnOk result (Goes (W.contents output.old.writer) output.old.text.items
        (flat_map T.shown items.now) (W.contents output.new.writer) output.new.text.items) }
    ensures prints { Prints output.old.faults output.new.faults result }
{
    match items {
        [] => Ok(()),
        [first, rest @ ..] => {
            print_one(output, first)?;
            print_each(output, rest)
        }
    }
}

/// Prints the value of an array, with an element in each line.
fn print_elements<T: Shown, W: Write>(output: &mut Output<W>, items: &[T]) -> Result<(), Error>
    ensures gone { OnOk result (Goes (W.contents output.old.writer) output.old.text.items
        (elements T.shown items.now) (W.contents output.new.writer) output.new.text.items) }
    ensures prints { Prints output.old.faults output.new.faults result }
{
    print_text(output, b" = [\n")?;
    print_each(output, items)?;
    print_text(output, b"]\n")
}

/// Prints the value of an array that may be empty.
fn print_array<T: Shown, W: Write>(output: &mut Output<W>, items: &[T]) -> Result<(), Error>
    ensures gone { OnOk result (Goes (W.contents output.old.writer) output.old.text.items
        (array_text T.shown items.now) (W.contents output.new.writer) output.new.text.items) }
    ensures prints { Prints output.old.faults output.new.faults result }
{
    if items.len() == 0 {
        print_text(output, b" = []\n")
    } else {
        print_elements(output, items)
    }
}

/// Prints a key whose value is an array.
fn print_lines<T: Shown, W: Write>(
    output: &mut Output<W>,
    key: &[u8],
    items: &Listed<T>,
) -> Result<(), Error>
    ensures gone { OnOk result (Goes (W.contents output.old.writer) output.old.text.items
        (lines_of key.now T.shown items.now) (W.contents output.new.writer) output.new.text.items) }
    ensures prints { Prints output.old.faults output.new.faults result }
{
    print_text(output, key)?;
    print_array(output, items.as_slice())
}

/// Prints a router.
fn print_router<W: Write>(output: &mut Output<W>, router: &Router) -> Result<(), Error>
    ensures gone { OnOk result (Goes (W.contents output.old.writer) output.old.text.items
        (router_entry router.now) (W.contents output.new.writer) output.new.text.items) }
    ensures prints { Prints output.old.faults output.new.faults result }
{
    print_text(output, b"\n[[router]]\n")?;
    print_lines(output, b"port", &router.ports)?;
    print_lines(output, b"row", &router.rows)?;
    print_lines(output, b"list", &router.lists)
}

/// Prints routers.
fn print_routers<W: Write>(output: &mut Output<W>, routers: &[Router]) -> Result<(), Error>
    ensures gone { OnOk result (Goes (W.contents output.old.writer) output.old.text.items
        (flat_map router_entry routers.now) (W.contents output.new.writer) output.new.text.items) }
    ensures prints { Prints output.old.faults output.new.faults result }
{
    match routers {
        [] => Ok(()),
        [first, rest @ ..] => {
            print_router(output, first)?;
            print_routers(output, rest)
        }
    }
}

/// Prints what a node has once.
fn print_node_head<W: Write>(output: &mut Output<W>, node: &Node) -> Result<(), Error>
    ensures gone { OnOk result (Goes (W.contents output.old.writer) output.old.text.items
        (node_head node.now) (W.contents output.new.writer) output.new.text.items) }
    ensures prints { Prints output.old.faults output.new.faults result }
{
    put_node_head(&mut output.text, node)?;
    output.pass_on()
}

/// Prints the mappings of a node, if it has any.
fn print_mappings<W: Write>(output: &mut Output<W>, mappings: &Listed<Mapping>) -> Result<(), Error>
    ensures gone { OnOk result (Goes (W.contents output.old.writer) output.old.text.items
        (node_mappings mappings.now) (W.contents output.new.writer) output.new.text.items) }
    ensures prints { Prints output.old.faults output.new.faults result }
{
    if mappings.is_empty() {
        Ok(())
    } else {
        print_lines(output, b"mapping", mappings)
    }
}

/// Prints a node.
fn print_node<W: Write>(output: &mut Output<W>, node: &Node) -> Result<(), Error>
    ensures gone { OnOk result (Goes (W.contents output.old.writer) output.old.text.items
        (node_entry node.now) (W.contents output.new.writer) output.new.text.items) }
    ensures prints { Prints output.old.faults output.new.faults result }
{
    print_node_head(output, node)?;
    print_lines(output, b"name", &node.names)?;
    print_mappings(output, &node.mappings)
}

/// Prints nodes.
fn print_nodes<W: Write>(output: &mut Output<W>, nodes: &[Node]) -> Result<(), Error>
    ensures gone { OnOk result (Goes (W.contents output.old.writer) output.old.text.items
        (flat_map node_entry nodes.now) (W.contents output.new.writer) output.new.text.items) }
    ensures prints { Prints output.old.faults output.new.faults result }
{
    match nodes {
        [] => Ok(()),
        [first, rest @ ..] => {
            print_node(output, first)?;
            print_nodes(output, rest)
        }
    }
}

/// Prints the line of the version.
fn print_version<W: Write>(output: &mut Output<W>, image: &Image) -> Result<(), Error>
    ensures gone { OnOk result (Goes (W.contents output.old.writer) output.old.text.items
        (version_line image.now.version) (W.contents output.new.writer) output.new.text.items) }
    ensures prints { Prints output.old.faults output.new.faults result }
{
    put_version(&mut output.text, image.version())?;
    output.pass_on()
}

/// Prints the cables of an image.
fn print_cables<W: Write>(output: &mut Output<W>, image: &Image) -> Result<(), Error>
    ensures gone { OnOk result (Goes (W.contents output.old.writer) output.old.text.items
        (flat_map cable_entry image.now.cables) (W.contents output.new.writer) output.new.text.items) }
    ensures prints { Prints output.old.faults output.new.faults result }
{
    print_each(output, image.cables())
}

/// Prints the routers of an image.
fn print_all_routers<W: Write>(output: &mut Output<W>, image: &Image) -> Result<(), Error>
    ensures gone { OnOk result (Goes (W.contents output.old.writer) output.old.text.items
        (flat_map router_entry image.now.routers) (W.contents output.new.writer) output.new.text.items) }
    ensures prints { Prints output.old.faults output.new.faults result }
{
    print_routers(output, image.routers())
}

/// Prints the nodes of an image.
fn print_all_nodes<W: Write>(output: &mut Output<W>, image: &Image) -> Result<(), Error>
    ensures gone { OnOk result (Goes (W.contents output.old.writer) output.old.text.items
        (flat_map node_entry image.now.nodes) (W.contents output.new.writer) output.new.text.items) }
    ensures prints { Prints output.old.faults output.new.faults result }
{
    print_nodes(output, image.nodes())
}

/// Prints the tables of an image as a tables file: every key of every entry, in one order and
/// layout. Text is written in large pieces; what is left of it at the end stays in the output.
///
/// Errors: `Memory`; `WriteFault`, only if the writer failed. After an error, a part of the text may
/// have been written.
pub fn print_tables<W: Write>(output: &mut Output<W>, image: &Image) -> Result<(), Error>
    ensures gone { OnOk result (Goes (W.contents output.old.writer) output.old.text.items
        (tables_text image.now) (W.contents output.new.writer) output.new.text.items) }
    ensures prints { Prints output.old.faults output.new.faults result }
{
    print_version(output, image)?;
    print_cables(output, image)?;
    print_all_routers(output, image)?;
    print_all_nodes(output, image)
}
