//! The parts of a file.

ghost use Rattle.std.specs.Prelude.{◌≡◌, IfOk, IsOkUnless};
ghost use Rattle.toml.specs.View.{table_view};
ghost use Rattle.at_base.specs.declared.error.Part.TheVariants as name;
ghost use Rattle.file_entries.specs.Faults.{blamed, part_outcome};
ghost use Rattle.tables_file.specs.Files.{cables_in, nodes_in, routers_in};

use crate::cable::Cables;
use crate::node::Nodes;
use crate::router::Routers;
use at_base::limits::{MAX_CABLES, MAX_NODES, MAX_ROUTERS};
use at_base::{Error, Part};
use file_entries::Faults;
use file_entries::entries::{Found, part_up_to};
use file_entries::key::entries_at;
use std::alloc::Global;
use table_image::{Cable, Node, Router, Version};
use toml::Table;

/// The cables, at most 200. Error: `Memory`.
#[tactic(auto, unfolding(crate::specs::Files::cables_in))]
pub(crate) fn read_cables(
    alloc: Global,
    version: Version,
    table: &Table,
    faults: &mut Faults,
) -> Result<Found<Cable>, Error>
    ensures read { IfOk result (λ x.
        part_outcome name.Cable x.bad x.entries ≡ cables_in version (table_view table.now)) }
    ensures told { IfOk result (λ x. faults.new ≡ blamed name.Cable x.bad faults.old) }
    ensures refused { IsOkUnless result Error.Memory }
{
    let reader = Cables { version };
    let values = entries_at(table, "cable");
    part_up_to(
        alloc,
        MAX_CABLES as u32,
        Part::Cable,
        &reader,
        values,
        faults,
    )
}

/// The routers, at most 200. Error: `Memory`.
#[tactic(auto, unfolding(crate::specs::Files::routers_in))]
pub(crate) fn read_routers(
    alloc: Global,
    version: Version,
    cables: &[Cable],
    mark: u16,
    table: &Table,
    faults: &mut Faults,
) -> Result<Found<Router>, Error>
    ensures read { IfOk result (λ x. part_outcome name.Router x.bad x.entries
        ≡ routers_in version cables.now mark (table_view table.now)) }
    ensures told { IfOk result (λ x. faults.new ≡ blamed name.Router x.bad faults.old) }
    ensures refused { IsOkUnless result Error.Memory }
{
    let reader = Routers {
        version,
        cables,
        mark,
    };
    let values = entries_at(table, "router");
    part_up_to(
        alloc,
        MAX_ROUTERS as u32,
        Part::Router,
        &reader,
        values,
        faults,
    )
}

/// The nodes, at most 200, on one of so many cables. Error: `Memory`.
#[tactic(auto, unfolding(crate::specs::Files::nodes_in))]
pub(crate) fn read_nodes(
    alloc: Global,
    version: Version,
    cables: usize,
    mark: u16,
    table: &Table,
    faults: &mut Faults,
) -> Result<Found<Node>, Error>
    ensures read { IfOk result (λ x. part_outcome name.Node x.bad x.entries
        ≡ nodes_in version cables mark (table_view table.now)) }
    ensures told { IfOk result (λ x. faults.new ≡ blamed name.Node x.bad faults.old) }
    ensures refused { IsOkUnless result Error.Memory }
{
    let reader = Nodes {
        version,
        cables,
        mark,
    };
    let values = entries_at(table, "node");
    part_up_to(alloc, MAX_NODES as u32, Part::Node, &reader, values, faults)
}
