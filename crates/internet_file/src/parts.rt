//! The parts of a file.

ghost use Rattle.std.specs.Prelude.{◌≡◌, IfOk, IsOkUnless};
ghost use Rattle.toml.specs.View.{table_view};
ghost use Rattle.at_base.specs.declared.error.Part.TheVariants as name;
ghost use Rattle.file_entries.specs.Faults.{blamed, part_outcome};
ghost use Rattle.internet_file.specs.Files.{actions_in, cables_in, losses_in, nodes_in, routers_in};

use crate::action::{Action, Actions};
use crate::cable::{Cable, Cables};
use crate::loss::{Loss, Losses};
use crate::node::{Node, Nodes};
use crate::router::{Router, Routers};
use at_base::limits::{MAX_CABLES, MAX_NODES, MAX_ROUTERS};
use at_base::{Error, Part};
use file_entries::Faults;
use file_entries::entries::{Found, part, part_up_to};
use file_entries::key::entries_at;
use std::alloc::Global;
use toml::Table;

/// The cables, at most 200. Error: `Memory`.
#[tactic(auto, unfolding(crate::specs::Files::cables_in))]
pub(crate) fn read_cables(
    alloc: Global,
    table: &Table,
    faults: &mut Faults,
) -> Result<Found<Cable>, Error>
    ensures read { IfOk result (λ x.
        part_outcome name.Cable x.bad x.entries ≡ cables_in (table_view table.now)) }
    ensures told { IfOk result (λ x. faults.new ≡ blamed name.Cable x.bad faults.old) }
    ensures refused { IsOkUnless result Error.Memory }
{
    let values = entries_at(table, "cable");
    part_up_to(
        alloc,
        MAX_CABLES as u32,
        Part::Cable,
        &Cables,
        values,
        faults,
    )
}

/// The routers, at most 200. Error: `Memory`.
#[tactic(auto, unfolding(crate::specs::Files::routers_in))]
pub(crate) fn read_routers(
    alloc: Global,
    cables: &[Cable],
    table: &Table,
    faults: &mut Faults,
) -> Result<Found<Router>, Error>
    ensures read { IfOk result (λ x.
        part_outcome name.Router x.bad x.entries ≡ routers_in cables.now (table_view table.now)) }
    ensures told { IfOk result (λ x. faults.new ≡ blamed name.Router x.bad faults.old) }
    ensures refused { IsOkUnless result Error.Memory }
{
    let reader = Routers { cables };
    let values = entries_at(table, "router");
    part_up_to(
        alloc,
        MAX_ROUTERS as u32,
        Part::Router,
        &reader,
        values,
        faults,
    )
}

/// The nodes, at most 200. Error: `Memory`.
#[tactic(auto, unfolding(crate::specs::Files::nodes_in))]
pub(crate) fn read_nodes(
    alloc: Global,
    cables: &[Cable],
    table: &Table,
    faults: &mut Faults,
) -> Result<Found<Node>, Error>
    ensures read { IfOk result (λ x.
        part_outcome name.Node x.bad x.entries ≡ nodes_in cables.now (table_view table.now)) }
    ensures told { IfOk result (λ x. faults.new ≡ blamed name.Node x.bad faults.old) }
    ensures refused { IsOkUnless result Error.Memory }
{
    let reader = Nodes { cables };
    let values = entries_at(table, "node");
    part_up_to(alloc, MAX_NODES as u32, Part::Node, &reader, values, faults)
}

/// The losses. Error: `Memory`.
#[tactic(auto, unfolding(crate::specs::Files::losses_in))]
pub(crate) fn read_losses(
    alloc: Global,
    ticks: u32,
    cables: &[Cable],
    table: &Table,
    faults: &mut Faults,
) -> Result<Found<Loss>, Error>
    ensures read { IfOk result (λ x.
        part_outcome name.Lose x.bad x.entries ≡ losses_in ticks cables.now (table_view table.now)) }
    ensures told { IfOk result (λ x. faults.new ≡ blamed name.Lose x.bad faults.old) }
    ensures refused { IsOkUnless result Error.Memory }
{
    let reader = Losses { ticks, cables };
    let values = entries_at(table, "lose");
    part(alloc, Part::Lose, &reader, values, faults)
}

/// The actions. Error: `Memory`.
#[tactic(auto, unfolding(crate::specs::Files::actions_in))]
pub(crate) fn read_actions(
    alloc: Global,
    ticks: u32,
    nodes: &[Node],
    table: &Table,
    faults: &mut Faults,
) -> Result<Found<Action>, Error>
    ensures read { IfOk result (λ x.
        part_outcome name.Action x.bad x.entries ≡ actions_in ticks nodes.now (table_view table.now)) }
    ensures told { IfOk result (λ x. faults.new ≡ blamed name.Action x.bad faults.old) }
    ensures refused { IsOkUnless result Error.Memory }
{
    let reader = Actions { ticks, nodes };
    let values = entries_at(table, "action");
    part(alloc, Part::Action, &reader, values, faults)
}
