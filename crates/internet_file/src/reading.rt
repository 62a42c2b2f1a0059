//! Reads the plan from the text of a file.

ghost use Rattle.std.specs.Prelude.{◌≡◌, ◌⊎◌, None, Ok, Err, IfOk, IfErr};
ghost use Rattle.toml.specs.View.{table_view};
ghost use Rattle.file_entries.specs.Faults.{IsTold};
ghost use Rattle.internet_file.specs.Files.{IsFile, IsFileRefused, file};

use crate::parts::{read_actions, read_cables, read_losses, read_nodes, read_routers};
use crate::plan::Plan;
use crate::top::{MAX_TICKS, ticks};
use at_base::{Error, Part};
use file_entries::{Faults, Refused, document};
use std::alloc::Global;
use toml::Table;

/// The plan in a document. Errors: that of its first fault; `Memory`.
fn plan(alloc: Global, table: &Table, faults: &mut Faults) -> Result<Plan, Error>
    requires { faults.old ≡ None }
    ensures read { IfOk result (λ p. file (table_view table.now) ≡ Ok p) }
    ensures refused { IfErr result (λ e.
        (file (table_view table.now) ≡ Err e) ⊎ (e ≡ Error.Memory)) }
    ensures told { IfErr result (λ e. IsTold faults.new e) }
{
    let top = ticks(table, faults);
    // Where the number of ticks isn't valid, any tick may be one of the file.
    let count = top.unwrap_or(MAX_TICKS);
    let cables = read_cables(alloc, table, faults)?;
    let routers = read_routers(alloc, cables.entries.as_slice(), table, faults)?;
    let nodes = read_nodes(alloc, cables.entries.as_slice(), table, faults)?;
    let losses = read_losses(alloc, count, cables.entries.as_slice(), table, faults)?;
    let actions = read_actions(alloc, count, nodes.entries.as_slice(), table, faults)?;
    let Some(ticks) = top else {
        return Err(Error::BadFile(Part::Top, 0));
    };
    if let Some(number) = cables.bad {
        return Err(Error::BadFile(Part::Cable, number));
    }
    if let Some(number) = routers.bad {
        return Err(Error::BadFile(Part::Router, number));
    }
    if let Some(number) = nodes.bad {
        return Err(Error::BadFile(Part::Node, number));
    }
    if let Some(number) = losses.bad {
        return Err(Error::BadFile(Part::Lose, number));
    }
    if let Some(number) = actions.bad {
        return Err(Error::BadFile(Part::Action, number));
    }
    Ok(Plan {
        ticks,
        cables: cables.entries,
        routers: routers.entries,
        nodes: nodes.entries,
        losses: losses.entries,
        actions: actions.entries,
    })
}

/// Reads an internet file: TOML with the key `ticks`, and with the tables `cable`, `router`,
/// `node`, `lose` and `action`, each of which may be absent. docs/FORMATS.md has their keys.
///
/// Errors: `BadFile` with `Text` and 0 if the text isn't TOML; with `Top` and 0 if `ticks` is
/// absent or invalid, if the top level has another key, or if one of these tables isn't a list;
/// with the part and the number of its first invalid entry, from 1, in the order `Cable`, `Router`,
/// `Node`, `Lose`, `Action`. `Memory` may come before any of these. With `BadFile` come the faults
/// of the file, the first of them in that entry; of a text that isn't TOML none.
pub fn read(alloc: Global, text: &[u8]) -> Result<Plan, Refused>
    ensures plan { IfOk result (λ p. IsFile text.now p) }
    ensures refused { IfErr result (λ r. IsFileRefused text.now r.error) }
    ensures told { IfErr result (λ r. IsTold r.faults r.error) }
{
    let mut faults = Faults::new(alloc);
    let table = match document(alloc, text) {
        Ok(table) => table,
        Err(error) => return Err(Refused { error, faults }),
    };
    match plan(alloc, &table, &mut faults) {
        Ok(plan) => Ok(plan),
        Err(error) => Err(Refused { error, faults }),
    }
}
