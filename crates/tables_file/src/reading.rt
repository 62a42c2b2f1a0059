//! Reads the image from the text of a file.

ghost use Rattle.std.specs.Prelude.{◌≡◌, ◌⊎◌, None, Ok, Err, IfOk, IfErr};
ghost use Rattle.toml.specs.View.{table_view};
ghost use Rattle.file_entries.specs.Faults.{IsTold};
ghost use Rattle.tables_file.specs.Files.{AreRefused, AreTables, tables_in};

use crate::made_up::mark_of;
use crate::parts::{read_cables, read_nodes, read_routers};
use crate::top::version;
use at_base::{Error, Part};
use file_entries::{Faults, Refused, document};
use std::alloc::Global;
use table_image::{Image, Listed, Version};
use toml::Table;

/// The image in a document. Errors: that of its first fault; `Memory`.
fn image(alloc: Global, table: &Table, faults: &mut Faults) -> Result<Image, Error>
    requires { faults.old ≡ None }
    ensures read { IfOk result (λ i. tables_in (table_view table.now) ≡ Ok i) }
    ensures refused { IfErr result (λ e.
        (tables_in (table_view table.now) ≡ Err e) ⊎ (e ≡ Error.Memory)) }
    ensures told { IfErr result (λ e. IsTold faults.new e) }
{
    let top = version(table, faults);
    // Where the version isn't valid, the file may have all that either version has.
    let version = top.unwrap_or(Version::V2);
    let cables = read_cables(alloc, version, table, faults)?;
    let mark = mark_of(table);
    let routers = read_routers(
        alloc,
        version,
        cables.entries.as_slice(),
        mark,
        table,
        faults,
    )?;
    let nodes = read_nodes(alloc, version, cables.entries.len(), mark, table, faults)?;
    let Some(version) = top else {
        return Err(Error::BadFile(Part::Top, 0));
    };
    if let Some(number) = cables.bad {
        return Err(Error::BadFile(Part::Cable, number));
    }
    if let Some(number) = routers.bad {
        return Err(Error::BadFile(Part::Router, number));
    }
    if let Some(number) = nodes.bad {
        return Err(Error::BadFile(Part::Node, number));
    }
    // The entries are those of an image: nothing is left to check.
    Ok(Image::of(
        version,
        Listed::from_vec(cables.entries.into_vec()),
        Listed::from_vec(routers.entries.into_vec()),
        Listed::from_vec(nodes.entries.into_vec()),
    ))
}

/// Reads a tables file: TOML with what each router and node of an internet holds, which an image
/// can hold, right or wrong. docs/FORMATS.md has the keys.
///
/// Errors: `BadFile` with `Text` and 0 if the text isn't TOML; with `Top` and 0 if `version` is
/// invalid, if the top level has another key, or if `cable`, `router` or `node` isn't a list; with
/// the part and the number of its first invalid entry, from 1, in the order `Cable`, `Router`,
/// `Node`. `Memory` may come before any of these. With `BadFile` come the faults of the file, the
/// first of them in that entry; of a text that isn't TOML none.
pub fn read(alloc: Global, text: &[u8]) -> Result<Image, Refused>
    ensures tables { IfOk result (λ i. AreTables text.now i) }
    ensures refused { IfErr result (λ r. AreRefused text.now r.error) }
    ensures told { IfErr result (λ r. IsTold r.faults r.error) }
{
    let mut faults = Faults::new(alloc);
    let table = match document(alloc, text) {
        Ok(table) => table,
        Err(error) => return Err(Refused { error, faults }),
    };
    match image(alloc, &table, &mut faults) {
        Ok(image) => Ok(image),
        Err(error) => Err(Refused { error, faults }),
    }
}
