//! Names of nodes.

ghost use Rattle.std.specs.Prelude.{◌≡◌, IfOk, IsOkUnless, is_some};
ghost use Rattle.file_entries.specs.Faults.{noted, spot};
ghost use Rattle.toml.specs.View.{table_view};
ghost use Rattle.tables_file.specs.Nodes as spec;
ghost use Rattle.tables_file.specs.Nodes.{name_of};

use crate::field::object_at;
use crate::rising::rising;
use at_base::Error;
use at_base::limits::MAX_NAMES;
use file_entries::entries::{Reader, few_at};
use file_entries::fields::number_at;
use file_entries::key::{only, table};
use file_entries::{Faults, Place, Rising};
use std::alloc::Global;
use table_image::{Listed, NodeName};
use toml::{Table, Value};

/// Reads names.
#[derive(Clone, Copy)]
struct Names;

#[tactic(auto, using(file_entries::proofs::Notes::noted_again))]
impl Reader for Names {
    type Entry = NodeName;

    ghost meaning = { λ _ _ d. name_of d };

    fn read_one(
        &self,
        alloc: Global,
        place: &Place,
        _number: usize,
        value: &Value,
        faults: &mut Faults,
    ) -> Result<Option<NodeName>, Error> {
        let Some(table) = table(place, value, faults) else {
            return Ok(None);
        };
        let named = ["object", "type", "socket", "enumerator"];
        let only = only(&named, place, table, faults);
        let object = faults.take(place, "object", object_at(alloc, table, "object")?);
        let kind = faults.take(place, "type", object_at(alloc, table, "type")?);
        let socket = faults.take(place, "socket", number_at(table, "socket", 1, 254));
        let number = faults.take(place, "enumerator", number_at(table, "enumerator", 1, 255));
        match (only, object, kind, socket, number) {
            (true, Some(object), Some(kind), Some(socket), Some(number)) => Ok(Some(NodeName {
                socket: socket as u8,
                enumerator: number as u8,
                object,
                kind,
            })),
            _ => Ok(None),
        }
    }
}

/// The names in an entry of a node. Error: `Memory`.
pub(crate) fn names_at(
    alloc: Global,
    place: &Place,
    table: &Table,
    faults: &mut Faults,
) -> Result<Option<Listed<NodeName>>, Error>
    ensures read { IfOk result (λ x. x ≡ spec.names (table_view table.now)) }
    ensures told { IfOk result (λ x. faults.new ≡ noted (spot place.now) (is_some x) faults.old) }
    ensures refused { IsOkUnless result Error.Memory }
{
    match few_at(alloc, MAX_NAMES, &Names, place, table, "name", faults)? {
        Some(names) => Ok(rising(names, &place.at("name"), Rising::Enumerator, faults)),
        None => Ok(None),
    }
}
