//! The names of a node, which registers its services in order.

ghost use Rattle.std.specs.Prelude.{◌≡◌, ◌≤◌, [], None, Some, not, map, IfOk, IsOkUnless, is_some};
ghost use Rattle.toml.specs.View.{table_view, view};
ghost use Rattle.file_entries.specs.Faults.{noted, spot};
ghost use Rattle.internet_file.specs.Stations.{may_register, names_in, registered, with_service};

use crate::service::{Service, service_of};
use at_base::Error;
use at_base::limits::MAX_NAMES;
use file_entries::key::list_at;
use file_entries::{Faults, Place, Why};
use nbp::Names;
use std::alloc::Global;
use toml::{Table, Value};

/// Registers the service if a node with these names may, or says why it may not. Error: `Memory`.
fn register(names: &mut Names, service: &Service) -> Result<Option<Why>, Error>
    requires low { 1 ≤ service.now.socket }
    requires high { service.now.socket ≤ 254 }
    ensures taken { IfOk result (λ w. not (is_some w) ≡ may_register names.old service.now) }
    ensures added { IfOk result (λ w. w ≡ None → names.new ≡ with_service names.old service.now) }
    ensures refused { IsOkUnless result Error.Memory }
{
    // Only the prover needs this read: the invariant of all names holds of these.
    let _names = names.entries();
    match names.register(service.object, service.kind, service.socket) {
        Ok(_) => Ok(None),
        Err(Error::Memory) => Err(Error::Memory),
        Err(Error::BadName) => Ok(Some(Why::NoEntity)),
        Err(Error::Full) => Ok(Some(Why::Count {
            low: 0,
            high: MAX_NAMES,
        })),
        Err(_) => Ok(Some(Why::Repeated)),
    }
}

/// Reads the entries from this index on for further faults.
fn read_on(place: &Place, index: usize, values: &[Value], faults: &mut Faults)
    ensures { (t : _) → faults.old ≡ Some t → faults.new ≡ Some t }
{
    let mut index = index;
    for value in values {
        let _service = service_of(&place.table(index), value, faults);
        index = index.saturating_add(1);
    }
}

/// The names of a node that registers the services of these entries in order, if it may. Error:
/// `Memory`.
fn registered_of(
    alloc: Global,
    place: &Place,
    values: &[Value],
    faults: &mut Faults,
) -> Result<Option<Names>, Error>
    ensures read { IfOk result (λ x. x ≡ registered [] (map view values.now)) }
    ensures told { IfOk result (λ x. faults.new ≡ noted (spot place.now) (is_some x) faults.old) }
    ensures refused { IsOkUnless result Error.Memory }
{
    let mut names = Names::new(alloc)?;
    for index in 0..values.len() {
        let here = place.table(index);
        let Some(service) = service_of(&here, &values[index], faults) else {
            read_on(place, index + 1, &values[index + 1..], faults);
            return Ok(None);
        };
        if let Some(why) = register(&mut names, &service)? {
            faults.note(&here, why);
            read_on(place, index + 1, &values[index + 1..], faults);
            return Ok(None);
        }
    }
    Ok(Some(names))
}

/// The names in a node's entry. Error: `Memory`.
pub(crate) fn names_at(
    alloc: Global,
    place: &Place,
    table: &Table,
    faults: &mut Faults,
) -> Result<Option<Names>, Error>
    ensures read { IfOk result (λ x. x ≡ names_in (table_view table.now)) }
    ensures told { IfOk result (λ x. faults.new ≡ noted (spot place.now) (is_some x) faults.old) }
    ensures refused { IsOkUnless result Error.Memory }
{
    let place = place.at("name");
    match list_at(table, "name") {
        Ok(values) => registered_of(alloc, &place, values, faults),
        Err(why) => {
            faults.note(&place, why);
            Ok(None)
        }
    }
}
