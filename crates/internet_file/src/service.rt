//! Services that a node registers.

ghost use Rattle.std.specs.Prelude.{◌≡◌, ◌≤◌, IfSome, is_some};
ghost use Rattle.toml.specs.View.{view};
ghost use Rattle.file_entries.specs.Faults.{noted, spot};
ghost use Rattle.internet_file.specs.Stations as spec;

use at_base::Text32;
use file_entries::fields::{number_at, short_at};
use file_entries::key::{only, table};
use file_entries::{Faults, Place};
use toml::Value;

/// A service that a node registers.
#[derive(Clone, Copy, Debug)]
pub(crate) struct Service {
    pub(crate) object: Text32,
    pub(crate) kind: Text32,
    pub(crate) socket: u8,
}

/// The service in an entry of a node's names.
pub(crate) fn service_of(place: &Place, value: &Value, faults: &mut Faults) -> Option<Service>
    ensures value { result ≡ spec.service_of (view value.now) }
    ensures low { IfSome result (λ s. 1 ≤ s.socket) }
    ensures high { IfSome result (λ s. s.socket ≤ 254) }
    ensures told { faults.new ≡ noted (spot place.now) (is_some result) faults.old }
{
    let table = table(place, value, faults)?;
    let only = only(&["object", "type", "socket"], place, table, faults);
    let object = faults.take(place, "object", short_at(table, "object", 0));
    let kind = faults.take(place, "type", short_at(table, "type", 0));
    let socket = faults.take(place, "socket", number_at(table, "socket", 1, 254));
    match (only, object, kind, socket) {
        (true, Some(object), Some(kind), Some(socket)) => Some(Service {
            object,
            kind,
            socket: socket as u8,
        }),
        _ => None,
    }
}
