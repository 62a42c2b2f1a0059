//! The top level of a file.

ghost use Rattle.std.specs.Prelude.{◌≡◌, ◌&&◌, is_some};
ghost use Rattle.std.specs.Result.{result_ok};
ghost use Rattle.toml.specs.View.{table_view};
ghost use Rattle.at_base.specs.declared.error.Part.TheVariants.{Top};
ghost use Rattle.file_entries.specs.Entries.{at_or};
ghost use Rattle.file_entries.specs.Faults.{noted, spot};
ghost use Rattle.file_entries.specs.Values as values_spec;
ghost use Rattle.tables_file.specs.Files as spec;

use at_base::Part;
use file_entries::key::{get, is_listed, only};
use file_entries::value::number;
use file_entries::{Faults, Place, Why};
use table_image::Version;
use toml::Table;

/// Whether the tables of a file are lists.
#[tactic(auto, using(file_entries::proofs::Notes::noted_both))]
fn are_listed(place: &Place, table: &Table, faults: &mut Faults) -> bool
    ensures value { result ≡ spec.are_listed (table_view table.now) }
    ensures told { faults.new ≡ noted (spot place.now) result faults.old }
{
    let cable = is_listed(place, table, "cable", faults);
    let router = is_listed(place, table, "router", faults);
    let node = is_listed(place, table, "node", faults);
    cable && router && node
}

/// The number of the version at the key, 1 where the table doesn't have the key.
fn version_at(table: &Table, key: &str) -> Result<u32, Why>
    ensures { result_ok result ≡ at_or 1 key.now (values_spec.number 1 2) (table_view table.now) }
{
    match get(table, key) {
        Some(value) => number(1, 2, value),
        None => Ok(1),
    }
}

/// The version of the image, or `None` if the top level is invalid.
#[tactic(auto, unfolding(crate::specs::Files::version_in))]
pub(crate) fn version(table: &Table, faults: &mut Faults) -> Option<Version>
    ensures value { spec.version_or result ≡ spec.version_in (table_view table.now) }
    ensures told { faults.new ≡ noted (Top, 0) (is_some result) faults.old }
{
    let place = Place::of(Part::Top, 0);
    let only = only(
        &["version", "cable", "router", "node"],
        &place,
        table,
        faults,
    );
    let listed = are_listed(&place, table, faults);
    let number = faults.take(&place, "version", version_at(table, "version"));
    match (only, listed, number) {
        (true, true, Some(number)) => Some(Version::of(number as u8)),
        _ => None,
    }
}
