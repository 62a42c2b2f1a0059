//! The top level of a file.

ghost use Rattle.std.specs.Prelude.{◌≡◌, ◌&&◌, is_some};
ghost use Rattle.toml.specs.View.{table_view};
ghost use Rattle.at_base.specs.declared.error.Part.TheVariants.{Top};
ghost use Rattle.file_entries.specs.Faults.{noted, spot};
ghost use Rattle.internet_file.specs.Files as spec;
ghost use Rattle.internet_file.specs.Files.{ticks_by, ticks_of};

use at_base::Part;
use file_entries::fields::number_at;
use file_entries::key::{is_listed, only};
use file_entries::{Faults, Place};
use toml::Table;

/// The greatest number of ticks of a file.
pub(crate) const MAX_TICKS: u32 = 100_000;

/// Whether the tables of a file are lists.
#[tactic(auto, using(file_entries::proofs::Notes::noted_both))]
fn are_listed(place: &Place, table: &Table, faults: &mut Faults) -> bool
    ensures value { result ≡ spec.are_listed (table_view table.now) }
    ensures told { faults.new ≡ noted (spot place.now) result faults.old }
{
    let cable = is_listed(place, table, "cable", faults);
    let router = is_listed(place, table, "router", faults);
    let node = is_listed(place, table, "node", faults);
    let lose = is_listed(place, table, "lose", faults);
    let action = is_listed(place, table, "action", faults);
    cable && router && node && lose && action
}

#[tactic(auto, unfolding(crate::specs::Files::ticks_of), using(file_entries::proofs::Notes::noted_both))]
/// The number of ticks in the file, or `None` if the top level is invalid.
pub(crate) fn ticks(table: &Table, faults: &mut Faults) -> Option<u32>
    ensures value { ticks_by result ≡ ticks_of (table_view table.now) }
    ensures told { faults.new ≡ noted (Top, 0) (is_some result) faults.old }
{
    let place = Place::of(Part::Top, 0);
    let named = ["ticks", "cable", "router", "node", "lose", "action"];
    let only = only(&named, &place, table, faults);
    let listed = are_listed(&place, table, faults);
    let ticks = faults.take(&place, "ticks", number_at(table, "ticks", 1, MAX_TICKS));
    if only && listed { ticks } else { None }
}
