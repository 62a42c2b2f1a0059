//! Searching for the lists of ranges, networks and numbers in a zone table, by halving.

ghost use Rattle.std.specs.Prelude.{◌≡◌, IfErr, IfOk};
ghost use Rattle.std.specs.List.{list_any};
ghost use Rattle.std.specs.Option.{option_copied};
ghost use Rattle.at_base.specs.Range.{overlaps};
ghost use Rattle.at_base.specs.Spans.{AreApart, IsAt, IsBefore};
ghost use Rattle.zip_zones.specs.Indexing as indexing_spec;
ghost use Rattle.zip_zones.specs.Zones.{is_full_for, known_for, known_of, overlaps_another};

use crate::index::is_named;
use crate::known::KnownZones;
use at_base::limits::MAX_LISTS;
use at_base::{Name, Range, Spanned, item_at, overlaps_any, place_of, recall_valid};

impl Spanned for KnownZones {
    ghost span = { λ k. k.range };

    fn range(&self) -> Range {
        KnownZones::range(self)
    }
}

/// The list of a range, if any.
pub(crate) fn list_for(lists: &[KnownZones], range: Range) -> Option<&KnownZones>
    requires { AreApart (λ k. k.range) 0 lists.now }
    ensures { option_copied result ≡ known_for range lists.now }
{
    match place_of(lists, range) {
        Ok(place) => Some(&lists[place]),
        Err(_) => None,
    }
}

/// The list whose range contains the network, if any.
pub(crate) fn list_of(lists: &[KnownZones], net: u16) -> Option<&KnownZones>
    requires { AreApart (λ k. k.range) 0 lists.now }
    ensures { option_copied result ≡ known_of net lists.now }
{
    item_at(lists, net)
}

/// Whether the range of any list overlaps this one.
fn overlaps_list(lists: &[KnownZones], range: Range) -> bool
    requires { AreApart (λ k. k.range) 0 lists.now }
    ensures { result ≡ list_any (λ k. overlaps k.range range) lists.now }
{
    recall_valid(range);
    overlaps_any(lists, range)
}

/// Whether another range overlaps this one, whose list is at `place` or, as an error, is to be
/// inserted there. If this range has a list, none does.
pub(crate) fn overlaps_other(
    lists: &[KnownZones],
    range: Range,
    place: Result<usize, usize>,
) -> bool
    requires map { AreApart (λ k. k.range) 0 lists.now }
    requires found { IfOk place (IsAt (λ k. k.range) range lists.now) }
    requires missing { IfErr place (IsBefore (λ k. k.range) range lists.now) }
    ensures { result ≡ overlaps_another range lists.now }
{
    match place {
        Ok(_) => false,
        Err(_) => overlaps_list(lists, range),
    }
}

/// Whether the table has no room for a list of the range, whose list is at `place` or, as an error,
/// is to be inserted there.
pub(crate) fn is_full(lists: &[KnownZones], range: Range, place: Result<usize, usize>) -> bool
    requires found { IfOk place (IsAt (λ k. k.range) range lists.now) }
    requires missing { IfErr place (IsBefore (λ k. k.range) range lists.now) }
    ensures { result ≡ is_full_for range lists.now }
{
    place.is_err() && lists.len() >= MAX_LISTS
}

/// The range of the list that a number of the index is of, if its name is the zone.
pub(crate) fn hit(lists: &[KnownZones], zone: &Name, number: u64) -> Option<Range>
    requires { AreApart (λ k. k.range) 0 lists.now }
    ensures { result ≡ indexing_spec.hit zone.now lists.now number }
{
    let known = list_of(lists, (number / 256 % 65536) as u16)?;
    if is_named(known.names(), (number % 256) as usize, zone) {
        Some(known.range())
    } else {
        None
    }
}
