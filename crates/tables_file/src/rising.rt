//! Lists that rise strictly.

ghost use Rattle.std.specs.Prelude.{◌≡◌, false, is_some};
ghost use Rattle.file_entries.specs.Faults.{noted, spot};
ghost use Rattle.tables_file.specs.Rising as spec;
ghost use Rattle.tables_file.specs.Routers as routers_spec;

use at_base::Listed as Found;
use file_entries::{Faults, Place, Rising, Why};
use table_image::Listed;
use table_image::parts::Item;

/// Whether each item passes on more than the one before it, and the first one more than `low`.
fn rise<T: Item>(low: u32, items: &[T]) -> bool
    ensures { result ≡ spec.rise T.next low items.now }
{
    match items {
        [] => true,
        [first, rest @ ..] => low < first.next_low() && rise(first.next_low(), rest),
    }
}

/// The key that items rise by.
fn key_of(by: Rising) -> &'static str {
    match by {
        Rising::Range => "range",
        Rising::Address => "address",
        Rising::Enumerator => "enumerator",
    }
}

/// Notes each item of the list at this place that doesn't come after the one before it, of which
/// there is one.
fn note_falling<T: Item>(items: &[T], place: &Place, by: Rising, faults: &mut Faults)
    ensures { faults.new ≡ noted (spot place.now) false faults.old }
{
    let mut low = 0u32;
    let mut index = 0usize;
    for item in items {
        if item.next_low() <= low {
            let place = place.table(index).at(key_of(by));
            faults.note(&place, Why::Falls { by });
        }
        low = item.next_low();
        index = index.saturating_add(1);
    }
    faults.note_first(place, Why::Falls { by });
}

/// The items as a list of an image, if they rise strictly.
pub(crate) fn rising<T: Item>(
    items: Found<T>,
    place: &Place,
    by: Rising,
    faults: &mut Faults,
) -> Option<Listed<T>>
    ensures value { result ≡ routers_spec.rising T.next items }
    ensures told { faults.new ≡ noted (spot place.now) (is_some result) faults.old }
{
    if rise(0, items.as_slice()) {
        return Some(Listed::from_vec(items.into_vec()));
    }
    note_falling(items.as_slice(), place, by, faults);
    None
}
