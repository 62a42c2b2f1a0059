//! Adding lists after all others.

ghost use Rattle.std.specs.Prelude.{◌≡◌, ◌⊎◌, ◌↔◌, ◌++◌, ◌∷◌, [], false, true};
ghost use Rattle.std.specs.Prelude.{IfErr, IsOkUnless, OnErr, OnOk};
ghost use Rattle.zip_zones.specs.Zones as spec;
ghost use Rattle.zip_zones.specs.Zones.{end_of, list_of_least};

use crate::change::put_last;
use crate::known::KnownZones;
use crate::table::ZoneTable;
use at_base::limits::{MAX_LISTS, MAX_ZONES};
use at_base::{Error, Name, Range, recall_valid};

/// The last network of the last list, or 0 without lists.
fn end(lists: &[KnownZones]) -> u16
    ensures { result ≡ end_of 0 lists.now }
{
    match lists.last() {
        Some(known) => known.range().end(),
        None => 0,
    }
}

/// Whether the range starts above all lists.
fn is_past(lists: &[KnownZones], range: Range) -> bool
    ensures { result ≡ spec.is_past range lists.now }
{
    end(lists) < range.start()
}

/// Whether the table has room for one more list with these names.
fn has_room(lists: &[KnownZones], least: u8, names: &[Name]) -> bool
    ensures { result ≡ spec.has_room least names.now lists.now }
{
    least as usize <= MAX_ZONES && names.len() <= MAX_ZONES && lists.len() < MAX_LISTS
}

impl ZoneTable {
    /// Adds the list of a range above all others, of at least `least` zones, with these names, each
    /// once, ignoring case. The list is complete if it has as many names as zones. Its place needs
    /// no search.
    ///
    /// Errors: `BadRange` where the range isn't above all others; `Full` above 255 names,
    /// duplicates counted too, and where the table has 200 lists; `Memory`. A refusal changes
    /// nothing.
    pub fn append(&mut self, range: Range, least: u8, names: &[Name]) -> Result<(), Error>
        ensures ok { OnOk result
            (self.new ≡ self.old ++ list_of_least range least names.now ∷ []) }
        ensures range { (result ≡ Err Error.BadRange) ↔ (spec.is_past range self.old ≡ false) }
        ensures full { (result ≡ Err Error.Full) ↔ ((spec.is_past range self.old ≡ true)
            × (spec.has_room least names.now self.old ≡ false)) }
        ensures refused { IfErr result
            (λ e. (e ≡ Error.BadRange) ⊎ (e ≡ Error.Full) ⊎ (e ≡ Error.Memory)) }
        ensures kept { OnErr result (self.new ≡ self.old) }
    {
        if !is_past(self.lists.as_slice(), range) {
            return Err(Error::BadRange);
        }
        if !has_room(self.lists.as_slice(), least, names) {
            return Err(Error::Full);
        }
        recall_valid(range);
        let known = KnownZones::at_least(*self.lists.allocator(), range, least, names)?;
        put_last(&mut self.lists, &mut self.index, known)?;
        Ok(())
    }
}
