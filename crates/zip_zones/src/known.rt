//! The zone list of one range.

ghost use Rattle.std.specs.Prelude.{◌≡◌, ◌≤◌, ◌++◌, ◌∷◌, [], length, IfOk, IsOkUnless};
ghost use Rattle.std.specs.Prelude.{OnErr, OnOk};
ghost use Rattle.std.specs.Arc.{arc_value};
ghost use Rattle.std.specs.List.{list_any};
ghost use Rattle.at_base.specs.Limits.{max_zones};
ghost use Rattle.at_base.specs.Numbers.{AreRising};
ghost use Rattle.at_base.specs.Text.{same_name};
ghost use Rattle.zip_zones.specs.Indexing.{any_named, key_of, with_start};
ghost use Rattle.zip_zones.specs.Zones as spec;
ghost use Rattle.zip_zones.specs.Zones.{has_zone, list_of_least, set_list, with_zone};

use crate::index::has;
use crate::once::{FEW, each_once, is_among};
use at_base::{Error, Name, Range};
use std::alloc::Global;
use std::marker::Model;
use std::sync::Arc;

/// The zone list of a range: the number of its zones, and the names received so far.
#[derive(Drop)]
pub(crate) struct KnownZones {
    range: Range,
    total: u8,
    // The names are shared between copies: a router copies its table before it learns, and changes
    // few lists.
    names: Arc<Vec<Name>, Global>,
    alloc: Global,
}

impl Model for KnownZones {
    ghost use Rattle.std.specs.Arc.{arc_value};
    ghost use Rattle.zip_zones.specs.Zones.{Known};

    ghost Value = { Known };

    ghost view = { λ k. record {
      range = k.range;
      total = k.total;
      names = (arc_value k.names).items;
    } };
}

/// Makes the names shareable between copies. Error: `Memory`.
fn shared(alloc: Global, names: Vec<Name>) -> Result<Arc<Vec<Name>, Global>, Error>
    ensures ok { IfOk result (λ shared. arc_value shared ≡ names) }
    ensures err { IsOkUnless result Error.Memory }
{
    match Arc::new(alloc, names) {
        Ok(shared) => Ok(shared),
        Err(_) => Err(Error::Memory),
    }
}

/// Whether the zone is among the names of a list that starts at a network, ignoring case. The index
/// must have their numbers, which are looked at only where comparing the names would cost more.
pub(crate) fn has_among(index: &[u64], start: u16, names: &[Name], zone: &Name) -> bool
    requires rising { AreRising 0 index.now }
    requires indexed { any_named zone.now names.now
        (with_start (key_of zone.now) start index.now) ≡ list_any (same_name zone.now) names.now }
    ensures { result ≡ list_any (same_name zone.now) names.now }
{
    if names.len() <= FEW {
        return is_among(names, zone);
    }
    has(index, start, names, zone)
}

impl KnownZones {
    /// A list of `total` zones with its first name. Error: `Memory`.
    pub(crate) fn begun(
        alloc: Global,
        range: Range,
        total: u8,
        name: &Name,
    ) -> Result<KnownZones, Error>
        ensures ok { IfOk result (λ known. known
            ≡ with_zone name.now (record { range = range; total = total; names = [] })) }
        ensures err { IsOkUnless result Error.Memory }
    {
        let mut first = Vec::with_capacity(alloc, total as usize)?;
        if total != 0 {
            first.push(*name)?;
        }
        let names = shared(alloc, first)?;
        Ok(KnownZones {
            range,
            total,
            names,
            alloc,
        })
    }

    /// A list of `total` zones without names, with room for all of them. Error: `Memory`.
    pub(crate) fn empty(alloc: Global, range: Range, total: u8) -> Result<KnownZones, Error>
        ensures ok { IfOk result
            (λ known. known ≡ record { range = range; total = total; names = [] }) }
        ensures err { IsOkUnless result Error.Memory }
    {
        let names = shared(alloc, Vec::with_capacity(alloc, total as usize)?)?;
        Ok(KnownZones {
            range,
            total,
            names,
            alloc,
        })
    }

    /// The complete list with these names. Error: `Memory`.
    pub(crate) fn of(alloc: Global, range: Range, names: &[Name]) -> Result<KnownZones, Error>
        requires { length names.now ≤ max_zones }
        ensures ok { IfOk result (λ known. known ≡ set_list range names.now) }
        ensures err { IsOkUnless result Error.Memory }
    {
        let kept = each_once(alloc, names)?;
        let total = kept.len() as u8;
        let names = shared(alloc, kept)?;
        Ok(KnownZones {
            range,
            total,
            names,
            alloc,
        })
    }

    /// The list with these names, of at least `least` zones. Error: `Memory`.
    pub(crate) fn at_least(
        alloc: Global,
        range: Range,
        least: u8,
        names: &[Name],
    ) -> Result<KnownZones, Error>
        requires { length names.now ≤ max_zones }
        ensures ok { IfOk result (λ known. known ≡ list_of_least range least names.now) }
        ensures err { IsOkUnless result Error.Memory }
    {
        let kept = each_once(alloc, names)?;
        let total = least.max(kept.len() as u8);
        let names = shared(alloc, kept)?;
        Ok(KnownZones {
            range,
            total,
            names,
            alloc,
        })
    }

    /// A copy of the list. Error: `Memory`.
    pub(crate) fn copy(&self) -> Result<KnownZones, Error>
        ensures ok { IfOk result (λ known. known ≡ self.now) }
        ensures err { IsOkUnless result Error.Memory }
    {
        // The count of owners can't overflow.
        match Arc::try_clone(&self.names) {
            Ok(names) => Ok(KnownZones {
                range: self.range,
                total: self.total,
                names,
                alloc: self.alloc,
            }),
            Err(_) => Err(Error::Memory),
        }
    }

    /// Adds a name after the others. Error: `Memory`; nothing changes then.
    pub(crate) fn push(&mut self, name: &Name) -> Result<(), Error>
        ensures ok { OnOk result
            (self.new ≡ record self.old { names = self.old.names ++ name.now ∷ [] }) }
        ensures err { IsOkUnless result Error.Memory }
        ensures kept { OnErr result (self.new ≡ self.old) }
    {
        // A list that was begun after the table was copied has no other owner.
        if let Some(names) = Arc::get_mut(&mut self.names) {
            names.push(*name)?;
            return Ok(());
        }
        self.push_shared(name)
    }

    /// Adds a name to a copy of the names, which have other owners. Error: `Memory`; nothing
    /// changes then.
    fn push_shared(&mut self, name: &Name) -> Result<(), Error>
        ensures ok { OnOk result
            (self.new ≡ record self.old { names = self.old.names ++ name.now ∷ [] }) }
        ensures err { IsOkUnless result Error.Memory }
        ensures kept { OnErr result (self.new ≡ self.old) }
    {
        // Others are likely to follow.
        let mut names = Vec::with_capacity(self.alloc, self.total as usize)?;
        names.extend_from_slice(self.names.as_ref().as_slice())?;
        names.push(*name)?;
        self.names = shared(self.alloc, names)?;
        Ok(())
    }

    /// The range of networks with these zones.
    pub(crate) fn range(&self) -> Range
        ensures { result ≡ self.now.range }
    {
        self.range
    }

    /// The number of zones of the range.
    pub(crate) fn total(&self) -> u8
        ensures { result ≡ self.now.total }
    {
        self.total
    }

    /// The names received so far.
    pub(crate) fn names(&self) -> &[Name]
        ensures { result.now ≡ self.now.names }
    {
        self.names.as_ref().as_slice()
    }

    /// Whether all names were received.
    pub(crate) fn is_complete(&self) -> bool
        ensures { result ≡ spec.is_complete self.now }
    {
        self.names().len() == self.total as usize
    }

    /// Whether the zone is among the names, ignoring case. The index must have their numbers.
    pub(crate) fn has(&self, index: &[u64], zone: &Name) -> bool
        requires rising { AreRising 0 index.now }
        requires indexed { any_named zone.now self.now.names
            (with_start (key_of zone.now) self.now.range.start index.now)
            ≡ has_zone zone.now self.now }
        ensures { result ≡ has_zone zone.now self.now }
    {
        has_among(index, self.range.start(), self.names(), zone)
    }
}
