//! Comparing a zone list with the zones of its cable, in any order and case.

ghost use Rattle.std.specs.Prelude.{◌≡◌, ◌≢◌, ◌<◌, ◌≤◌, ◌&&◌, ℕ, not, true, false};
ghost use Rattle.std.specs.Prelude.{IsTrue, fold, length};
ghost use Rattle.std.specs.List.{list_all};
ghost use Rattle.at_base.specs.Limits.{max_zones};
ghost use Rattle.audit.specs.Found.{is_found, all_found};
ghost use Rattle.audit.specs.ZoneLists.{has_double, are_among};

use crate::name_order::ZoneWords;
use crate::zone_hints::ZoneHints;
use at_base::Name;
use at_base::limits::MAX_ZONES;

// Goes on to the end after a false mark, so that many marks can be handled at once.
fn fold_all(marks: &[bool]) -> bool
    ensures { result ≡ fold (λ all b. all && b) true marks.now }
{
    marks.iter().fold(true, |all, mark| all & *mark)
}

fn are_all(marks: &[bool]) -> bool
    ensures { result ≡ list_all (λ b. b) marks.now }
{
    fold_all(marks)
}

/// The zones of a cable that were found in a list, by their indices.
#[derive(Drop)]
struct Found {
    zones: [bool; MAX_ZONES],
}

impl Found {
    fn none() -> Found
        ensures { (k : ℕ) → is_found result k ≡ false }
    {
        Found {
            zones: [false; MAX_ZONES],
        }
    }

    fn has(&self, k: usize) -> bool
        requires { k < max_zones }
        ensures { result ≡ is_found self.now k }
    {
        self.zones[k]
    }

    fn add(&mut self, k: usize)
        requires { k < max_zones }
        ensures here { is_found self.new k ≡ true }
        ensures others { (j : ℕ) → j ≢ k → is_found self.new j ≡ is_found self.old j }
    {
        self.zones[k] = true;
    }

    // Whether the zones below n were found.
    fn has_all(&self, n: usize) -> bool
        requires { n ≤ max_zones }
        ensures value { result ≡ all_found self.now n }
        ensures len { length self.now.zones ≡ max_zones }
    {
        are_all(&self.zones[..n])
    }
}

/// Whether the names are equal to the others, in the same order and spelling.
pub(crate) fn are_spelled_alike(names: &[Name], others: &[Name]) -> bool
    ensures { IsTrue result → names.now ≡ others.now }
{
    if names.len() != others.len() {
        return false;
    }
    for (k, name) in names.iter().enumerate() {
        if !name.is_spelled_like(&others[k]) {
            return false;
        }
    }
    true
}

/// Whether the names are those of a cable's zones, each once, in any order and case.
pub(crate) fn are_zones_of(hints: &ZoneHints, cable: usize, zones: &[Name], names: &[Name]) -> bool
    requires once { has_double zones.now ≡ false }
    requires few { length zones.now ≤ max_zones }
    ensures { result
        ≡ (not (has_double names.now)
        && (are_among names.now zones.now && are_among zones.now names.now)) }
{
    if are_spelled_alike(names, zones) {
        return true;
    }
    if hints.is_crowded(cable) {
        have_all_by_words(hints, cable, zones, names)
    } else {
        have_all(hints, None, cable, zones, names)
    }
}

// Whether the names are those of a crowded cable's zones, each once. It is a function of its own,
// since each call of a function pays for the size of its locals.
#[inline(never)]
fn have_all_by_words(hints: &ZoneHints, cable: usize, zones: &[Name], names: &[Name]) -> bool
    requires once { has_double zones.now ≡ false }
    requires few { length zones.now ≤ max_zones }
    ensures { result
        ≡ (not (has_double names.now)
        && (are_among names.now zones.now && are_among zones.now names.now)) }
{
    let words = ZoneWords::of(zones);
    have_all(hints, Some(&words), cable, zones, names)
}

// Whether the names are those of a cable's zones, each once.
fn have_all(
    hints: &ZoneHints,
    words: Option<&ZoneWords>,
    cable: usize,
    zones: &[Name],
    names: &[Name],
) -> bool
    requires once { has_double zones.now ≡ false }
    requires few { length zones.now ≤ max_zones }
    ensures { result
        ≡ (not (has_double names.now)
        && (are_among names.now zones.now && are_among zones.now names.now)) }
{
    let mut found = Found::none();
    for name in names {
        match hints.find(words, cable, zones, name) {
            Some(k) => {
                if found.has(k) {
                    return false;
                }
                found.add(k);
            }
            None => return false,
        }
    }
    found.has_all(zones.len())
}
