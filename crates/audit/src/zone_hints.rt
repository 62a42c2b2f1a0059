//! Finding zones of cables by name. A hint is an index that is probably the right one. It is
//! verified before it is used, so a wrong hint costs a search, and doesn't change the result.
//!
//! Names are found by their hashes. Where more than a few zones of a cable share one hash, as in an
//! image that was made to be slow, those are found by the order of their names.

ghost use Rattle.std.specs.Prelude.{◌≡◌, ◌<◌, ◌≤◌, ◌+◌, ◌*◌, false, Some, IfSome, position};
ghost use Rattle.at_base.specs.Text.{same_name};
ghost use Rattle.at_base.specs.Limits.{max_zones};
ghost use Rattle.audit.specs.Places.{index_of};
ghost use Rattle.audit.specs.ZoneLists.{has_double};

use crate::name_order::{Words, ZoneWords};
use at_base::Name;
use at_base::limits::MAX_ZONES;
use table_image::Image;

/// The number of zones of a cable that may have hints.
const ZONES: usize = MAX_ZONES;

/// The number of hashes of names.
const HASHES: usize = 512;

/// The greatest number of zones of a cable with one hash that are compared with a name.
const FEW: usize = 4;

/// The index that means no zone.
const NONE: u8 = 255;

/// For each cable and each hash of a name, the index of a zone of the cable whose name may have
/// this hash, unless more than `FEW` have it; and for each zone of a cable, the index of another such
/// zone. For each cable of which more than `FEW` zones have one hash, its zones in the order of their
/// names.
#[derive(Drop)]
pub(crate) struct ZoneHints {
    first: [u8; 256 * HASHES],
    next: [u8; 256 * ZONES],
    crowded: [bool; 256],
    order: [u8; 256 * ZONES],
}

/// A factor for each byte of a name, for the hash.
const FACTORS: [u16; 32] = [
    0x9E37, 0x79B9, 0x7F4B, 0xC13D, 0x85EB, 0xCA6B, 0xC2B3, 0xAE35, 0x27D5, 0xEB2F, 0x1657, 0x67B1,
    0x9E39, 0x3779, 0xB979, 0x7F4D, 0x4A7D, 0x1CE5, 0xB9F5, 0xBF59, 0x94D1, 0x49BB, 0x1331, 0x11EB,
    0x5851, 0xF42D, 0x4C95, 0x7F2D, 0x1405, 0x7B7F, 0x2545, 0xF491,
];

// The hash of a name. Names that are equal, ignoring case, have one hash: the two cases of a letter
// differ in one bit. It is a sum of products, so that many bytes can be handled at once.
fn hash(name: &Name) -> usize {
    let sum = name
        .as_slice()
        .iter()
        .zip(FACTORS.iter())
        .fold(0u16, |sum, (byte, factor)| {
            sum.wrapping_add(u16::from(*byte | 0x20).wrapping_mul(*factor))
        });
    (sum >> 7) as usize
}

fn first_slot(cable: usize, hash: usize) -> usize
    ensures { result < 256 * 512 }
{
    cable % 256 * HASHES + hash % HASHES
}

fn next_slot(cable: usize, zone: usize) -> usize
    ensures { result < 256 * max_zones }
{
    cable % 256 * ZONES + zone % ZONES
}

fn search(zones: &[Name], name: &Name) -> Option<usize>
    ensures { result ≡ position (same_name name.now) zones.now }
{
    zones.iter().position(|zone| name.same(zone))
}

// The slot of the first zone of a cable in the order of names.
fn order_slot(cable: usize) -> usize
    ensures { result + max_zones ≤ 256 * max_zones }
{
    cable % 256 * ZONES
}

impl ZoneHints {
    // Adds the zones of a cable, and counts those of each hash.
    fn add_hashes(&mut self, cable: usize, zones: &[Name]) -> [u8; HASHES] {
        let mut counts = [0u8; HASHES];
        for (k, zone) in zones.iter().enumerate() {
            let hash = hash(zone) % HASHES;
            let slot = first_slot(cable, hash);
            counts[hash] = counts[hash].saturating_add(1);
            self.next[next_slot(cable, k)] = self.first[slot];
            self.first[slot] = (k % 256) as u8;
        }
        counts
    }

    // Takes out the hashes that more than `FEW` zones have. Returns whether there are any.
    fn take_crowded(&mut self, cable: usize, counts: &[u8; HASHES]) -> bool {
        let mut is_crowded = false;
        for (hash, count) in counts.iter().enumerate() {
            if *count as usize > FEW {
                self.first[first_slot(cable, hash)] = NONE;
                is_crowded = true;
            }
        }
        is_crowded
    }

    // Puts the zones of a cable in the order of their names.
    fn add_order(&mut self, cable: usize, zones: &[Name]) {
        let words = ZoneWords::of(zones);
        let start = order_slot(cable);
        for k in 0..zones.len().min(ZONES) {
            let zone = (k % 256) as u8;
            let place = words.place_in(&self.order[start..start + k], words.at(zone));
            for j in (place..k).rev() {
                self.order[start + j + 1] = self.order[start + j];
            }
            self.order[start + place.min(k)] = zone;
        }
    }

    fn add_zones(&mut self, cable: usize, zones: &[Name]) {
        let counts = self.add_hashes(cable, zones);
        if self.take_crowded(cable, &counts) {
            self.crowded[cable % 256] = true;
            self.add_order(cable, zones);
        }
    }

    /// The hints for the zones of each cable.
    pub(crate) fn of(image: &Image) -> ZoneHints {
        let mut hints = ZoneHints {
            first: [NONE; 256 * HASHES],
            next: [NONE; 256 * ZONES],
            crowded: [false; 256],
            order: [NONE; 256 * ZONES],
        };
        for (c, cable) in image.cables().iter().enumerate() {
            hints.add_zones(c, cable.zones.as_slice());
        }
        hints
    }

    // Goes through the first zones of the cable whose names have the hash of this one.
    fn hinted(&self, cable: usize, zones: &[Name], name: &Name) -> Option<usize>
        requires { has_double zones.now ≡ false }
        ensures { IfSome result (λ k. Some k ≡ index_of (same_name name.now) zones.now) }
    {
        let mut hint = self.first[first_slot(cable, hash(name))] as usize;
        for _ in 0..FEW {
            let zone = zones.get(hint)?;
            if name.same(zone) {
                return Some(hint);
            }
            hint = self.next[next_slot(cable, hint)] as usize;
        }
        None
    }

    /// Whether zones of the cable are found by the order of their names.
    pub(crate) fn is_crowded(&self, cable: usize) -> bool {
        self.crowded[cable % 256]
    }

    // Looks where the name stands among those of the cable's zones.
    fn ordered(
        &self,
        words: Option<&ZoneWords>,
        cable: usize,
        zones: &[Name],
        name: &Name,
    ) -> Option<usize>
        requires { has_double zones.now ≡ false }
        ensures { IfSome result (λ k. Some k ≡ index_of (same_name name.now) zones.now) }
    {
        let start = order_slot(cable);
        let order = &self.order[start..start + zones.len().min(ZONES)];
        let place = words?.place_in(order, &Words::of(name));
        let hint = *order.get(place)? as usize;
        let zone = zones.get(hint)?;
        if name.same(zone) {
            return Some(hint);
        }
        None
    }

    /// The 0-based index of the zone of a cable that has the name, ignoring case, if any. The words
    /// are those of the cable's zones, if it is crowded.
    pub(crate) fn find(
        &self,
        words: Option<&ZoneWords>,
        cable: usize,
        zones: &[Name],
        name: &Name,
    ) -> Option<usize>
        requires { has_double zones.now ≡ false }
        ensures { result ≡ index_of (same_name name.now) zones.now }
    {
        if let Some(k) = self.hinted(cable, zones, name) {
            return Some(k);
        }
        match self.ordered(words, cable, zones, name) {
            Some(k) => Some(k),
            None => search(zones, name),
        }
    }
}
