//! The order of names, ignoring case. Eight bytes are compared at once, so that a search costs much
//! the same however the names were chosen.

ghost use Rattle.std.specs.Prelude.{◌≤◌, ◌+◌};

use at_base::Name;

/// The bytes of a name in lower case, eight in each word, the first one the highest. Words are in the
/// order of the bytes.
#[derive(Clone, Copy)]
pub(crate) struct Words {
    words: [u64; 4],
}

fn word_at(bytes: &[u8; 32], k: usize) -> u64
    requires { k + 8 ≤ 32 }
{
    u64::from_be_bytes([
        bytes[k],
        bytes[k + 1],
        bytes[k + 2],
        bytes[k + 3],
        bytes[k + 4],
        bytes[k + 5],
        bytes[k + 6],
        bytes[k + 7],
    ])
}

impl Words {
    /// The words of a name. Zeros stand for the bytes past its end.
    pub(crate) fn of(name: &Name) -> Words {
        let text = name.as_slice();
        let mut bytes = [0u8; 32];
        bytes[..text.len()].copy_from_slice(text);
        bytes.make_ascii_lowercase();
        Words {
            words: [
                word_at(&bytes, 0),
                word_at(&bytes, 8),
                word_at(&bytes, 16),
                word_at(&bytes, 24),
            ],
        }
    }

    fn are_before(&self, other: &Words) -> bool {
        for k in 0..4 {
            if self.words[k] != other.words[k] {
                return self.words[k] < other.words[k];
            }
        }
        false
    }
}

/// The words of the names of a cable's zones, by the zones' indices.
#[derive(Drop)]
pub(crate) struct ZoneWords {
    zones: [Words; 256],
}

impl ZoneWords {
    /// The words of the zones.
    pub(crate) fn of(zones: &[Name]) -> ZoneWords {
        let mut all = ZoneWords {
            zones: [Words { words: [0; 4] }; 256],
        };
        for (k, zone) in zones.iter().enumerate() {
            all.zones[k % 256] = Words::of(zone);
        }
        all
    }

    /// The words of the zone with the index.
    pub(crate) fn at(&self, k: u8) -> &Words {
        &self.zones[k as usize]
    }

    /// The number of zones, of those with these indices, whose names come before the one with these
    /// words, if the indices are in the order of the names.
    pub(crate) fn place_in(&self, order: &[u8], words: &Words) -> usize {
        let mut low = 0;
        let mut high = order.len();
        // At most 255 zones are halved eight times.
        for _ in 0..8 {
            if low >= high {
                return low;
            }
            let middle = low + (high - low) / 2;
            match order.get(middle) {
                Some(k) if self.at(*k).are_before(words) => low = middle + 1,
                _ => high = middle,
            }
        }
        low
    }
}
