//! The entries of a reply, in place.

use crate::entry::{Entry, entry_at};
use at_base::Error;
use at_base::in_place::{ItemFormat, Items};

/// Whether the entries of a reply are of one network.
#[derive(Clone, Copy, Debug, PartialEq, Eq)]
pub enum Nets {
    /// The entries may be of any networks.
    Any,
    /// All entries are of the first entry's network.
    One,
}

impl ItemFormat for Nets {
    type Item = Entry;

    ghost use Rattle.zip_zones.specs.Packets.{entry, next_net};

    ghost format = { λ nets. entry };

    ghost next = { next_net };

    fn item_at(self, low: u32, bytes: &[u8]) -> Result<(Entry, &[u8]), Error> {
        entry_at(low, bytes)
    }

    fn low_after(self, entry: &Entry) -> u32 {
        match self {
            Nets::Any => 0,
            Nets::One => u32::from(entry.net) + 1,
        }
    }

    #[tactic(auto, using(crate::proofs::Shape::entry_lawful, crate::proofs::Shape::entry_long))]
    fn are_items(self) {}
}

/// An iterator over the entries that are left in a reply. Contracts see it as a list.
pub type Entries<'a> = Items<'a, Nets>;
