//! The networks of a query, in place.

use at_base::Error;
use at_base::in_place::{ItemFormat, Items};
use at_base::packet::u16_at;

/// The format of a network.
#[derive(Clone, Copy, Debug)]
pub struct NetworkFormat;

impl ItemFormat for NetworkFormat {
    type Item = u16;

    ghost use Rattle.zip_zones.specs.Packets.{network};

    ghost format = { λ f low. network };

    ghost next = { λ f net. 0 };

    #[tactic(auto, unfolding(crate::specs::Packets::network))]
    fn item_at(self, _low: u32, bytes: &[u8]) -> Result<(u16, &[u8]), Error> {
        u16_at(bytes)
    }

    fn low_after(self, _net: &u16) -> u32 {
        0
    }

    #[tactic(auto, using(crate::proofs::Shape::network_lawful, crate::proofs::Shape::network_long))]
    fn are_items(self) {}
}

/// An iterator over the networks that are left in a query. Contracts see it as a list.
pub type Networks<'a> = Items<'a, NetworkFormat>;
